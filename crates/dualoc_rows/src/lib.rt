//! Runs of the program that solve, over files, an input and an output in memory, and words that are no command.
//! There is nothing here but tests.
#![tactic(auto)]

#[cfg(test)]
mod claims;
#[cfg(test)]
mod cuts;
#[cfg(test)]
mod rows;
#[cfg(test)]
mod searches;
#[cfg(test)]
mod solves;
