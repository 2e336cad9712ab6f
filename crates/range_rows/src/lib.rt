//! Runs of the program that show how far a cost may move, over files and an output in memory. There is
//! nothing here but tests.
#![tactic(auto)]

#[cfg(test)]
mod failing;
#[cfg(test)]
mod files;
#[cfg(test)]
mod ranges;
