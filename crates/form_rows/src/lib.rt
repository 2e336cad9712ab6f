//! Runs of the program that show duals, check certificates and convert, on every form of instance files, over
//! files, an input and an output in memory. There is nothing here but tests.
#![tactic(auto)]

#[cfg(test)]
mod checks;
#[cfg(test)]
mod converts;
#[cfg(test)]
mod forms;
#[cfg(test)]
mod options;
