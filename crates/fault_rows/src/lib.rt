//! Runs of the program one of whose calls fails, each in turn, of files that are cut, and of an input that isn't due. There
//! is nothing here but tests.
#![tactic(auto)]

#[cfg(test)]
mod checks;
#[cfg(test)]
mod converts;
#[cfg(test)]
mod duals;
#[cfg(test)]
mod fronts;
#[cfg(test)]
mod inputs;
#[cfg(test)]
mod searches;
#[cfg(test)]
mod sessions;
