//! Runs of the desk over files, scenarios, an input and an output in memory. There is nothing here but tests.
#![tactic(auto)]

#[cfg(test)]
mod lines;
#[cfg(test)]
mod row;
#[cfg(test)]
mod statuses;
