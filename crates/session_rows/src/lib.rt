//! Runs of sessions over files, an input and an output in memory. There is nothing here but tests.
#![tactic(auto)]

#[cfg(test)]
mod carried;
#[cfg(test)]
mod cuts;
#[cfg(test)]
mod edits;
#[cfg(test)]
mod limits;
#[cfg(test)]
mod reports;
#[cfg(test)]
mod statuses;
#[cfg(test)]
mod words;
