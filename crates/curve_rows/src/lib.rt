//! Whole runs of the commands `center` and `curve`, and those of which one call fails, each in turn. There is
//! nothing here but tests.
#![tactic(auto)]

#[cfg(test)]
mod centers;
#[cfg(test)]
mod curves;
