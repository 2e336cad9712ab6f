//! Rows over centers and the cost curve. There is nothing here but tests.
#![tactic(auto)]

#[cfg(test)]
mod tests;
