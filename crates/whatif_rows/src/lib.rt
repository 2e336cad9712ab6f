//! Rows over the calls of a session: its book, and its serial numbers. There is nothing here but tests.
#![tactic(auto)]

#[cfg(test)]
mod tests;
