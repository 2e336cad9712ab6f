//! Rows over a store in a file of SQLite. There is nothing here but tests, which in a crate of their own are proved
//! without its keeper.
#![tactic(auto)]

#[cfg(test)]
mod keeping;
