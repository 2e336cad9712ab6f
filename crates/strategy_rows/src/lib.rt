//! Rows over the strategy of a search: what a later search begins with. There is nothing here but tests,
//! which in a crate of their own are proved without the crates below.
#![tactic(auto)]

#[cfg(test)]
mod again;
