//! Rows of lines of a session and of the replies to them. There is nothing here but tests, which in a crate of their own
//! are proved without the crate of lines.
#![tactic(auto)]

#[cfg(test)]
mod lines;
