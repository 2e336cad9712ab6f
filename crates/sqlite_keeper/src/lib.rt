//! A keeper of scenarios in a file of SQLite, so that they outlive a run.
//!
//! Each call opens the file, does its work in one transaction, and closes the file again, so that several
//! runs may share a store. While one of them is at it, another one's call is refused and doesn't wait.
#![tactic(auto)]

mod keeper;
mod opening;
mod reading;
mod refusal;
mod texts;
mod writing;

pub use keeper::SqliteKeeper;
