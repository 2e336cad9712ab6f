//! The forms of instance files: the words that name them, and reading a file of any of them.
//!
//! A command or a line that takes an instance has the words `FORM FILE`, and may have the option
//! `capacity=A`. `InstanceFile::of` is the file that such words name, and `open` reads it from a shelf.
#![tactic(auto)]

mod file;
mod form;
mod laws;
mod reading;

pub use file::{InstanceFile, capacity};
pub use form::FileForm;
pub use laws::meanings;
pub use reading::{InstanceFault, open, read};

#[cfg(test)]
mod tests;
