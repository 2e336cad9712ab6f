//! The lines of a file on a shelf or of an input, one at a time. It is read in pieces, and one piece and
//! one line are held, however long it is.
//!
//! One machine makes lines of pieces, and where the next piece comes from is all that differs. A reader
//! looks at the first bytes, up to a limit. Clauses say what it has left of them, where the shelf or the
//! source tells them. The lines of an input have a limit each besides.
#![tactic(auto)]

mod fault;
mod file;
mod input;
mod reader;

pub use fault::LineFault;
pub use input::{InputLines, NextInput};
pub use reader::{Ahead, LineReader, Next};

#[cfg(test)]
mod input_tests;
#[cfg(test)]
mod tests;
