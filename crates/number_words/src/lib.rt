//! The words of a text and of a line, and the whole numbers and costs that they spell.
//!
//! A word may spell a number of any size. It has one plain spelling, which is the one that is printed,
//! so that a text of plain words, parted by single spaces, is known by what it says.
#![tactic(auto)]

mod cost_word;
mod digit_run;
mod laws;
mod limits;
mod line;
mod number_word;
mod scan;
mod word;

pub use cost_word::{cost, is_cost, is_plain_cost, parts};
pub use digit_run::{has_digits_alone, is_digits, push_digits};
pub use laws::spelling;
pub use limits::MAX_TEXT_BYTES;
pub use line::{LineWords, is_spaced};
pub use number_word::{is_number, is_plain_number, number, push_count, push_number, rises};
pub use scan::Words;
pub use word::Word;

#[cfg(test)]
mod tests;
