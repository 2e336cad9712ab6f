//! Amounts, the reader of a text's words, and the places of faults in it; amounts and claims as text.
//!
//! The readers of instance files stand on these: which amount a word spells, which word is next, and
//! which fault is told of it.
#![tactic(auto)]

mod amount;
mod fault;
mod limits;
mod print;
mod reader;

pub use amount::{Amount, AmountFault, read_count};
pub use fault::{FileFault, FileKind, FormFault};
pub use limits::MAX_INSTANCE_BYTES;
pub use location_terms::MAX_AMOUNT;
pub use number_words::{Word, Words};
pub use print::{push_claim, push_high, push_micro};
pub use reader::{WordReader, amount_in};

#[cfg(test)]
mod tests;
