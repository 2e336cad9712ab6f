//! Reading the words of a text in order.

ghost use Rattle.std.specs.Prelude.{◌≡◌, ◌==◌, ◌≤◌, length, option_map, slice_get, IfOk};
ghost use Rattle.fixed_cost.specs.Amount.{amount_of};
ghost use Rattle.number_words.specs.Words.{placed, words_of};
ghost use Rattle.fixed_cost.specs.Reading.{all_of, word_at, in_word, amount_at, size_at, size_in, is_within, finished, behind, untitled, Reads};

use crate::amount::Amount;
use crate::fault::{FileFault, FileKind};
use crate::limits::MAX_INSTANCE_BYTES;
use number_words::{Word, Words};
use std::marker::Model;

/// Reads the words of a text in order. It is seen as the words that are left and the place of the
/// text's end. Each call answers the first fault; behind a fault nothing is said of what is left.
#[derive(Debug, Drop)]
pub struct WordReader<'a> {
    words: Words<'a>,
    /// The place behind the last word that was read.
    line: u32,
    place: u32,
}

impl<'a> Model for WordReader<'a> {
    ghost use Rattle.fixed_cost.specs.Reading.{Rest, end_after};

    ghost Value = { Rest };

    ghost view = { λ r. record { left = r.words; end = end_after (r.line, r.place) r.words } };
}

impl<'a> WordReader<'a> {
    /// A reader of a text of at most `MAX_INSTANCE_BYTES`.
    #[tactic(auto, using(crate::proofs::Ends::end_after_first))]
    pub fn new(bytes: &'a [u8]) -> WordReader<'a>
        requires { length bytes.now ≤ MAX_INSTANCE_BYTES }
        ensures { result ≡ all_of (words_of bytes.now) }
    {
        WordReader {
            words: Words::new(bytes),
            line: 1,
            place: 1,
        }
    }

    /// The next word.
    #[tactic(auto, unfolding(crate::specs::Reading::word_at))]
    pub fn word(&mut self) -> Result<Word<'a>, FileFault>
        ensures { Reads placed result self.new (word_at self.old) }
    {
        match self.words.next() {
            Some(word) => {
                self.line = word.line;
                self.place = word.place + 1;
                Ok(word)
            }
            None => Err(FileFault {
                kind: FileKind::Ended,
                line: self.line,
                word: self.place,
            }),
        }
    }

    /// The next word as an amount.
    #[tactic(auto, unfolding(crate::specs::Reading::amount_at))]
    pub fn amount(&mut self) -> Result<Amount, FileFault>
        ensures { Reads (λ amount. amount) result self.new (amount_at self.old) }
    {
        let word = self.word()?;
        amount_in(word)
    }

    /// The next word as a size, a whole number of units from `low` to `high`. The fault of the word as
    /// an amount comes first, then `kind`.
    #[tactic(auto, unfolding(crate::specs::Reading::size_at))]
    pub fn size(&mut self, kind: FileKind, low: u32, high: u32) -> Result<u32, FileFault>
        ensures read { Reads (λ size. size) result self.new (size_at kind (is_within low high) self.old) }
        ensures low { IfOk result (λ size. low ≤ size) }
        ensures high { IfOk result (λ size. size ≤ high) }
    {
        let word = self.word()?;
        let amount = amount_in(word)?;
        size_in(kind, low, high, word, amount)
    }

    /// The next word as a size that is this number, or a fault as `size` has it.
    pub fn exactly(&mut self, kind: FileKind, number: u32) -> Result<(), FileFault>
        ensures { Reads (λ _. number) result self.new (size_at kind (λ n. n == number) self.old) }
    {
        self.size(kind, number, number)?;
        Ok(())
    }

    /// Passes over the line of the next word, where that word begins so.
    #[tactic(auto, unfolding(crate::specs::Reading::untitled, crate::specs::Reading::behind))]
    pub fn skip_titled(&mut self, start: &[u8])
        ensures { self.new ≡ untitled start.now self.old }
    {
        if let Some(word) = self.words.fork().next() {
            if word.text.starts_with(start) {
                self.skip_line(word.line);
            }
        }
    }

    /// Passes over the words of a line that are next.
    #[tactic(auto, unfolding(crate::specs::Reading::behind))]
    fn skip_line(&mut self, line: u32)
        ensures { self.new ≡ behind line self.old }
    {
        while let Some(next) = self.words.fork().next() {
            if next.line != line {
                break;
            }
            let _ = self.words.next();
            self.line = next.line;
            self.place = next.place + 1;
        }
    }

    /// Wants that no word is left.
    #[tactic(auto, unfolding(crate::specs::Reading::finished))]
    pub fn finish(mut self) -> Result<(), FileFault>
        ensures { result ≡ finished tt self.entry }
    {
        match self.words.next() {
            None => Ok(()),
            Some(word) => Err(FileFault::at(FileKind::Trailing, word)),
        }
    }
}

/// The amount that a word spells, or its fault at the place of the word.
pub fn amount_in(word: Word<'_>) -> Result<Amount, FileFault>
    ensures { result ≡ in_word (placed word.entry) (amount_of word.entry.text.now) }
{
    match Amount::read(word.text) {
        Ok(amount) => Ok(amount),
        Err(fault) => Err(FileFault::at(fault.into(), word)),
    }
}

/// An amount as a size from `low` to `high`, or the fault of this kind at the place of the word.
fn size_in(
    kind: FileKind,
    low: u32,
    high: u32,
    word: Word<'_>,
    amount: Amount,
) -> Result<u32, FileFault>
    ensures { result ≡ size_in kind (is_within low high) (placed word.entry) amount }
{
    match amount.units() {
        Some(units) if u64::from(low) <= units && units <= u64::from(high) => Ok(units as u32),
        _ => Err(FileFault::at(kind, word)),
    }
}
