//! The words of a text, one after another.

ghost use Rattle.std.specs.Prelude.{◌≡◌, ◌-◌, ◌<◌, ◌≤◌, false, length, drop, slice_index};
ghost use Rattle.std.specs.Iterator.{YieldsFirstBy, item_count};
ghost use Rattle.number_words.specs.Line.{is_blank};
ghost use Rattle.number_words.specs.Words.{placed, words_of};
ghost use Rattle.number_words.specs.Scan.{words_left, HasRoom};

use crate::limits::MAX_TEXT_BYTES;
use crate::line::{is_blank, run_len};
use crate::word::Word;
use std::marker::Model;

/// An iterator over the words of a text, seen as the list of those that are left.
#[derive(Debug, Drop)]
pub struct Words<'a> {
    rest: &'a [u8],
    line: u32,
    place: u32,
}

impl<'a> Model for Words<'a> {
    ghost use Rattle.std.specs.Prelude.{List, length};
    ghost use Rattle.number_words.specs.Words.{PlacedWord};

    ghost Value = { List PlacedWord };

    ghost use Rattle.number_words.specs.Scan.{words_behind, HasRoom};

    ghost view = { words_behind };

    ghost invariant = { λ s. HasRoom s.line s.place (length s.rest.now) };
}

impl<'a> Words<'a> {
    /// The words of a text of at most `MAX_TEXT_BYTES`.
    pub fn new(bytes: &'a [u8]) -> Words<'a>
        requires { length bytes.now ≤ MAX_TEXT_BYTES }
        ensures { result ≡ words_of bytes.now }
    {
        Words {
            rest: bytes,
            line: 1,
            place: 1,
        }
    }

    /// Another iterator over the words that are left.
    pub fn fork(&self) -> Words<'a>
        ensures { result ≡ self.now }
    {
        Words {
            rest: self.rest,
            line: self.line,
            place: self.place,
        }
    }
}

impl<'a> Iterator for Words<'a> {
    type Item = Word<'a>;

    ghost next_gives = { YieldsFirstBy placed (λ words. words) };

    ghost remaining = { item_count (λ words. words) };

    fn next(&mut self) -> Option<Word<'a>> {
        let gap = gap_before_word(self.rest, self.line, self.place);
        let from = &self.rest[gap.len..];
        let (text, rest) = from.split_at(run_len(from));
        self.rest = rest;
        self.line = gap.line;
        self.place = gap.place;
        if text.is_empty() {
            return None;
        }
        self.place += 1;
        Some(Word {
            text,
            line: gap.line,
            place: gap.place,
        })
    }
}

/// The blanks before a word, and the line and the place behind them.
#[derive(Clone, Copy)]
struct Gap {
    len: usize,
    line: u32,
    place: u32,
}

/// How long the blanks at the front are, and where the word behind them stands.
fn gap_before_word(bytes: &[u8], line: u32, place: u32) -> Gap
    requires { HasRoom line place (length bytes.now) }
    ensures len { result.len ≤ length bytes.now }
    ensures room { HasRoom result.line result.place (length bytes.now - result.len) }
    ensures same { words_left result.line result.place (drop result.len bytes.now) ≡ words_left line place bytes.now }
    ensures stops { result.len < length bytes.now → is_blank (slice_index bytes.now result.len) ≡ false }
{
    let mut gap = Gap {
        len: 0,
        line,
        place,
    };
    while gap.len < bytes.len() && is_blank(bytes[gap.len]) {
        if bytes[gap.len] == b'\n' {
            gap.line += 1;
            gap.place = 1;
        }
        gap.len += 1;
    }
    gap
}
