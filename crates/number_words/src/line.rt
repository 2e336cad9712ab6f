//! The words of a line, one after another, and the line's plain form.

ghost use Rattle.std.specs.Prelude.{◌≡◌, ◌≤◌, ◌<◌, false, length, drop, slice_index};
ghost use Rattle.std.specs.List.{position_or_len};
ghost use Rattle.std.specs.Iterator.{YieldsFirstBy, item_count};
ghost use Rattle.number_words.specs.Line.{is_blank, words_of_line, is_spaced};

use std::marker::Model;

/// An iterator over the words of a line, seen as the list of those that are left. A word is a longest
/// run of bytes that are no space, tab, carriage return or line feed.
#[derive(Debug, Drop)]
pub struct LineWords<'a> {
    rest: &'a [u8],
}

impl<'a> Model for LineWords<'a> {
    ghost use Rattle.std.specs.Prelude.{List, ℕ};
    ghost use Rattle.number_words.specs.Line.{words_of_line};

    ghost Value = { List (List ℕ) };

    ghost view = { λ s. words_of_line s.rest.now };
}

impl<'a> LineWords<'a> {
    /// The words of a line.
    pub fn new(line: &'a [u8]) -> LineWords<'a>
        ensures { result ≡ words_of_line line.now }
    {
        LineWords { rest: line }
    }
}

impl<'a> Iterator for LineWords<'a> {
    type Item = &'a [u8];

    ghost next_gives = { YieldsFirstBy (λ word. word.now) (λ words. words) };

    ghost remaining = { item_count (λ words. words) };

    fn next(&mut self) -> Option<&'a [u8]> {
        let from = &self.rest[gap_len(self.rest)..];
        let (word, rest) = from.split_at(run_len(from));
        self.rest = rest;
        if word.is_empty() {
            return None;
        }
        Some(word)
    }
}

/// Whether a line is its words parted by single spaces, and nothing else: such a line is known by its
/// words. The empty line is.
pub fn is_spaced(line: &[u8]) -> bool
    ensures { result ≡ is_spaced line.now }
{
    let mut in_word = false;
    for b in line {
        if !is_blank(*b) {
            in_word = true;
        } else if in_word && *b == b' ' {
            in_word = false;
        } else {
            return false;
        }
    }
    in_word || line.is_empty()
}

/// Whether a byte is part of no word.
pub(crate) fn is_blank(b: u8) -> bool
    ensures { result ≡ is_blank b }
{
    b == b' ' || b == b'\t' || b == b'\r' || b == b'\n'
}

/// How many blanks stand at the front.
fn gap_len(bytes: &[u8]) -> usize
    ensures within { result ≤ length bytes.now }
    ensures same { words_of_line (drop result bytes.now) ≡ words_of_line bytes.now }
    ensures stops { result < length bytes.now → is_blank (slice_index bytes.now result) ≡ false }
{
    let mut len = 0;
    while len < bytes.len() && is_blank(bytes[len]) {
        len += 1;
    }
    len
}

/// How many bytes stand before the first blank.
pub(crate) fn run_len(bytes: &[u8]) -> usize
    ensures { result ≡ position_or_len is_blank bytes.now }
{
    bytes
        .iter()
        .position(|b| is_blank(*b))
        .unwrap_or(bytes.len())
}
