// The machine that makes lines of pieces: it holds one piece and one line. How the next piece comes
// stands in `file.rt` and in `input.rt`.
ghost use Rattle.std.specs.Prelude.{◌≡◌, ℕ, ◌+◌, ◌<◌, ◌↔◌, List, [], length, take, IfOk, OnOk, OnErr, IsTrue};
ghost use Rattle.std.specs.List.{position, position_or_len};
ghost use Rattle.shelf_lines.specs.Rest.{start_of, rest_of, unread, Takes};
ghost use Rattle.shelf_lines.specs.Line.{is_line_feed};

use std::alloc::{AllocError, Global};
use std::marker::Model;

/// How many bytes one read asks for at most.
pub(crate) const PIECE: usize = 65_536;

const LINE_FEED: u8 = 10;

/// What a reader has ahead of it.
#[derive(Clone, Copy, Debug, PartialEq, Eq)]
pub enum Ahead {
    /// At least one byte.
    Bytes,
    /// The end of the file.
    End,
    /// The limit: all bytes within it were handed out, and the file is longer.
    Limit,
}

/// What stands in the line of a reader once the next one was asked for.
#[derive(Clone, Copy, Debug, PartialEq, Eq)]
pub enum Next {
    /// A line that a line feed ended.
    Line,
    /// What was left up to the end of the file, in which there was no line feed.
    End,
    /// What was left up to the limit, in which there was no line feed. The file is longer.
    Limit,
}

/// A reader of the lines of a file, of which it looks at the first bytes, up to a limit.
///
/// It holds one piece of the file and one line. Each call is to be given the same shelf and name.
/// The lines of an input are those of `InputLines`.
#[derive(Drop)]
pub struct LineReader {
    pub(crate) limit: u64,
    pub(crate) at: u64,
    pub(crate) piece: [u8; PIECE],
    pub(crate) from: usize,
    pub(crate) to: usize,
    line: Vec<u8>,
}

impl Model for LineReader {
    ghost use Rattle.std.specs.Prelude.{◌≤◌, take, drop};
    ghost use Rattle.shelf_lines.specs.Rest.{LineState};

    ghost Value = { LineState };

    ghost view = { λ r. record {
      limit = r.limit;
      at = r.at;
      ahead = drop r.from (take r.to r.piece);
      line = r.line.items;
    } };

    ghost invariant = { λ r. (r.from ≤ r.to) × (r.to ≤ 65536) × (r.at ≤ r.limit) };
}

impl LineReader {
    /// A reader at the front of a file, of which it is to look at `limit` bytes at most.
    pub fn new(alloc: Global, limit: u64) -> Self
        ensures start { result ≡ start_of limit }
        ensures rest { (file : List ℕ) → rest_of result file ≡ take limit file }
    {
        LineReader {
            limit,
            at: 0,
            piece: [0; PIECE],
            from: 0,
            to: 0,
            line: Vec::new(alloc),
        }
    }

    // Lets the last line go.
    pub(crate) fn clear_line(&mut self)
        ensures { self.new ≡ record self.old { line = [] } }
    {
        self.line.clear();
    }

    // Hands out the bytes ahead up to the first line feed, and passes over it. Says whether it is there.
    pub(crate) fn take_to_feed(&mut self) -> Result<bool, AllocError>
        ensures took { OnOk result (Takes self.old self.new) }
        ensures err { OnErr result (self.new ≡ self.old) }
        ensures found { IfOk result (λ found. IsTrue found ↔
            (position_or_len is_line_feed self.old.ahead < length self.old.ahead)) }
    {
        let LineReader {
            ref piece,
            ref mut line,
            from,
            to,
            ..
        } = *self;
        let ahead = &piece[from..to];
        match first_feed(ahead) {
            Some(place) => {
                line.extend_from_slice(&ahead[..place])?;
                self.from = from + place + 1;
                Ok(true)
            }
            None => {
                line.extend_from_slice(ahead)?;
                self.from = to;
                Ok(false)
            }
        }
    }

    // The bytes that were fetched and not handed out yet.
    pub(crate) fn ahead(&self) -> &[u8]
        ensures { result.now ≡ self.now.ahead }
    {
        &self.piece[self.from..self.to]
    }

    // Whether every byte that the reader looks at was handed out.
    pub(crate) fn is_spent(&self) -> bool
        ensures { IsTrue result ↔ (unread self.now ≡ 0) }
    {
        if self.at < self.limit {
            return false;
        }
        self.ahead().is_empty()
    }

    // Whether the line has more than so many bytes with those ahead of it up to the first line feed.
    pub(crate) fn passes(&self, most: usize) -> bool
        ensures { IsTrue result ↔
            (most < length self.now.line + position_or_len is_line_feed self.now.ahead) }
    {
        let more = bytes_to_feed(self.ahead());
        self.line.len() > most || more > most - self.line.len()
    }

    /// The line that was handed out last: its bytes, without the line feed.
    pub fn line(&self) -> &[u8]
        ensures { result.now ≡ self.now.line }
    {
        &self.line
    }
}

// The place of the first line feed, if there is one.
fn first_feed(bytes: &[u8]) -> Option<usize>
    ensures { result ≡ position is_line_feed bytes.now }
{
    bytes.iter().position(|b| *b == LINE_FEED)
}

// How many bytes stand before the first line feed, or how many there are.
fn bytes_to_feed(bytes: &[u8]) -> usize
    ensures { result ≡ position_or_len is_line_feed bytes.now }
{
    first_feed(bytes).unwrap_or(bytes.len())
}
