// The lines of an input, which is read once: the next piece is what it gives next.
ghost use Rattle.std.specs.Prelude.{◌≡◌, ◌+◌, ◌-◌, ◌^◌, ◌<◌, ◌≤◌, [], ◌∷◌, ◌++◌, length, IfSome, OnOk, OnErr, IsErrOf};
ghost use Rattle.shelf_port.specs.Files.{Rose};
ghost use Rattle.shelf_port.specs.Streams.{with_front};
ghost use Rattle.shelf_lines.specs.Rest.{unread};
ghost use Rattle.shelf_lines.specs.Line.{IsLine};
ghost use Rattle.shelf_lines.specs.Input.{HasLongLine, PassesLimit, IsCutShort};

use crate::fault::LineFault;
use crate::reader::{Ahead, LineReader, PIECE};
use shelf_port::Source;
use std::alloc::Global;
use std::marker::Model;

/// What stands in the line of a reader of an input once the next one was asked for.
#[derive(Clone, Copy, Debug, PartialEq, Eq)]
pub enum NextInput {
    /// A line that a line feed ended.
    Line,
    /// What was left up to the end of the input, in which there was no line feed.
    End,
    /// The front of a line that is longer than lines may be.
    LineTooLong,
    /// What was left of the input up to the first byte past its limit, where no line was too long.
    InputTooLong,
}

/// A reader of the lines of an input, with a limit a line and a limit in all.
///
/// It holds one piece of the input and one line. Each call is to be given the same source. It looks at
/// one byte more than the limit in all: so an input that passes it differs from one that ends there.
#[derive(Drop)]
pub struct InputLines {
    lines: LineReader,
    most: usize,
}

impl Model for InputLines {
    ghost use Rattle.shelf_lines.specs.Input.{InputState};

    ghost Value = { InputState };

    ghost view = { λ r. record { lines = r.lines; most = r.most } };
}

impl InputLines {
    /// A reader at the front of an input, whose lines may have `most` bytes each, their line feeds not
    /// counted, and which may have `limit` bytes in all.
    pub fn new(alloc: Global, most: usize, limit: u64) -> Self
        requires { limit < 2 ^ 64 - 1 }
        ensures most { result.most ≡ most }
        ensures ahead { result.lines.ahead ≡ [] }
        ensures unread { unread result.lines ≡ limit + 1 }
    {
        InputLines {
            lines: LineReader::new(alloc, limit + 1),
            most,
        }
    }

    /// The next line: its bytes stand in `line` afterwards, without the line feed that ended it. Where
    /// no line feed is left, what is left stands there. After a fault the bytes that were taken so far
    /// stand there, and the reader goes on behind them; behind a read that failed no byte waits.
    ///
    /// Where one byte passes both limits, it is the line that is too long. `Failed` comes where a read
    /// failed, and `NoMemory` where the line or the source had none.
    pub fn next<S: Source>(&mut self, source: &mut S) -> Result<NextInput, LineFault>
        ensures line { result ≡ Ok NextInput.Line →
            with_front self.old.lines.ahead (S.left source.old)
            ≡ with_front (self.new.lines.line ++ 10 ∷ self.new.lines.ahead) (S.left source.new) }
        ensures within { result ≡ Ok NextInput.Line → (0 < unread self.new.lines)
            × (unread self.old.lines ≡ length self.new.lines.line + 1 + unread self.new.lines) }
        ensures end { result ≡ Ok NextInput.End →
            IfSome (with_front self.old.lines.ahead (S.left source.old)) (λ rest. rest ≡ self.new.lines.line) }
        ensures all { result ≡ Ok NextInput.End → length self.new.lines.line < unread self.old.lines }
        ensures line_too_long { result ≡ Ok NextInput.LineTooLong →
            IfSome (with_front self.old.lines.ahead (S.left source.old)) (HasLongLine self.old.most) }
        ensures first { result ≡ Ok NextInput.LineTooLong → self.old.most < unread self.old.lines }
        ensures input_too_long { result ≡ Ok NextInput.InputTooLong →
            PassesLimit self.old.lines self.new.lines (S.left source.old) (S.left source.new) }
        ensures is_line { IsLine self.new.lines.line }
        ensures short { length self.new.lines.line ≤ self.old.most }
        ensures err { OnErr result (with_front self.old.lines.ahead (S.left source.old)
            ≡ with_front (self.new.lines.line ++ self.new.lines.ahead) (S.left source.new)) }
        ensures failed { IsErrOf result LineFault.Failed →
            Rose (S.faults source.old) (S.faults source.new) }
        ensures cut { IsErrOf result LineFault.Failed →
            IsCutShort self.old.lines self.new.lines }

        ensures same_most { self.new.most ≡ self.old.most }
        ensures counts { S.faults source.old ≤ S.faults source.new }
    {
        self.lines.next_of(source, self.most)
    }

    /// The line that was handed out last: its bytes, without the line feed.
    pub fn line(&self) -> &[u8]
        ensures { result.now ≡ self.now.lines.line }
    {
        self.lines.line()
    }
}

impl LineReader {
    // The next line of an input, of at most so many bytes.
    fn next_of<S: Source>(&mut self, source: &mut S, most: usize) -> Result<NextInput, LineFault>
        ensures line { result ≡ Ok NextInput.Line → with_front self.old.ahead (S.left source.old)
            ≡ with_front (self.new.line ++ 10 ∷ self.new.ahead) (S.left source.new) }
        ensures within { result ≡ Ok NextInput.Line → (0 < unread self.new)
            × (unread self.old ≡ length self.new.line + 1 + unread self.new) }
        ensures end { result ≡ Ok NextInput.End →
            IfSome (with_front self.old.ahead (S.left source.old)) (λ rest. rest ≡ self.new.line) }
        ensures all { result ≡ Ok NextInput.End → length self.new.line < unread self.old }
        ensures line_too_long { result ≡ Ok NextInput.LineTooLong →
            IfSome (with_front self.old.ahead (S.left source.old)) (HasLongLine most) }
        ensures first { result ≡ Ok NextInput.LineTooLong → most < unread self.old }
        ensures input_too_long { result ≡ Ok NextInput.InputTooLong →
            PassesLimit self.old self.new (S.left source.old) (S.left source.new) }
        ensures is_line { IsLine self.new.line }
        ensures short { length self.new.line ≤ most }
        ensures err { OnErr result (with_front self.old.ahead (S.left source.old)
            ≡ with_front (self.new.line ++ self.new.ahead) (S.left source.new)) }
        ensures failed { IsErrOf result LineFault.Failed →
            Rose (S.faults source.old) (S.faults source.new) }
        ensures cut { IsErrOf result LineFault.Failed → IsCutShort self.old self.new }

        ensures counts { S.faults source.old ≤ S.faults source.new }
    {
        self.clear_line();
        loop {
            match self.peek_of(source)? {
                Ahead::Bytes => {
                    if self.passes(most) {
                        return Ok(NextInput::LineTooLong);
                    }
                    if self.take_to_feed()? {
                        // The line feed may be the byte past the limit in all.
                        if self.is_spent() {
                            return Ok(NextInput::InputTooLong);
                        }
                        return Ok(NextInput::Line);
                    }
                }
                Ahead::End => return Ok(NextInput::End),
                Ahead::Limit => return Ok(NextInput::InputTooLong),
            }
        }
    }

    // What is ahead: a byte, the end of the input, or the last byte that is looked at.
    fn peek_of<S: Source>(&mut self, source: &mut S) -> Result<Ahead, LineFault>
        ensures bytes { result ≡ Ok Ahead.Bytes → 0 < length self.new.ahead }
        ensures end { result ≡ Ok Ahead.End → (self.new.ahead ≡ []) × (0 < unread self.new)
            × IfSome (S.left source.new) (λ rest. rest ≡ []) }
        ensures limit { result ≡ Ok Ahead.Limit → (self.new.ahead ≡ []) × (unread self.new ≡ 0) }
        ensures err { OnErr result ((self.new.ahead ≡ []) × (0 < unread self.new)) }
        ensures failed { IsErrOf result LineFault.Failed →
            Rose (S.faults source.old) (S.faults source.new) }

        ensures rest { with_front self.new.ahead (S.left source.new)
            ≡ with_front self.old.ahead (S.left source.old) }
        ensures unread { unread self.new ≡ unread self.old }
        ensures same_line { self.new.line ≡ self.old.line }

        ensures counts { S.faults source.old ≤ S.faults source.new }
    {
        if self.from < self.to {
            return Ok(Ahead::Bytes);
        }
        if self.at == self.limit {
            return Ok(Ahead::Limit);
        }
        let room = (self.limit - self.at).min(PIECE as u64) as usize;
        let count = source.read(&mut self.piece[..room])?;
        self.from = 0;
        self.to = count;
        self.at += count as u64;
        Ok(if count == 0 { Ahead::End } else { Ahead::Bytes })
    }
}
