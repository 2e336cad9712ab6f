// The lines of a file on a shelf: the next piece is what is read behind the last one.
ghost use Rattle.std.specs.Prelude.{◌≡◌, ℕ, ◌+◌, ◌<◌, ◌↔◌, List, [], ◌∷◌, ◌++◌, length, IfOk, OnOk, OnErr, IsErrOf, IsTrue, ⊤};
ghost use Rattle.shelf_port.specs.Files.{HasFile, Rose, NeverFalls};
ghost use Rattle.shelf_lines.specs.Rest.{ForFile, rest_of, unread, IsAtEnd, IsAtLimit};
ghost use Rattle.shelf_lines.specs.Line.{IsLine};

use crate::fault::LineFault;
use crate::reader::{Ahead, LineReader, Next, PIECE};
use shelf_port::{Shelf, ShelfFault};

impl LineReader {
    /// What is ahead: a byte, the end of the file, or the limit. It hands out nothing, and after a
    /// fault the reader is as it was.
    ///
    /// `Failed` comes where a read failed, as on a name without a file, and `NoMemory` where the shelf
    /// had none.
    pub fn peek<H: Shelf>(&mut self, shelf: &mut H, name: &str) -> Result<Ahead, LineFault>
        ensures bytes { result ≡ Ok Ahead.Bytes → 0 < length self.new.ahead }
        ensures end { result ≡ Ok Ahead.End →
            HasFile (H.files shelf.old) name.now (IsAtEnd self.new) }
        ensures limit { result ≡ Ok Ahead.Limit →
            HasFile (H.files shelf.old) name.now (IsAtLimit self.new) }

        // Where nothing is ahead, a look finds out whether the file is there.
        ensures there { OnOk result (self.old.ahead ≡ [] →
            HasFile (H.files shelf.old) name.now (λ _. ⊤)) }
        ensures failed { IsErrOf result LineFault.Failed →
            Rose (H.read_faults shelf.old name.now) (H.read_faults shelf.new name.now) }

        // Nothing is handed out, whatever the answer.
        ensures rest { ForFile (H.files shelf.old) name.now
            (λ file. rest_of self.new file ≡ rest_of self.old file) }
        ensures unread { unread self.new ≡ unread self.old }
        ensures same_line { self.new.line ≡ self.old.line }
        ensures same_limit { self.new.limit ≡ self.old.limit }

        ensures unchanged { H.files shelf.new ≡ H.files shelf.old }
        ensures reads { NeverFalls (H.read_faults shelf.old) (H.read_faults shelf.new) }
        ensures writes { NeverFalls (H.write_faults shelf.old) (H.write_faults shelf.new) }
    {
        if self.from < self.to {
            return Ok(Ahead::Bytes);
        }
        if self.at == self.limit {
            let is_longer = has_byte_at(shelf, name, self.at)?;
            return Ok(if is_longer { Ahead::Limit } else { Ahead::End });
        }
        let room = (self.limit - self.at).min(PIECE as u64) as usize;
        let count = shelf.read_at(name, self.at, &mut self.piece[..room])?;
        self.from = 0;
        self.to = count;
        self.at += count as u64;
        Ok(if count == 0 { Ahead::End } else { Ahead::Bytes })
    }

    /// The next line: its bytes stand in `line` afterwards, without the line feed that ended it. Where
    /// no line feed is left, what is left stands there. After a fault the bytes that were taken so far
    /// stand there, and the reader goes on behind them.
    ///
    /// `Failed` comes where a read failed, as on a name without a file, and `NoMemory` where the line
    /// or the shelf had none.
    pub fn next<H: Shelf>(&mut self, shelf: &mut H, name: &str) -> Result<Next, LineFault>
        ensures line { result ≡ Ok Next.Line → ForFile (H.files shelf.old) name.now
            (λ file. rest_of self.old file ≡ self.new.line ++ 10 ∷ rest_of self.new file) }
        ensures end { result ≡ Ok Next.End → HasFile (H.files shelf.old) name.now
            (λ file. (rest_of self.old file ≡ self.new.line) × IsAtEnd self.new file) }
        ensures limit { result ≡ Ok Next.Limit → HasFile (H.files shelf.old) name.now
            (λ file. (rest_of self.old file ≡ self.new.line) × IsAtLimit self.new file) }
        ensures is_line { OnOk result (IsLine self.new.line) }
        ensures there { OnOk result (self.old.ahead ≡ [] →
            HasFile (H.files shelf.old) name.now (λ _. ⊤)) }
        ensures err { OnErr result (ForFile (H.files shelf.old) name.now
            (λ file. rest_of self.old file ≡ self.new.line ++ rest_of self.new file)) }
        ensures failed { IsErrOf result LineFault.Failed →
            Rose (H.read_faults shelf.old name.now) (H.read_faults shelf.new name.now) }

        ensures unread { result ≡ Ok Next.Line →
            unread self.old ≡ length self.new.line + 1 + unread self.new }
        ensures same_limit { self.new.limit ≡ self.old.limit }

        ensures unchanged { H.files shelf.new ≡ H.files shelf.old }
        ensures reads { NeverFalls (H.read_faults shelf.old) (H.read_faults shelf.new) }
        ensures writes { NeverFalls (H.write_faults shelf.old) (H.write_faults shelf.new) }
    {
        self.clear_line();
        loop {
            match self.peek(shelf, name)? {
                Ahead::Bytes => {
                    if self.take_to_feed()? {
                        return Ok(Next::Line);
                    }
                }
                Ahead::End => return Ok(Next::End),
                Ahead::Limit => return Ok(Next::Limit),
            }
        }
    }
}

// Whether the named file has a byte at this place, counted from 0.
fn has_byte_at<H: Shelf>(shelf: &mut H, name: &str, at: u64) -> Result<bool, ShelfFault>
    ensures ok { IfOk result (λ is_there. HasFile (H.files shelf.old) name.now
        (λ file. IsTrue is_there ↔ (at < length file))) }
    ensures failed { IsErrOf result ShelfFault.Failed →
        Rose (H.read_faults shelf.old name.now) (H.read_faults shelf.new name.now) }

    ensures unchanged { H.files shelf.new ≡ H.files shelf.old }
    ensures reads { NeverFalls (H.read_faults shelf.old) (H.read_faults shelf.new) }
    ensures writes { NeverFalls (H.write_faults shelf.old) (H.write_faults shelf.new) }
{
    let mut byte = [0; 1];
    Ok(shelf.read_at(name, at, &mut byte)? > 0)
}
