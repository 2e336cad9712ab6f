// The reader.
ghost use Rattle.std.specs.Prelude.{◌≡◌, ◌≤◌, ℕ, List, [], Option, IfOk, IsErrOf};
ghost use Rattle.location_terms.specs.Instance.{Instance as Meaning};
ghost use Rattle.shelf_port.specs.Files.{Files, Rose, NeverFalls};
ghost use Rattle.certificate_lines.specs.Due.{Suits};
ghost use Rattle.certificate_lines.specs.Model.{due_of};
ghost use Rattle.certificate_reader.specs.Behind.{IsBehind, IsReady, IsSoundLine, IsTaken, Steps, claim_due, unread_fault};

use certificate_lines::{
    CertFault, CertKind, Due, LineFault as Refusal, MAX_CERTIFICATE_BYTES, Shown,
};
use instance_store::Instance;
use location_terms::Claim;
use shelf_lines::{Ahead, LineFault, LineReader, Next};
use shelf_port::Shelf;
use std::alloc::Global;
use std::mem;

/// What a reader of a certificate comes to next.
#[derive(Debug, Drop)]
pub enum Seen {
    /// The line of this number, counted from 1, which shows this.
    Line(u64, Shown),
    /// The end of the text of a certificate with this claim.
    Whole(Claim),
}

/// A reader of a certificate's text, of which it looks at the first bytes, up to a limit.
///
/// It holds one piece of the file, one line, and of a leaf the numbers that were read so far. Each call
/// is to be given the same instance, shelf and name.
#[derive(Drop)]
pub struct CertReader {
    lines: LineReader,
    due: Due,
    line: u64,
}

impl CertReader {
    /// A reader at the front of a file, of which it is to look at `limit` bytes at most.
    pub fn new(alloc: Global, limit: u64) -> CertReader
        requires within { limit ≤ MAX_CERTIFICATE_BYTES }
        ensures { (told : Option Files) (name : List ℕ) (I : Meaning) → IsBehind told name limit I [] result }
    {
        let lines = LineReader::new(alloc, limit);
        CertReader {
            lines,
            due: Due::Header,
            line: 1,
        }
    }

    /// What the next line shows, or that the text is whole.
    ///
    /// `Text` has the first fault of the text; `TooLong` comes where there is none within the limit and
    /// the file is longer; `ReadFailed` where a read failed, as on a name without a file; `NoMemory`
    /// where memory ran out. After a fault, and behind a whole text, the reader is of no more use.
    pub fn next<H: Shelf>(
        &mut self,
        alloc: Global,
        inst: &Instance,
        shelf: &mut H,
        name: &str,
    ) -> Result<Seen, CertFault>
        requires ready { IsReady inst.now self.old }
        ensures step { Steps (H.files shelf.old) name.now inst.now self.old self.new result }
        ensures sound { IfOk result (IsSoundLine inst.now self.old self.new) }
        ensures failed { IsErrOf result CertFault.ReadFailed →
            Rose (H.read_faults shelf.old name.now) (H.read_faults shelf.new name.now) }

        ensures unchanged { H.files shelf.new ≡ H.files shelf.old }
        ensures reads { NeverFalls (H.read_faults shelf.old) (H.read_faults shelf.new) }
        ensures writes { NeverFalls (H.write_faults shelf.old) (H.write_faults shelf.new) }
    {
        if let Some(claim) = self.claim() {
            return match self.lines.peek(shelf, name) {
                Ok(Ahead::Bytes) => Err(self.fault(CertKind::Trailing)),
                Ok(Ahead::End) => Ok(Seen::Whole(claim)),
                Ok(Ahead::Limit) => Err(CertFault::TooLong),
                Err(fault) => Err(unread(fault)),
            };
        }
        match self.lines.next(shelf, name) {
            Ok(Next::Line) => self.take(alloc, inst),
            Ok(Next::End) => Err(self.fault(CertKind::Ended)),
            Ok(Next::Limit) => Err(CertFault::TooLong),
            Err(fault) => Err(unread(fault)),
        }
    }

    // Reads the line that was handed out.
    fn take(&mut self, alloc: Global, inst: &Instance) -> Result<Seen, CertFault>
        requires suits { Suits inst.now (due_of self.old.due) }
        requires few { self.old.line ≤ MAX_CERTIFICATE_BYTES }
        ensures { IsTaken inst.now self.old self.new result }
    {
        let line = self.line;
        match mem::replace(&mut self.due, Due::Header).read(alloc, inst, self.lines.line()) {
            Ok((due, shown)) => {
                self.due = due;
                self.line += 1;
                Ok(Seen::Line(line, shown))
            }
            Err(Refusal::Line(kind)) => Err(CertFault::Text { kind, line }),
            Err(Refusal::NoMemory) => Err(CertFault::NoMemory),
        }
    }

    // The claim, once no line is due.
    fn claim(&self) -> Option<Claim>
        ensures { result ≡ claim_due (due_of self.now.due) }
    {
        match self.due {
            Due::Nothing(claim) => Some(claim),
            _ => None,
        }
    }

    // A fault of the text in the line that is due.
    fn fault(&self, kind: CertKind) -> CertFault
        ensures { result ≡ CertFault.Text kind self.now.line }
    {
        CertFault::Text {
            kind,
            line: self.line,
        }
    }
}

// Why a certificate is not read where a line of its file is not.
fn unread(fault: LineFault) -> CertFault
    ensures { result ≡ unread_fault fault }
{
    match fault {
        LineFault::Failed => CertFault::ReadFailed,
        LineFault::NoMemory => CertFault::NoMemory,
    }
}
