//! What runs must come to.
ghost use Rattle.std.specs.Prelude.{◌<◌};

use crate::calls::{Calls, calls_for, reads_for};
use crate::outcome::is_made_of;
use crate::run::ran;
use dualoc_cli::Status;
use std::alloc::{AllocError, Global};

/// What words, with one space between two, must come to over these files, by name and text, and over this input: how the
/// run ends, the texts that it prints, each by writes of its own, and what stands in files then.
#[derive(Clone, Copy)]
pub struct Row<'a> {
    pub words: &'a str,
    pub files: &'a [(&'a str, &'a str)],
    pub input: &'a str,
    pub status: Status,
    pub texts: &'a [&'a str],
    pub left: &'a [(&'a str, &'a str)],
}

impl<'a> Row<'a> {
    /// The row of a run without input that leaves its files.
    pub fn keeping(
        words: &'a str,
        files: &'a [(&'a str, &'a str)],
        status: Status,
        texts: &'a [&'a str],
    ) -> Row<'a> {
        Row {
            words,
            files,
            input: "",
            status,
            texts,
            left: files,
        }
    }

    /// Whether a run by these calls comes to it. It fails where memory runs out.
    pub fn is_met(&self, alloc: Global, calls: Calls) -> Result<bool, AllocError>
        requires { 0 < calls.width }
    {
        let found = ran(alloc, self.words, self.files, self.input.as_bytes(), calls)?;
        Ok(found.prints(self.status, self.texts) && found.leaves(self.left))
    }

    /// Whether it is met by calls of this width, also where any one read of a file fails: then the run says so and
    /// leaves the files. The run reads each of its files once.
    pub fn survives_reads(&self, alloc: Global, width: usize) -> Result<bool, AllocError>
        requires { 0 < width }
    {
        let fault = Row {
            status: Status::ReadFault,
            texts: &["read fault\n"],
            left: self.files,
            ..*self
        };
        let reads = self.reads(width);
        for call in 1..reads.saturating_add(1) {
            if !fault.is_met(alloc, Calls::failing_shelf(width, call))? {
                return Ok(false);
            }
        }
        self.is_met(alloc, Calls::failing_shelf(width, reads.saturating_add(1)))
    }

    // How many reads find all bytes of the files, and the end of each.
    fn reads(&self, width: usize) -> u64
        requires { 0 < width }
    {
        let mut reads = 0u64;
        for (_, text) in self.files {
            reads = reads.saturating_add(reads_for(text.len(), width));
        }
        reads
    }

    /// Whether it is met by calls of this width, also where any one write of a text fails: then the run ends with
    /// the status `cut`, prints what stands before that write, and leaves the same files.
    pub fn survives_writes(
        &self,
        alloc: Global,
        width: usize,
        cut: Status,
    ) -> Result<bool, AllocError>
        requires { 0 < width }
    {
        let mut call = 0u64;
        for (place, text) in self.texts.iter().enumerate() {
            for written in 0..calls_for(text.len(), width) {
                call = call.saturating_add(1);
                let calls = Calls::failing_out(width, call);
                let front = front_of(text, width, written);
                if !self.is_cut(alloc, calls, cut, place, front)? {
                    return Ok(false);
                }
            }
        }
        self.is_met(alloc, Calls::failing_out(width, call.saturating_add(1)))
    }

    /// Whether it is met by calls of this width, also where any one read of the input fails: then the run prints
    /// what belongs to the lines that were read whole, and that a read failed. There is a text for each line of
    /// the input, an empty one where nothing belongs to it.
    pub fn survives_input(&self, alloc: Global, width: usize) -> Result<bool, AllocError>
        requires { 0 < width }
    {
        let reads = self.input_reads(width);
        for call in 1..reads.saturating_add(1) {
            let front = front_of(self.input, width, call.saturating_sub(1));
            let calls = Calls::failing_input(width, call);
            let whole = lines_in(front);
            if !self.is_cut(alloc, calls, Status::ReadFault, whole, b"read fault\n")? {
                return Ok(false);
            }
        }
        self.is_met(alloc, Calls::failing_input(width, reads.saturating_add(1)))
    }

    // How many reads take the input. The last one finds its end, where no line ends the session before.
    fn input_reads(&self, width: usize) -> u64
        requires { 0 < width }
    {
        if self.input.ends_with("quit\n") {
            calls_for(self.input.len(), width)
        } else {
            reads_for(self.input.len(), width)
        }
    }

    // Whether the run ends with this status and prints so many of the texts and this front of the next one.
    fn is_cut(
        &self,
        alloc: Global,
        calls: Calls,
        status: Status,
        whole: usize,
        front: &[u8],
    ) -> Result<bool, AllocError>
        requires { 0 < calls.width }
    {
        let found = ran(alloc, self.words, self.files, self.input.as_bytes(), calls)?;
        let texts = self.texts.get(..whole).unwrap_or_default();
        Ok(
            found.status == status
                && is_made_of(found.text(), texts, front)
                && found.leaves(self.left),
        )
    }
}

// What so many writes of this width take of a text.
fn front_of(text: &str, width: usize, writes: u64) -> &[u8] {
    let count = width.saturating_mul(writes as usize);
    let bytes = text.as_bytes();
    bytes.get(..count).unwrap_or(bytes)
}

fn lines_in(bytes: &[u8]) -> usize {
    bytes.iter().filter(|byte| **byte == b'\n').count()
}
