//! Runs that write files, one call of whose shelf after another fails.
ghost use Rattle.std.specs.Prelude.{◌<◌};

use crate::calls::{Calls, calls_for, reads_for};
use crate::outcome::Outcome;
use crate::run::ran;
use dualoc_cli::Status;
use std::alloc::{AllocError, Global};

/// A run by words, with one space between two, over files, by name and text, and an input. It reads each of the files once
/// and whole, but for those named in `written`, which it writes in this order; and it ends with the status and
/// the text of `unwritten` where a write of one of them fails.
#[derive(Clone, Copy)]
pub struct Writing<'a> {
    pub words: &'a str,
    pub files: &'a [(&'a str, &'a str)],
    pub input: &'a str,
    pub written: &'a [&'a str],
    pub unwritten: (Status, &'a str),
}

impl<'a> Writing<'a> {
    /// What it comes to by these calls.
    pub fn run(&self, alloc: Global, calls: Calls) -> Result<Outcome, AllocError>
        requires { 0 < calls.width }
    {
        ran(alloc, self.words, self.files, self.input.as_bytes(), calls)
    }

    /// Whether any one call of the shelf may fail, by calls of this width, each in turn until the run is the one without a
    /// fault. Where a read fails, the run says so and leaves all files. Where a write fails, it ends as
    /// `unwritten` says, the files before that one are whole, that one is as before or a front of its text, and
    /// all others are as before.
    pub fn survives_calls(&self, alloc: Global, width: usize) -> Result<bool, AllocError>
        requires { 0 < width }
    {
        let whole = self.run(alloc, Calls::sound(width))?;
        self.survives_up_to(alloc, width, &whole)
    }

    fn survives_up_to(
        &self,
        alloc: Global,
        width: usize,
        whole: &Outcome,
    ) -> Result<bool, AllocError>
        requires { 0 < width }
    {
        let reads = self.reads(width);
        let mut cut = 0u64;
        for call in 1..reads
            .saturating_add(self.writes(whole, 1))
            .saturating_add(1)
        {
            if !self.is_cut(
                alloc,
                Calls::failing_shelf(width, call),
                call <= reads,
                whole,
            )? {
                break;
            }
            cut = call;
        }
        // A call that isn't made can't fail, and each of those that are made was cut.
        let calls = Calls::failing_shelf(width, cut.saturating_add(1));
        let fewest = reads.saturating_add(self.writes(whole, width));
        Ok(fewest <= cut && self.is_whole(alloc, calls, whole)?)
    }

    fn is_written(&self, name: &str) -> bool {
        self.written.iter().any(|known| *known == name)
    }

    fn reads(&self, width: usize) -> u64
        requires { 0 < width }
    {
        let mut reads = 0u64;
        for (name, text) in self.files {
            if !self.is_written(name) {
                reads = reads.saturating_add(reads_for(text.len(), width));
            }
        }
        reads
    }

    // How many calls make and fill the written files at least, where one call moves so many bytes at most.
    fn writes(&self, whole: &Outcome, width: usize) -> u64
        requires { 0 < width }
    {
        let mut writes = 0u64;
        for name in self.written {
            let calls = calls_for(whole.file(name).len(), width);
            writes = writes.saturating_add(calls).saturating_add(1);
        }
        writes
    }

    // Whether the run by these calls is the one without a fault.
    fn is_whole(&self, alloc: Global, calls: Calls, whole: &Outcome) -> Result<bool, AllocError>
        requires { 0 < calls.width }
    {
        let found = self.run(alloc, calls)?;
        Ok(
            found.status == whole.status
                && found.text() == whole.text()
                && self.keeps(&found, false)
                && self.are_whole(&found, whole),
        )
    }

    // Whether the run by these calls, of which a read fails or else a write, ends as it has to.
    fn is_cut(
        &self,
        alloc: Global,
        calls: Calls,
        is_read: bool,
        whole: &Outcome,
    ) -> Result<bool, AllocError>
        requires { 0 < calls.width }
    {
        let found = self.run(alloc, calls)?;
        let (status, text) = self.unwritten;
        Ok(if is_read {
            found.is(Status::ReadFault, "read fault\n") && self.keeps(&found, true)
        } else {
            found.is(status, text) && self.keeps(&found, false) && self.are_fronts(&found, whole)
        })
    }

    // Whether the files are as at the start: all of them, or those alone that aren't written.
    fn keeps(&self, found: &Outcome, all: bool) -> bool {
        for (name, text) in self.files {
            if (all || !self.is_written(name)) && !found.holds(name, text) {
                return false;
            }
        }
        true
    }

    fn are_whole(&self, found: &Outcome, whole: &Outcome) -> bool {
        for name in self.written {
            if !found.holds(name, whole.file(name)) {
                return false;
            }
        }
        true
    }

    // Whether the first written files are whole, one is as before or a front, and those behind it are as before.
    fn are_fronts(&self, found: &Outcome, whole: &Outcome) -> bool {
        let mut is_cut = false;
        for name in self.written {
            let (old, due) = (self.old(name), whole.file(name));
            if is_cut || !found.holds(name, due) {
                let is_front = !is_cut && due.starts_with(found.file(name));
                if !is_front && !found.holds(name, old) {
                    return false;
                }
                is_cut = true;
            }
        }
        is_cut
    }

    // The text of this file at the start, an empty one where it isn't there.
    fn old(&self, name: &str) -> &str {
        for (known, text) in self.files {
            if *known == name {
                return *text;
            }
        }
        ""
    }
}
