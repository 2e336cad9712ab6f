// The files, the standard input and the standard output of the host. They tell nothing of what they
// hold, so nothing is proved of it. Each fault is counted.
ghost use Rattle.std.specs.Prelude.{◌≡◌, ◌<◌, ◌≤◌, length, None, IfOk};
ghost use Rattle.shelf_port.specs.Files.{Rose};
ghost use Rattle.shelf_port.specs.Streams.{no_refusals};
ghost use Rattle.shelf_port.specs.Real.{file_read_faults, file_write_faults, input_faults, output_faults, output_refusals};

use crate::fault::{ShelfFault, SinkFault, SourceFault};
use crate::ports::{Shelf, Sink, Source};
use crate::refusal_count::RefusalCount;
use std::fs::{Files, OpenOptions};
use std::io::{ErrorKind, Read, Seek, SeekFrom, Write};
use std::{fs, io};

/// How often a call is made that signals interrupt.
const TRIES: usize = 64;

/// The host's files, by path. It tells nothing of them.
///
/// The file that is read stays open, and so does the one that is written. So a pipe, which can't be
/// read from its front again, can be read once, in order.
#[derive(Drop)]
pub struct RealShelf<R, F> {
    rt: R,
    reading: Option<KeptFile<F>>,
    writing: Option<KeptFile<F>>,
    read_faults: u64,
    write_faults: u64,
}

/// A file that stays open, and the place in it behind what was read.
#[derive(Drop)]
struct KeptFile<F> {
    name: String,
    file: F,
    at: u64,
}

impl<R: Files + AllocGlobal> RealShelf<R, R::File> {
    /// The files that a runtime reaches.
    pub fn new(rt: R) -> Self
        ensures reads { file_read_faults result ≡ 0 }
        ensures writes { file_write_faults result ≡ 0 }
    {
        RealShelf {
            rt,
            reading: None,
            writing: None,
            read_faults: 0,
            write_faults: 0,
        }
    }

    /// How many reads failed.
    pub fn read_faults(&self) -> u64
        ensures { result ≡ file_read_faults self.now }
    {
        self.read_faults
    }

    /// How many writes failed.
    pub fn write_faults(&self) -> u64
        ensures { result ≡ file_write_faults self.now }
    {
        self.write_faults
    }
}

impl<R: Files + AllocGlobal> Shelf for RealShelf<R, R::File> {
    ghost files = { λ _. None };

    ghost read_faults = { λ s _. s.read_faults };

    ghost write_faults = { λ s _. s.write_faults };

    fn read_at(&mut self, name: &str, at: u64, into: &mut [u8]) -> Result<usize, ShelfFault> {
        let kept = self.reading.take();
        match read_on(&self.rt, kept, name, at, into) {
            Ok((kept, count)) => {
                self.reading = Some(kept);
                Ok(count)
            }
            Err(e) => Err(shelf_fault(&e, &mut self.read_faults)),
        }
    }

    fn create(&mut self, name: &str) -> Result<(), ShelfFault> {
        self.writing = None;
        match create_file(&self.rt, name) {
            Ok(kept) => {
                self.writing = Some(kept);
                Ok(())
            }
            Err(e) => Err(shelf_fault(&e, &mut self.write_faults)),
        }
    }

    fn append(&mut self, name: &str, bytes: &[u8]) -> Result<usize, ShelfFault> {
        let kept = self.writing.take();
        match write_on(&self.rt, kept, name, bytes) {
            Ok((kept, count)) => {
                self.writing = Some(kept);
                Ok(count)
            }
            Err(e) => Err(shelf_fault(&e, &mut self.write_faults)),
        }
    }
}

/// The host's standard input. It tells nothing of what is left.
#[derive(Drop)]
pub struct RealSource<R> {
    rt: R,
    faults: u64,
}

impl<R: Input> RealSource<R> {
    /// The standard input of a runtime.
    pub fn new(rt: R) -> Self
        ensures { input_faults result ≡ 0 }
    {
        RealSource { rt, faults: 0 }
    }

    /// How many reads failed.
    pub fn faults(&self) -> u64
        ensures { result ≡ input_faults self.now }
    {
        self.faults
    }
}

impl<R: Input> Source for RealSource<R> {
    ghost left = { λ _. None };

    ghost faults = { λ s. s.faults };

    fn read(&mut self, into: &mut [u8]) -> Result<usize, SourceFault> {
        match read_some(&mut self.rt.reader(), into) {
            Ok(count) => Ok(count),
            Err(e) if e.kind() == ErrorKind::OutOfMemory => Err(SourceFault::NoMemory),
            Err(_) => {
                self.faults = self.faults.saturating_add(1);
                Err(SourceFault::Failed)
            }
        }
    }
}

/// The host's standard output. It tells nothing of what was written. Each piece goes to the host at
/// once.
#[derive(Drop)]
pub struct RealSink<R> {
    rt: R,
    faults: u64,
    refusals: RefusalCount,
}

impl<R: Print> RealSink<R> {
    /// The standard output of a runtime.
    pub fn new(rt: R) -> Self
        ensures faults { output_faults result ≡ 0 }
        ensures refusals { output_refusals result ≡ no_refusals }
    {
        RealSink {
            rt,
            faults: 0,
            refusals: RefusalCount::new(),
        }
    }

    /// How many writes failed.
    pub fn faults(&self) -> u64
        ensures { result ≡ output_faults self.now }
    {
        self.faults
    }
}

impl<R: Print> Sink for RealSink<R> {
    ghost written = { λ _. None };

    ghost faults = { λ s. s.faults };

    ghost refusals = { λ s. output_refusals s };

    fn write(&mut self, bytes: &[u8]) -> Result<usize, SinkFault> {
        match write_some(&mut io::writer(&self.rt), bytes) {
            Ok(count) => {
                self.refusals.take();
                Ok(count)
            }
            Err(e) => {
                self.refusals.refuse();
                if e.kind() == ErrorKind::OutOfMemory {
                    return Err(SinkFault::NoMemory);
                }
                self.faults = self.faults.saturating_add(1);
                Err(SinkFault::Failed)
            }
        }
    }
}

// The refusal for an error of the host. It counts, unless memory ran out.
fn shelf_fault(error: &io::Error, faults: &mut u64) -> ShelfFault
    ensures failed { result ≡ ShelfFault.Failed → Rose faults.old faults.new }
    ensures counts { faults.old ≤ faults.new }
{
    if error.kind() == ErrorKind::OutOfMemory {
        return ShelfFault::NoMemory;
    }
    *faults = faults.saturating_add(1);
    ShelfFault::Failed
}

// Reads on in the file that is kept, where it stands at this place. Else it opens the named file anew,
// as at the front of one, since the name may be another file's by then. An error lets the file go.
fn read_on<R: Files + AllocGlobal>(
    rt: &R,
    kept: Option<KeptFile<R::File>>,
    name: &str,
    at: u64,
    into: &mut [u8],
) -> io::Result<(KeptFile<R::File>, usize)>
    ensures { IfOk result (λ read. read.1 ≤ length into.new) }
{
    let mut kept = match kept.filter(|kept| at > 0 && kept.at == at && kept.name.as_str() == name) {
        Some(kept) => kept,
        None => open_at(rt, name, at)?,
    };
    let count = read_some(&mut kept.file, into)?;
    kept.at = at.saturating_add(count as u64);
    Ok((kept, count))
}

// Opens the named file at a place. A pipe can be opened at its front alone.
fn open_at<R: Files + AllocGlobal>(rt: &R, name: &str, at: u64) -> io::Result<KeptFile<R::File>> {
    let name = String::from_str(rt.alloc(), name)?;
    let mut file = fs::open(rt, name.as_str())?;
    if at > 0 {
        file.seek(SeekFrom::Start(at))?;
    }
    Ok(KeptFile { name, file, at })
}

fn create_file<R: Files + AllocGlobal>(rt: &R, name: &str) -> io::Result<KeptFile<R::File>> {
    let name = String::from_str(rt.alloc(), name)?;
    let file = fs::create(rt, name.as_str())?;
    Ok(KeptFile { name, file, at: 0 })
}

// Writes on in the file that is kept, where it has this name, else at the end of the named file. An
// error lets the file go.
fn write_on<R: Files + AllocGlobal>(
    rt: &R,
    kept: Option<KeptFile<R::File>>,
    name: &str,
    bytes: &[u8],
) -> io::Result<(KeptFile<R::File>, usize)>
    ensures bound { IfOk result (λ written. written.1 ≤ length bytes.now) }
    ensures progress { IfOk result (λ written. 0 < length bytes.now → 0 < written.1) }
{
    let mut kept = match kept.filter(|kept| kept.name.as_str() == name) {
        Some(kept) => kept,
        None => open_end(rt, name)?,
    };
    let count = write_some(&mut kept.file, bytes)?;
    Ok((kept, count))
}

fn open_end<R: Files + AllocGlobal>(rt: &R, name: &str) -> io::Result<KeptFile<R::File>> {
    let name = String::from_str(rt.alloc(), name)?;
    let file = OpenOptions::new()
        .append(true)
        .create(true)
        .open(rt, name.as_str())?;
    Ok(KeptFile { name, file, at: 0 })
}

// One read that no signal interrupted.
fn read_some<R: Read>(from: &mut R, into: &mut [u8]) -> io::Result<usize>
    ensures { IfOk result (λ n. n ≤ length into.new) }
{
    for _ in 0..TRIES {
        match from.read(into) {
            Err(e) if e.kind() == ErrorKind::Interrupted => {}
            read => return read,
        }
    }
    Err(io::Error::from(ErrorKind::Interrupted))
}

// One write that no signal interrupted. To write nothing of a piece is an error.
fn write_some<W: Write>(to: &mut W, bytes: &[u8]) -> io::Result<usize>
    ensures bound { IfOk result (λ n. n ≤ length bytes.now) }
    ensures progress { IfOk result (λ n. 0 < length bytes.now → 0 < n) }
{
    for _ in 0..TRIES {
        match to.write(bytes) {
            Err(e) if e.kind() == ErrorKind::Interrupted => {}
            Ok(0) if !bytes.is_empty() => return Err(io::Error::from(ErrorKind::WriteZero)),
            written => return written,
        }
    }
    Err(io::Error::from(ErrorKind::Interrupted))
}
