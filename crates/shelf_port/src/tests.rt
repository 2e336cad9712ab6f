ghost use Rattle.std.specs.Prelude.{◌<◌};

use super::*;
use std::alloc::Global;
use std::test::Fail;
use std::{env, fs};

// How much one call moves at most, and how many calls the text takes.
const WIDTHS: [(usize, u32); 4] = [(1, 29), (2, 15), (7, 5), (65_536, 1)];

const TEXT: &str = "2 3 0\n1 10 1 2 9\n2 12 8 7 1\n\n";

// A shelf with one file `a`, one call of which fails.
fn shelf_of(alloc: Global, bytes: &[u8], width: usize, fails: u64) -> Result<MemShelf, Fail>
    requires { 0 < width }
{
    let mut files = Vec::new(alloc);
    files.push((String::from_str(alloc, "a")?, bytes.to_vec(alloc)?))?;
    Ok(MemShelf::new(alloc, files, vec![in alloc; fails]?).in_pieces(width))
}

// The first bytes of the text, after so many calls that each move as much as they may.
fn moved(calls: u64, width: usize) -> &'static [u8] {
    let bytes = TEXT.as_bytes();
    let count = width.saturating_mul(calls as usize);
    &bytes[..count.min(bytes.len())]
}

// Whether these are the bytes of the file, read whole.
fn reads_as<H: Shelf>(alloc: Global, shelf: &mut H, name: &str, limit: u64, text: &[u8]) -> bool {
    match read_whole(alloc, shelf, name, limit) {
        Ok(bytes) => bytes.as_slice() == text,
        Err(_) => false,
    }
}

// Why the file isn't read whole, where it isn't.
fn read_fault<H: Shelf>(alloc: Global, shelf: &mut H, name: &str, limit: u64) -> Option<ReadWhole> {
    read_whole(alloc, shelf, name, limit).err()
}

#[test]
fn reads_whole(rt: HostRuntime) -> Result<(), Fail> {
    let alloc = rt.alloc();
    let text = TEXT.as_bytes();
    let limit = TEXT.len() as u64;
    for (width, calls) in WIDTHS {
        // The last read of a file finds its end.
        let calls = u64::from(calls) + 1;
        for fails in 0..=calls + 1 {
            let mut shelf = shelf_of(alloc, text, width, fails)?;
            if 0 < fails && fails <= calls {
                assert!(rt; read_fault(alloc, &mut shelf, "a", limit) == Some(ReadWhole::Failed));
            }
            assert!(rt; reads_as(alloc, &mut shelf, "a", limit, text));
        }
    }
    Ok(())
}

#[test]
fn refuses_to_read(rt: HostRuntime) -> Result<(), Fail> {
    let alloc = rt.alloc();
    for (width, _) in WIDTHS {
        let mut shelf = shelf_of(alloc, b"12345", width, 0)?;
        assert!(rt; read_fault(alloc, &mut shelf, "a", 4) == Some(ReadWhole::TooLong));
        assert!(rt; read_fault(alloc, &mut shelf, "b", 4) == Some(ReadWhole::Failed));
    }
    Ok(())
}

// What a file that held `old` holds, where the call of this number failed that was to make it the text.
fn left_of(fails: u64, width: usize) -> &'static [u8] {
    match fails {
        0 => TEXT.as_bytes(),
        1 => b"old",
        _ => moved(fails - 2, width),
    }
}

fn holds(shelf: &MemShelf, name: &str, bytes: &[u8]) -> bool {
    match shelf.file(name) {
        Some(file) => file == bytes,
        None => false,
    }
}

#[test]
fn puts_whole(rt: HostRuntime) -> Result<(), Fail> {
    for (width, calls) in WIDTHS {
        for fails in 0..=u64::from(calls) + 1 {
            let mut shelf = shelf_of(rt.alloc(), b"old", width, fails)?;
            let is_put = put_whole(&mut shelf, "a", TEXT.as_bytes()).is_ok();
            assert!(rt; is_put == (fails == 0));
            assert!(rt; holds(&shelf, "a", left_of(fails, width)));
            put_whole(&mut shelf, "b", TEXT.as_bytes())?;
            assert!(rt; holds(&shelf, "a", left_of(fails, width)));
            assert!(rt; holds(&shelf, "b", TEXT.as_bytes()));
        }
    }
    Ok(())
}

#[test]
fn writes_whole(rt: HostRuntime) -> Result<(), Fail> {
    let alloc = rt.alloc();
    for (width, calls) in WIDTHS {
        let calls = u64::from(calls);
        for fails in 1..=calls + 1 {
            let sink = MemSink::new(alloc, vec![in alloc; fails]?);
            let mut sink = sink.in_pieces(width);
            let written = write_whole(&mut sink, TEXT.as_bytes());
            assert_eq!(rt; written.is_ok(), fails == calls + 1);
            assert_eq!(rt; sink.written(), moved(fails - 1, width));
        }
    }
    Ok(())
}

#[test]
fn gives_the_input_in_pieces(rt: HostRuntime) -> Result<(), Fail> {
    let alloc = rt.alloc();
    let source = MemSource::new(b"12345".to_vec(alloc)?, vec![in alloc; 2]?);
    let mut source = source.in_pieces(2);
    let mut piece = [0; 4];
    assert_eq!(rt; source.read(&mut piece), Ok(2));
    assert_eq!(rt; source.read(&mut piece), Err(SourceFault::Failed));
    assert_eq!(rt; source.read(&mut piece), Ok(2));
    assert_eq!(rt; piece, [b'3', b'4', 0, 0]);
    assert_eq!(rt; source.read(&mut piece), Ok(1));
    assert_eq!(rt; source.read(&mut piece), Ok(0));
    Ok(())
}

// Makes a file twice, and adds to it.
fn writes_newer<H: Shelf>(shelf: &mut H, name: &str) -> bool {
    put_whole(shelf, name, TEXT.as_bytes()).is_ok()
        && put_whole(shelf, name, b"new").is_ok()
        && append_whole(shelf, name, b"er").is_ok()
}

#[test]
fn reaches_files_of_the_host(rt: HostRuntime) -> Result<(), Fail> {
    let folder = env::temp_dir(&rt)?;
    let path = folder.join(rt.alloc(), "shelf_port_reaches_the_host")?;
    let name = path.to_string_lossy();
    let mut shelf = RealShelf::new(&rt);
    let is_written = writes_newer(&mut shelf, name);
    let is_read = reads_as(rt.alloc(), &mut shelf, name, 5, b"newer");
    let is_read_again = reads_as(rt.alloc(), &mut shelf, name, 5, b"newer");
    fs::remove_file(&rt, name)?;
    assert!(rt; is_written && is_read && is_read_again);
    assert!(rt; shelf.read_faults() == 0 && shelf.write_faults() == 0);
    Ok(())
}

#[test]
fn counts_the_faults_of_the_host(rt: HostRuntime) {
    let mut shelf = RealShelf::new(&rt);
    let missing = read_fault(rt.alloc(), &mut shelf, "no folder/no file", 5);
    assert!(rt; missing == Some(ReadWhole::Failed) && shelf.read_faults() == 1);
    let folder = read_fault(rt.alloc(), &mut shelf, ".", 5);
    assert!(rt; folder == Some(ReadWhole::Failed) && shelf.read_faults() == 2);
    assert!(rt; shelf.write_faults() == 0);
    let is_put = put_whole(&mut shelf, ".", b"new").is_ok();
    assert!(rt; !is_put && shelf.write_faults() == 1);
}

#[test]
fn reaches_the_streams_of_the_host(rt: HostRuntime) {
    let mut sink = RealSink::new(&rt);
    let is_written = write_whole(&mut sink, b"written\n").is_ok();
    assert!(rt; is_written && sink.faults() == 0);
    let mut source = RealSource::new(&rt);
    let is_read = source.read(&mut []).is_ok();
    assert!(rt; is_read && source.faults() == 0);
}
