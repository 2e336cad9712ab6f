ghost use Rattle.std.specs.Prelude.{◌<◌};

use super::*;
use shelf_port::MemShelf;
use std::alloc::Global;
use std::test::Fail;

// How much one call of the shelf moves at most.
const WIDTHS: [usize; 4] = [1, 2, 7, 65_536];

// A shelf with one file `a`, one call of which fails.
fn shelf_of(alloc: Global, bytes: &[u8], width: usize, fails: u64) -> Result<MemShelf, Fail>
    requires { 0 < width }
{
    let mut files = Vec::new(alloc);
    files.push((String::from_str(alloc, "a")?, bytes.to_vec(alloc)?))?;
    Ok(MemShelf::new(alloc, files, vec![in alloc; fails]?).in_pieces(width))
}

// A line of so many bytes.
fn line_of(alloc: Global, count: usize) -> Result<Vec<u8>, Fail> {
    Ok(vec![in alloc; b'x'; count]?)
}

// Whether the next call answers this, and these bytes stand in the line.
fn gives(reader: &mut LineReader, shelf: &mut MemShelf, next: Next, line: &[u8]) -> bool {
    reader.next(shelf, "a") == Ok(next) && reader.line() == line
}

// Whether the next call fails, and these bytes stand in the line.
fn fails(reader: &mut LineReader, shelf: &mut MemShelf, name: &str, line: &[u8]) -> bool {
    reader.next(shelf, name) == Err(LineFault::Failed) && reader.line() == line
}

// Whether a file with these two lines is handed out as they are, where the second ends like this.
fn gives_two(alloc: Global, shelf: &mut MemShelf, limit: u64, end: Next, last: &[u8]) -> bool {
    let mut reader = LineReader::new(alloc, limit);
    gives(&mut reader, shelf, Next::Line, b"one") && gives(&mut reader, shelf, end, last)
}

#[test]
fn hands_out_each_line(rt: HostRuntime) -> Result<(), Fail> {
    let alloc = rt.alloc();
    for width in WIDTHS {
        let mut shelf = shelf_of(alloc, b"first\n\nthird line\n", width, 0)?;
        let mut reader = LineReader::new(alloc, 100);
        assert!(rt; gives(&mut reader, &mut shelf, Next::Line, b"first"));
        assert!(rt; gives(&mut reader, &mut shelf, Next::Line, b""));
        assert!(rt; gives(&mut reader, &mut shelf, Next::Line, b"third line"));
        assert!(rt; gives(&mut reader, &mut shelf, Next::End, b""));
    }
    Ok(())
}

#[test]
fn stops_at_the_end_or_at_the_limit(rt: HostRuntime) -> Result<(), Fail> {
    let alloc = rt.alloc();
    for width in WIDTHS {
        let mut shelf = shelf_of(alloc, b"one\nfour", width, 0)?;
        assert!(rt; gives_two(alloc, &mut shelf, 9, Next::End, b"four"));
        assert!(rt; gives_two(alloc, &mut shelf, 8, Next::End, b"four"));
        assert!(rt; gives_two(alloc, &mut shelf, 7, Next::Limit, b"fou"));
        assert!(rt; gives_two(alloc, &mut shelf, 4, Next::Limit, b""));
    }
    Ok(())
}

#[test]
fn hands_out_a_line_longer_than_a_piece(rt: HostRuntime) -> Result<(), Fail> {
    let alloc = rt.alloc();
    let long = line_of(alloc, 70_000)?;
    let mut bytes = long.as_slice().to_vec(alloc)?;
    bytes.extend_from_slice(b"\nshort")?;
    for width in WIDTHS {
        let mut shelf = shelf_of(alloc, &bytes, width, 0)?;
        let mut reader = LineReader::new(alloc, 100_000);
        assert!(rt; gives(&mut reader, &mut shelf, Next::Line, &long));
        assert!(rt; gives(&mut reader, &mut shelf, Next::End, b"short"));
    }
    Ok(())
}

#[test]
fn sees_what_is_ahead(rt: HostRuntime) -> Result<(), Fail> {
    let alloc = rt.alloc();
    let mut shelf = shelf_of(alloc, b"one\nfour", 2, 0)?;
    let mut reader = LineReader::new(alloc, 4);
    assert_eq!(rt; reader.peek(&mut shelf, "a"), Ok(Ahead::Bytes));
    assert!(rt; gives(&mut reader, &mut shelf, Next::Line, b"one"));
    assert_eq!(rt; reader.peek(&mut shelf, "a"), Ok(Ahead::Limit));
    let mut whole = LineReader::new(alloc, 8);
    assert!(rt; gives(&mut whole, &mut shelf, Next::Line, b"one"));
    assert!(rt; gives(&mut whole, &mut shelf, Next::End, b"four"));
    assert_eq!(rt; whole.peek(&mut shelf, "a"), Ok(Ahead::End));
    Ok(())
}

#[test]
fn fails_where_a_read_fails(rt: HostRuntime) -> Result<(), Fail> {
    let alloc = rt.alloc();
    let mut shelf = shelf_of(alloc, b"one\nfour", 2, 2)?;
    let mut reader = LineReader::new(alloc, 100);
    assert!(rt; fails(&mut reader, &mut shelf, "a", b"on"));
    assert!(rt; gives(&mut reader, &mut shelf, Next::Line, b"e"));
    let mut missing = LineReader::new(alloc, 100);
    assert!(rt; fails(&mut missing, &mut shelf, "b", b""));
    Ok(())
}
