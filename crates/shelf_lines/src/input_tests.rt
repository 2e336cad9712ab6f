ghost use Rattle.std.specs.Prelude.{◌<◌, ◌-◌, ◌^◌};

use super::*;
use shelf_port::MemSource;
use std::alloc::Global;
use std::test::Fail;

// How much one call of the source gives at most.
const WIDTHS: [usize; 4] = [1, 2, 7, 65_536];

// An input of these bytes, one read of which fails.
fn input_of(alloc: Global, bytes: &[u8], width: usize, fails: u64) -> Result<MemSource, Fail>
    requires { 0 < width }
{
    Ok(MemSource::new(bytes.to_vec(alloc)?, vec![in alloc; fails]?).in_pieces(width))
}

// Whether the next call answers this, and these bytes stand in the line.
fn gives(lines: &mut InputLines, source: &mut MemSource, next: NextInput, line: &[u8]) -> bool {
    lines.next(source) == Ok(next) && lines.line() == line
}

// Whether the first line of the input is `one`, of lines of at most so many bytes and with so many in
// all, and the next one this.
fn gives_behind_one(
    alloc: Global,
    source: &mut MemSource,
    most: usize,
    limit: u64,
    next: NextInput,
    line: &[u8],
) -> bool
    requires { limit < 2 ^ 64 - 1 }
{
    let mut lines = InputLines::new(alloc, most, limit);
    gives(&mut lines, source, NextInput::Line, b"one") && gives(&mut lines, source, next, line)
}

#[test]
fn hands_out_each_line_of_an_input(rt: HostRuntime) -> Result<(), Fail> {
    let alloc = rt.alloc();
    for width in WIDTHS {
        let mut source = input_of(alloc, b"first\n\nthird line\nlast", width, 0)?;
        let mut lines = InputLines::new(alloc, 100, 100);
        assert!(rt; gives(&mut lines, &mut source, NextInput::Line, b"first"));
        assert!(rt; gives(&mut lines, &mut source, NextInput::Line, b""));
        assert!(rt; gives(&mut lines, &mut source, NextInput::Line, b"third line"));
        assert!(rt; gives(&mut lines, &mut source, NextInput::End, b"last"));
        assert!(rt; gives(&mut lines, &mut source, NextInput::End, b""));
    }
    Ok(())
}

#[test]
fn an_empty_input_is_at_its_end(rt: HostRuntime) -> Result<(), Fail> {
    let alloc = rt.alloc();
    let mut source = input_of(alloc, b"", 1, 0)?;
    let mut lines = InputLines::new(alloc, 0, 0);
    assert!(rt; gives(&mut lines, &mut source, NextInput::End, b""));
    Ok(())
}

#[test]
fn a_line_may_have_as_many_bytes_as_its_limit(rt: HostRuntime) -> Result<(), Fail> {
    let alloc = rt.alloc();
    for width in WIDTHS {
        let mut at = input_of(alloc, b"one\nfour\n", width, 0)?;
        assert!(rt; gives_behind_one(alloc, &mut at, 4, 100, NextInput::Line, b"four"));
        let mut last = input_of(alloc, b"one\nfour", width, 0)?;
        assert!(rt; gives_behind_one(alloc, &mut last, 4, 100, NextInput::End, b"four"));
        let mut over = input_of(alloc, b"one\nfour\n", width, 0)?;
        assert_eq!(rt;
            over_the_line(alloc, &mut over, 100),
            Ok(NextInput::LineTooLong)
        );
    }
    Ok(())
}

// What the second line is where lines may have three bytes, and so many come in all.
fn over_the_line(alloc: Global, source: &mut MemSource, limit: u64) -> Result<NextInput, LineFault>
    requires { limit < 2 ^ 64 - 1 }
{
    let mut lines = InputLines::new(alloc, 3, limit);
    lines.next(source)?;
    lines.next(source)
}

#[test]
fn an_input_may_have_as_many_bytes_as_its_limit(rt: HostRuntime) -> Result<(), Fail> {
    let alloc = rt.alloc();
    for width in WIDTHS {
        let mut at = input_of(alloc, b"one\nfour\n", width, 0)?;
        assert!(rt; gives_behind_one(alloc, &mut at, 4, 9, NextInput::Line, b"four"));
        let mut feed = input_of(alloc, b"one\nfour\n", width, 0)?;
        assert!(rt; gives_behind_one(alloc, &mut feed, 4, 8, NextInput::InputTooLong, b"four"));
        let mut last = input_of(alloc, b"one\nfour", width, 0)?;
        assert!(rt; gives_behind_one(alloc, &mut last, 4, 8, NextInput::End, b"four"));
        let mut over = input_of(alloc, b"one\nfour", width, 0)?;
        assert!(rt; gives_behind_one(alloc, &mut over, 4, 7, NextInput::InputTooLong, b"four"));
    }
    Ok(())
}

#[test]
fn of_two_limits_that_one_byte_passes_the_line_is_named(rt: HostRuntime) -> Result<(), Fail> {
    let alloc = rt.alloc();
    for width in WIDTHS {
        let mut both = input_of(alloc, b"one\nfour", width, 0)?;
        assert_eq!(rt;
            over_the_line(alloc, &mut both, 7),
            Ok(NextInput::LineTooLong)
        );
        let mut earlier = input_of(alloc, b"one\nfour", width, 0)?;
        assert_eq!(rt;
            over_the_line(alloc, &mut earlier, 6),
            Ok(NextInput::InputTooLong)
        );
    }
    Ok(())
}

#[test]
fn goes_on_behind_a_read_that_failed(rt: HostRuntime) -> Result<(), Fail> {
    let alloc = rt.alloc();
    let mut source = input_of(alloc, b"one\nfour", 2, 2)?;
    let mut lines = InputLines::new(alloc, 100, 100);
    assert_eq!(rt; lines.next(&mut source), Err(LineFault::Failed));
    assert!(rt; lines.line() == b"on".as_slice());
    assert!(rt; gives(&mut lines, &mut source, NextInput::Line, b"e"));
    Ok(())
}
