//! The words of the command line, and how a desk ends.
ghost use Rattle.std.specs.Prelude.{◌<◌};

use crate::row::Row;
use desk_cli::DeskStatus;
use memory_runs::{Calls, TWO_SITES};
use std::alloc::Global;
use std::test::Fail;

// Words over the file of the two sites, and what is printed.
const REFUSED: [(&str, DeskStatus, &str); 9] = [
    ("", DeskStatus::Usage, "usage\n"),
    ("ufl a", DeskStatus::Usage, "usage\n"),
    ("ufl a ", DeskStatus::Usage, "usage\n"),
    ("ufl a a", DeskStatus::Usage, "usage\n"),
    ("desk ufl a s", DeskStatus::Usage, "usage\n"),
    ("ufl a s capacity=1", DeskStatus::Usage, "usage\n"),
    ("ufl a s budget=1", DeskStatus::Usage, "usage\n"),
    ("ufl b s", DeskStatus::ReadFault, "read fault\n"),
    (
        "own a s",
        DeskStatus::BadInput,
        "bad input BadWord line 1 word 1\n",
    ),
];

fn refuses<'x>(
    alloc: Global,
    words: &'x str,
    status: DeskStatus,
    text: &'x str,
) -> Result<bool, Fail> {
    let row = Row {
        words,
        file: ("a", TWO_SITES),
        keeper_fails: 0,
        input: "names\n",
        status,
        text,
    };
    Ok(row.is_met(alloc, Calls::sound(7))?)
}

#[test]
fn refuses_before_the_first_line(rt: HostRuntime) -> Result<(), Fail> {
    for (words, status, text) in REFUSED {
        assert!(rt; refuses(rt.alloc(), words, status, text)?);
    }
    Ok(())
}

fn is_cut(alloc: Global, calls: Calls, status: DeskStatus, text: &str) -> Result<bool, Fail>
    requires { 0 < calls.width }
{
    let row = Row {
        words: "ufl a s",
        file: ("a", TWO_SITES),
        keeper_fails: 0,
        input: "keep a\nnames\n",
        status,
        text,
    };
    Ok(row.is_met(alloc, calls)?)
}

// A fault of the input comes behind the lines that were read whole; behind one of the output nothing is printed.
#[test]
fn ends_at_a_fault(rt: HostRuntime) -> Result<(), Fail> {
    let (input, out) = (Calls::failing_input(7, 2), Calls::failing_out(65_536, 2));
    assert!(rt; is_cut(rt.alloc(), input, DeskStatus::ReadFault, "ok\nread fault\n")?);
    assert!(rt; is_cut(rt.alloc(), out, DeskStatus::WriteFault, "ok\n")?);
    Ok(())
}
