//! The words of the command, and what ends a session before its first line.
use crate::edits::answers;
use memory_runs::{Calls, Row, Status, TWO_SITES, WORDED, ran};
use std::alloc::Global;
use std::test::Fail;

// Words over the file of the two sites, and what is printed.
const REFUSED: [(&str, Status, &str); 9] = [
    ("session", Status::Usage, "usage\n"),
    ("session ufl", Status::Usage, "usage\n"),
    ("session ufl ", Status::Usage, "usage\n"),
    ("session xyz a", Status::Usage, "usage\n"),
    ("session ufl a b", Status::Usage, "usage\n"),
    ("session ufl a budget=1", Status::Usage, "usage\n"),
    ("session ufl a capacity=1", Status::Usage, "usage\n"),
    ("session ufl b", Status::ReadFault, "read fault\n"),
    (
        "session own a",
        Status::BadInput,
        "bad input BadWord line 1 word 1\n",
    ),
];

fn refuses<'x>(alloc: Global, words: &'x str, status: Status, text: &'x str) -> Result<bool, Fail> {
    let files = [("a", TWO_SITES)];
    let row = Row {
        words,
        files: &files,
        input: "undo\n",
        status,
        texts: &[text],
        left: &files,
    };
    Ok(row.is_met(alloc, Calls::sound(7))?)
}

#[test]
fn refuses_before_the_first_line(rt: HostRuntime) -> Result<(), Fail> {
    for (words, status, text) in REFUSED {
        assert!(rt; refuses(rt.alloc(), words, status, text)?);
    }
    Ok(())
}

// Whether the session on the warehouses that these words begin solves them.
fn takes_capacity(alloc: Global, words: &str) -> Result<bool, Fail> {
    let found = ran(alloc, words, &[("a", WORDED)], b"solve\n", Calls::sound(7))?;
    Ok(found.is_like(Status::Done, "optimal 7504.750000 made * nodes *\n"))
}

#[test]
fn takes_the_option_of_its_form(rt: HostRuntime) -> Result<(), Fail> {
    assert!(rt; takes_capacity(rt.alloc(), "session cap a capacity=10")?);
    let lines = "solve\nsolve 5000001\n";
    let replies = "optimal 5.750000 made * nodes *\nrefused BudgetTooLarge\n";
    assert!(rt; answers(rt.alloc(), "session uncap a", WORDED, lines, replies)?);
    Ok(())
}

fn refuses_bytes(alloc: Global) -> Result<bool, Fail> {
    let (words, lines) = ("session ufl a", b"save \xff\n\xff\nundo\n");
    let found = ran(alloc, words, &[("a", TWO_SITES)], lines, Calls::sound(7))?;
    let replies = [
        "refused BadCommand\n",
        "refused BadCommand\n",
        "refused NothingToUndo\n",
    ];
    Ok(found.prints(Status::Done, &replies))
}

// A name is UTF-8.
#[test]
fn refuses_bytes_that_are_no_text(rt: HostRuntime) -> Result<(), Fail> {
    assert!(rt; refuses_bytes(rt.alloc())?);
    Ok(())
}
