//! Solves that begin with the tree of a former one.
use crate::edits::answers;
use memory_runs::{Calls, RING, Status, ran};
use std::alloc::Global;
use std::test::Fail;

const ROWS: [(&str, &str); 5] = [
    (
        "solve\ndemand 1 5\nsolve 0\nundo\nundo\n",
        "optimal 4.000000 made 2 nodes 3\nok\noptimal 4.000000 made 0 nodes 3\nok\nrefused NothingToUndo\n",
    ),
    (
        "solve\nlane 1 1 5\nsolve\nundo\nsolve 0\n",
        "optimal 4.000000 made 2 nodes 3\nok\noptimal * made * nodes *\nok\noptimal 4.000000 made 0 nodes 3\n",
    ),
    // The split on the first site becomes its closed child.
    (
        "solve\ndropsite 1\nsolve 0\n",
        "optimal 4.000000 made 2 nodes 3\nok\noptimal 4.000000 made 0 nodes 1\n",
    ),
    ("solve 0\n", "bracket * 4.000000 made 0 budget 0\n"),
    // Of the solves since the edit four are kept, and not the one before it: the present tree stays.
    (
        "solve\ndemand 1 5\nsolve\nsolve\nsolve\nsolve\nundo\nsolve 0\n",
        "optimal 4.000000 made 2 nodes 3\nok\noptimal 4.000000 made 0 nodes 3\noptimal 4.000000 made 0 nodes 3\noptimal 4.000000 made 0 nodes 3\noptimal 4.000000 made 0 nodes 3\nok\noptimal 4.000000 made 0 nodes 3\n",
    ),
];

#[test]
fn carries_trees(rt: HostRuntime) -> Result<(), Fail> {
    for (lines, replies) in ROWS {
        assert!(rt;
            answers(rt.alloc(), "session ufl a", RING, lines, replies)?,
            "{lines}"
        );
    }
    Ok(())
}

// The low end of the bracket in a line, and what stands behind the line.
fn bracket(text: &[u8]) -> (&[u8], &[u8]) {
    let rest = text.strip_prefix(b"bracket ").unwrap_or_default();
    let (low, end) = rest.split_at_checked(8).unwrap_or_default();
    let behind = end.strip_prefix(b" 4.000000 made 0 budget 0\n");
    match behind {
        Some(behind) => (low, behind),
        None => (b"", b""),
    }
}

// Whether a text is the line of a bracket, and of another one that is as good.
fn are_brackets(text: &[u8]) -> bool {
    let (first, behind) = bracket(text);
    let (second, rest) = bracket(behind);
    b"2.000000".as_slice() <= first
        && first <= second
        && second <= b"3.000000".as_slice()
        && rest.is_empty()
}

fn keeps_its_bracket(alloc: Global) -> Result<bool, Fail> {
    let (words, lines) = ("session ufl a", b"solve 0\nsolve 0\n");
    let found = ran(alloc, words, &[("a", RING)], lines, Calls::sound(7))?;
    Ok(found.status == Status::Done && are_brackets(found.text()))
}

#[test]
fn loses_nothing_of_a_bracket(rt: HostRuntime) -> Result<(), Fail> {
    assert!(rt; keeps_its_bracket(rt.alloc())?);
    Ok(())
}
