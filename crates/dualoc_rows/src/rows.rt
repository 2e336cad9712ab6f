//! What files and words come to in the short form of `solve` and in other commands.
ghost use Rattle.std.specs.Prelude.{◌<◌};

use memory_runs::{Calls, Row, Status, TWO_SITES, TWO_SITES_PLAN, WIDTHS, place_behind};
use std::alloc::Global;
use std::str::from_utf8;
use std::test::Fail;

pub(crate) const SHORT: &str = "solve ufl a";

const ITS_DUALS: &str =
    "bound 22.000000\ncustomer 1 8.000000\ncustomer 2 5.000000\ncustomer 3 9.000000\nsite 1 0.000000\nsite 2 4.000000\n";

// A file, the status of its short solve, and what is printed.
const FILES: [(&str, Status, &str); 22] = [
    (TWO_SITES, Status::Done, TWO_SITES_PLAN),
    (
        "2 3 0\n1 10 1 2 9\n2 12 8 7 1\n",
        Status::Done,
        TWO_SITES_PLAN,
    ),
    (
        "FILE:a\n2 3 0\n1 10 1 2 9\n2 12 8 7 1\n",
        Status::Done,
        TWO_SITES_PLAN,
    ),
    (
        "\nFILE:a x\n2 3 0\n1 10 1 2 9\n2 12 8 7 1",
        Status::Done,
        TWO_SITES_PLAN,
    ),
    (
        "+2 3. 0\r\n1\t10 1.0000000 2 9\n02 12 8 7 1\n",
        Status::Done,
        TWO_SITES_PLAN,
    ),
    (
        "1 1 0\n1 0 0\n",
        Status::Done,
        "dualoc-plan 1\noptimal 0.000000\nsite 1 0.000000\nserve 1 1 0.000000\nend\n",
    ),
    (
        "1 1 0\n1 0 999999999.999999\n",
        Status::Done,
        "dualoc-plan 1\noptimal 999999999.999999\nsite 1 0.000000\nserve 1 1 999999999.999999\nend\n",
    ),
    (
        "2 3 0\n1 2 0 0 10\n2 2 0 10 0\n",
        Status::Done,
        "dualoc-plan 1\noptimal 4.000000\nsite 1 2.000000\nsite 2 2.000000\nserve 1 1 0.000000\nserve 2 1 0.000000\nserve 3 2 0.000000\nend\n",
    ),
    (
        "FILE: a\n2 3 0\n1 10 1.0000001 2 9\n2 12 8 7 1\n",
        Status::BadInput,
        "bad input TooFine line 3 word 3\n",
    ),
    (
        "1 1 0\n1 0 1000000000\n",
        Status::BadInput,
        "bad input TooBig line 2 word 3\n",
    ),
    (
        "3001 1 0\n",
        Status::BadInput,
        "bad input BadSize line 1 word 1\n",
    ),
    (
        "3000 5000 0\n",
        Status::BadInput,
        "bad input BadSize line 1 word 2\n",
    ),
    (
        "1 1.5 0\n",
        Status::BadInput,
        "bad input BadSize line 1 word 2\n",
    ),
    (
        "FILE: a\n2 3 0\n1 10 1 2 9\n2 12 8",
        Status::BadInput,
        "bad input Ended line 4 word 4\n",
    ),
    (
        "FILE: a\n2 3 0\n1 10 1 2 9\n2 12 8 7 1\n5\n",
        Status::BadInput,
        "bad input Trailing line 5 word 1\n",
    ),
    ("", Status::BadInput, "bad input Ended line 1 word 1\n"),
    (
        "FILE: a b\n",
        Status::BadInput,
        "bad input Ended line 1 word 4\n",
    ),
    (
        "FILE: a\n2 3 1\n",
        Status::BadInput,
        "bad input NotZero line 2 word 3\n",
    ),
    (
        "2 3 0\n2 10 1 2 9\n",
        Status::BadInput,
        "bad input BadIndex line 2 word 1\n",
    ),
    (
        "2 3 0\n1 -10 1 2 9\n",
        Status::BadInput,
        "bad input NotANumber line 2 word 2\n",
    ),
    (
        "12 1 0\n1 5 9\n2 5 9\n3 5 9\n4 5 9\n5 5 9\n6 5 9\n7 1 2\n8 5 9\n9 5 9\n10 5 9\n11 5 9\n12 5 9\n",
        Status::Done,
        "dualoc-plan 1\noptimal 3.000000\nsite 7 1.000000\nserve 1 7 2.000000\nend\n",
    ),
    (
        "13 1 0\n1 5 9\n2 5 9\n3 5 9\n4 5 9\n5 5 9\n6 5 9\n7 1 2\n8 5 9\n9 5 9\n10 5 9\n11 5 9\n12 5 9\n13 5 9\n",
        Status::TooLarge,
        "too large sites\n",
    ),
];

// Words over the file of the two sites: a command on it, on a file that isn't there, or none.
const WORDS: [(&str, Status, &str); 20] = [
    ("", Status::Usage, "usage\n"),
    ("solve", Status::Usage, "usage\n"),
    ("solve ufl", Status::Usage, "usage\n"),
    ("solve ufl ", Status::Usage, "usage\n"),
    ("solve xyz a", Status::Usage, "usage\n"),
    ("Solve ufl a", Status::Usage, "usage\n"),
    ("solve ufl a b", Status::Usage, "usage\n"),
    ("solve ufl b", Status::ReadFault, "read fault\n"),
    ("duals ufl a", Status::Done, ITS_DUALS),
    ("duals", Status::Usage, "usage\n"),
    ("duals ufl a capacity=10", Status::Usage, "usage\n"),
    ("check ufl a", Status::Usage, "usage\n"),
    ("check ufl a ", Status::Usage, "usage\n"),
    ("check ufl a a", Status::Usage, "usage\n"),
    ("check ufl a k", Status::ReadFault, "read fault\n"),
    ("check ufl k a", Status::ReadFault, "read fault\n"),
    (
        "trial 1 2 2",
        Status::Done,
        "optimal 2338.000000 nodes 1\nopen 1\n",
    ),
    ("trial 1 3001 1", Status::Usage, "usage\n"),
    ("trial 01 2 2", Status::Usage, "usage\n"),
    ("trial 1 2 a", Status::Usage, "usage\n"),
];

// Whether words over one file `a`, by calls of this width, end so and print this.
fn answers<'x>(
    alloc: Global,
    words: &'x str,
    file: &'x str,
    width: usize,
    status: Status,
    text: &'x str,
) -> Result<bool, Fail>
    requires { 0 < width }
{
    let (files, texts) = ([("a", file)], [text]);
    let row = Row::keeping(words, &files, status, &texts);
    Ok(row.is_met(alloc, Calls::sound(width))?)
}

#[test]
fn answers_files(rt: HostRuntime) -> Result<(), Fail> {
    for (file, status, text) in FILES {
        for width in WIDTHS {
            assert!(rt;
                answers(rt.alloc(), SHORT, file, width, status, text)?,
                "{file}"
            );
        }
    }
    Ok(())
}

#[test]
fn answers_words(rt: HostRuntime) -> Result<(), Fail> {
    for (words, status, text) in WORDS {
        assert!(rt; answers(rt.alloc(), words, TWO_SITES, 7, status, text)?);
    }
    Ok(())
}

// Whether the front of this length of the two sites comes to what it lacks, or to the plan where it lacks the
// last line's end alone.
fn ends_where_it_is_cut(alloc: Global, len: usize) -> Result<bool, Fail> {
    let bytes = TWO_SITES.as_bytes().get(..len).unwrap_or_default();
    let front = from_utf8(bytes).unwrap_or_default();
    if len.saturating_add(1) == TWO_SITES.len() {
        return answers(alloc, SHORT, front, 7, Status::Done, TWO_SITES_PLAN);
    }
    let fault = fault_of(alloc, bytes)?;
    answers(alloc, SHORT, front, 7, Status::BadInput, &fault)
}

fn fault_of(alloc: Global, front: &[u8]) -> Result<String, Fail> {
    let (line, word) = place_behind(front);
    let fault = match front.len() {
        1..=4 => format!(in alloc; "bad input NotANumber line 1 word 1\n")?,
        _ => format!(in alloc; "bad input Ended line {line} word {word}\n")?,
    };
    Ok(fault)
}

#[test]
fn names_the_end_of_each_prefix(rt: HostRuntime) -> Result<(), Fail> {
    for len in 0..TWO_SITES.len() {
        assert!(rt; ends_where_it_is_cut(rt.alloc(), len)?, "at {len}");
    }
    Ok(())
}
