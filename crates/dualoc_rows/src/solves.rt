//! The long form of `solve`, which leaves a plan and its certificate.
ghost use Rattle.std.specs.Prelude.{◌<◌};

use memory_runs::{Calls, Outcome, RING, Row, Status, TWO_SITES, TWO_SITES_PLAN, WIDTHS, ran};
use std::alloc::{AllocError, Global};
use std::test::Fail;

// One site for 12, both for 4.
const BOTH_SITES: &str = "2 3 0\n1 2 0 0 10\n2 2 0 10 0\n";

pub(crate) const LONG: &str = "solve ufl a p c";

pub(crate) const LINE: &str = "optimal 22.000000 nodes 1\n";

const YES: &str = "yes optimal 22.000000\n";

// What stood in the files of the plan and of the certificate before.
const OLD: &str = "of an earlier day\n";

// Words over the file of the two sites that are answered before anything is written.
const REFUSED: [(&str, Status, &str); 17] = [
    ("solve ufl a p p", Status::Usage, "usage\n"),
    ("solve ufl a a c", Status::Usage, "usage\n"),
    ("solve ufl a p a", Status::Usage, "usage\n"),
    ("solve ufl a  c", Status::Usage, "usage\n"),
    ("solve xyz a p c", Status::Usage, "usage\n"),
    ("solve ufl a p", Status::Usage, "usage\n"),
    ("solve ufl a budget=3", Status::Usage, "usage\n"),
    ("solve ufl a p c d", Status::Usage, "usage\n"),
    ("solve ufl a p c budget=", Status::Usage, "usage\n"),
    ("solve ufl a p c budget=01", Status::Usage, "usage\n"),
    ("solve ufl a p c budget=+3", Status::Usage, "usage\n"),
    (
        "solve ufl a p c budget=4294967296",
        Status::Usage,
        "usage\n",
    ),
    (
        "solve ufl a p c budget=3 budget=3",
        Status::Usage,
        "usage\n",
    ),
    ("solve ufl a p c capacity=3", Status::Usage, "usage\n"),
    (
        "solve ufl a p c budget=4294967295",
        Status::TooLarge,
        "too large budget\n",
    ),
    (
        "solve ufl a p c budget=4000001",
        Status::TooLarge,
        "too large budget\n",
    ),
    ("solve ufl b p c", Status::ReadFault, "read fault\n"),
];

// A run over the file `a`.
pub(crate) fn solved(
    alloc: Global,
    words: &str,
    instance: &str,
    calls: Calls,
) -> Result<Outcome, AllocError>
    requires { 0 < calls.width }
{
    ran(alloc, words, &[("a", instance)], b"", calls)
}

// A run over the file of the two sites and old files `p` and `c`.
fn solved_anew(alloc: Global, words: &str, width: usize) -> Result<Outcome, AllocError>
    requires { 0 < width }
{
    let files = [("a", TWO_SITES), ("p", OLD), ("c", OLD)];
    ran(alloc, words, &files, b"", Calls::sound(width))
}

// Whether a check of the certificate prints this line.
fn shows<'x>(
    alloc: Global,
    instance: &'x str,
    certificate: &'x str,
    line: &'x str,
) -> Result<bool, Fail> {
    let (files, texts) = ([("a", instance), ("c", certificate)], [line]);
    let row = Row::keeping("check ufl a c", &files, Status::Done, &texts);
    Ok(row.is_met(alloc, Calls::sound(7))?)
}

fn leaves_both(alloc: Global, width: usize) -> Result<bool, Fail>
    requires { 0 < width }
{
    let found = solved_anew(alloc, LONG, width)?;
    Ok(
        found.is(Status::Done, LINE)
            && found.holds("p", TWO_SITES_PLAN)
            && shows(alloc, TWO_SITES, found.file("c"), YES)?,
    )
}

#[test]
fn leaves_a_plan_and_its_certificate(rt: HostRuntime) -> Result<(), Fail> {
    for width in WIDTHS {
        assert!(rt; leaves_both(rt.alloc(), width)?);
    }
    Ok(())
}

fn refuses<'x>(alloc: Global, words: &'x str, status: Status, text: &'x str) -> Result<bool, Fail> {
    let (files, texts) = ([("a", TWO_SITES), ("p", OLD), ("c", OLD)], [text]);
    let row = Row::keeping(words, &files, status, &texts);
    Ok(row.is_met(alloc, Calls::sound(7))?)
}

#[test]
fn refuses_before_it_writes(rt: HostRuntime) -> Result<(), Fail> {
    for (words, status, text) in REFUSED {
        assert!(rt; refuses(rt.alloc(), words, status, text)?);
    }
    Ok(())
}

// Whether a search of this instance by these words prints this line, and its certificate another.
fn finds(
    alloc: Global,
    words: &str,
    instance: &str,
    line: &str,
    claim: &str,
) -> Result<bool, Fail> {
    let found = solved(alloc, words, instance, Calls::sound(7))?;
    Ok(found.is(Status::Done, line) && shows(alloc, instance, found.file("c"), claim)?)
}

#[test]
fn takes_the_greatest_budget(rt: HostRuntime) -> Result<(), Fail> {
    let words = "solve ufl a p c budget=4000000";
    assert!(rt; finds(rt.alloc(), words, TWO_SITES, LINE, YES)?);
    Ok(())
}

// The low end of a bracket of the ring, in a line that begins and ends so.
fn low_of<'a>(line: &'a [u8], front: &[u8], end: &[u8]) -> &'a [u8] {
    match line.strip_prefix(front) {
        Some(rest) => rest.strip_suffix(end).unwrap_or_default(),
        None => b"",
    }
}

fn is_low(low: &[u8]) -> bool {
    low.len() == 8 && low >= b"2.000000".as_slice() && low <= b"3.000000".as_slice()
}

// Whether a check of the certificate shows a bracket of the ring with this low end.
fn shows_bracket(alloc: Global, certificate: &str, low: &[u8]) -> Result<bool, Fail> {
    let (files, words) = ([("a", RING), ("c", certificate)], "check ufl a c");
    let shown = ran(alloc, words, &files, b"", Calls::sound(7))?;
    let known = low_of(shown.text(), b"yes bracket ", b" 4.000000\n");
    Ok(shown.status == Status::Done && known == low)
}

fn comes_to_a_bracket(alloc: Global, words: &str) -> Result<bool, Fail> {
    let found = solved(alloc, words, RING, Calls::sound(7))?;
    let low = low_of(found.text(), b"bracket ", b" 4.000000 nodes 1 budget 1\n");
    Ok(
        found.status == Status::Bracket
            && is_low(low)
            && shows_bracket(alloc, found.file("c"), low)?,
    )
}

#[test]
fn ends_with_a_bracket_within_one_node(rt: HostRuntime) -> Result<(), Fail> {
    let words = "solve ufl a p c budget=1";
    assert!(rt; comes_to_a_bracket(rt.alloc(), words)?);
    Ok(())
}

#[test]
fn splits_within_its_budget(rt: HostRuntime) -> Result<(), Fail> {
    let (line, yes) = ("optimal 4.000000 nodes 3\n", "yes optimal 4.000000\n");
    let two = "solve ufl a p c budget=2";
    assert!(rt; finds(rt.alloc(), &two, RING, line, yes)?);
    let three = "solve ufl a p c budget=3";
    assert!(rt; finds(rt.alloc(), &three, RING, line, yes)?);
    Ok(())
}

#[test]
fn closes_the_root_where_adjusted_duals_do(rt: HostRuntime) -> Result<(), Fail> {
    let (line, yes) = ("optimal 4.000000 nodes 1\n", "yes optimal 4.000000\n");
    assert!(rt; finds(rt.alloc(), LONG, BOTH_SITES, line, yes)?);
    Ok(())
}
