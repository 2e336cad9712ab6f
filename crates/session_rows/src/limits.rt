//! Long lines.
use memory_runs::{Calls, Outcome, Status, TWO_SITES, ran};
use std::alloc::Global;
use std::test::Fail;

// How many bytes a line may have.
const MAX_LINE: usize = 1_048_576;

// A session whose second line has so many blanks, and then undoes.
fn with_blanks(alloc: Global, count: usize) -> Result<Outcome, Fail> {
    let mut lines = Vec::from_slice(alloc, b"fixed 1 30\n")?;
    let blanks = vec![in alloc; b' '; count]?;
    lines.extend_from_slice(&blanks)?;
    lines.extend_from_slice(b"\nundo\n")?;
    let calls = Calls::sound(65_536);
    Ok(ran(alloc, "session ufl a", &[("a", TWO_SITES)], &lines, calls)?)
}

fn passes_over(alloc: Global, count: usize) -> Result<bool, Fail> {
    let found = with_blanks(alloc, count)?;
    Ok(found.is(Status::Done, "ok\nok\n"))
}

fn is_too_large(alloc: Global, count: usize) -> Result<bool, Fail> {
    let found = with_blanks(alloc, count)?;
    Ok(found.is(Status::TooLarge, "ok\ntoo large line\n"))
}

#[test]
fn passes_over_a_line_of_the_greatest_length(rt: HostRuntime) -> Result<(), Fail> {
    assert!(rt; passes_over(rt.alloc(), MAX_LINE)?);
    Ok(())
}

#[test]
fn stops_at_a_line_that_is_too_long(rt: HostRuntime) -> Result<(), Fail> {
    assert!(rt; is_too_large(rt.alloc(), MAX_LINE + 1)?);
    Ok(())
}
