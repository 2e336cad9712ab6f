//! Runs one of whose calls fails, each in turn.
ghost use Rattle.std.specs.Prelude.{◌<◌};

use crate::files::{BRACKET, CERTIFICATE};
use memory_runs::{Row, Status, TWO_SITES, WIDTHS};
use std::alloc::{AllocError, Global};
use std::test::Fail;

const RANGED: Row<'static> = Row {
    words: "range ufl a k site 1",
    files: &[("a", TWO_SITES), ("k", CERTIFICATE)],
    input: "",
    status: Status::Done,
    texts: &["range 0.000000 10.000000\n"],
    left: &[("a", TWO_SITES), ("k", CERTIFICATE)],
};

const REFUSED: Row<'static> = Row {
    words: "range ufl a k lane 1 4",
    files: &[("a", TWO_SITES), ("k", CERTIFICATE)],
    input: "",
    status: Status::Refused,
    texts: &["refused NoCustomer\n"],
    left: &[("a", TWO_SITES), ("k", CERTIFICATE)],
};

const NO_OPTIMUM: Row<'static> = Row {
    words: "range ufl a k site 1",
    files: &[("a", TWO_SITES), ("k", BRACKET)],
    input: "",
    status: Status::CheckNo,
    texts: &["no OptimalClaim\n"],
    left: &[("a", TWO_SITES), ("k", BRACKET)],
};

// What the output cuts is no result, and no refusal either.
fn survive_writes(alloc: Global, width: usize) -> Result<bool, AllocError>
    requires { 0 < width }
{
    Ok(
        RANGED.survives_writes(alloc, width, Status::WriteFault)?
            && REFUSED.survives_writes(alloc, width, Status::WriteFault)?
            && NO_OPTIMUM.survives_writes(alloc, width, Status::WriteFault)?,
    )
}

#[test]
fn survives_each_failing_read(rt: HostRuntime) -> Result<(), Fail> {
    for width in WIDTHS {
        assert!(rt; RANGED.survives_reads(rt.alloc(), width)?, "width {width}");
    }
    Ok(())
}

#[test]
fn stops_at_each_failing_write(rt: HostRuntime) -> Result<(), Fail> {
    for width in WIDTHS {
        assert!(rt; survive_writes(rt.alloc(), width)?, "width {width}");
    }
    Ok(())
}
