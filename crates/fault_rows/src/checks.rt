//! Checks of a certificate.
ghost use Rattle.std.specs.Prelude.{◌<◌};

use memory_runs::{RING, RING_CERTIFICATE, Row, Status, WIDTHS};
use std::alloc::Global;
use std::test::Fail;

const CHECK: &str = "check ufl a k";

const CONFIRMED: Row<'static> = Row {
    words: CHECK,
    files: &[("a", RING), ("k", RING_CERTIFICATE)],
    input: "",
    status: Status::Done,
    texts: &["yes optimal 4.000000\n"],
    left: &[("a", RING), ("k", RING_CERTIFICATE)],
};

// The second leaf offers less than 4.
const OPEN_LEAF: &str =
    "dualoc-certificate 1\nsites 3 customers 3\nclaim optimal 4.000000\nopen 1 3\nserve 1 1 3\nsite 1\nleaf 1 0\nv 2000000 2000000 0\nu\nleaf 1 0\nv 0 0 1000000\nu\nend\n";

// An offer of a hundred digits.
const WIDE_NUMBER: &str =
    "dualoc-certificate 1\nsites 3 customers 3\nclaim optimal 4.000000\nopen 1 3\nserve 1 1 3\nsite 1\nleaf 1 0\nv 2000000 2000000 0\nu\nleaf 1 0\nv 0 0 1000000000000000000000000000000000000000000000000000000000000000000000000000000000000000000000000000\nu\nend\n";

#[test]
fn survives_each_failing_read(rt: HostRuntime) -> Result<(), Fail> {
    for width in WIDTHS {
        assert!(rt;
            CONFIRMED.survives_reads(rt.alloc(), width)?,
            "width {width}"
        );
    }
    Ok(())
}

#[test]
fn stops_at_each_failing_write(rt: HostRuntime) -> Result<(), Fail> {
    for width in WIDTHS {
        let is_cut = CONFIRMED.survives_writes(rt.alloc(), width, Status::WriteFault)?;
        assert!(rt; is_cut, "width {width}");
    }
    Ok(())
}

// Whether a check of this certificate prints this no, whole or, where a write fails, a front of it.
fn says_no<'x>(
    alloc: Global,
    certificate: &'x str,
    line: &'x str,
    width: usize,
) -> Result<bool, Fail>
    requires { 0 < width }
{
    let (files, texts) = ([("a", RING), ("k", certificate)], [line]);
    let row = Row::keeping(CHECK, &files, Status::CheckNo, &texts);
    Ok(row.survives_writes(alloc, width, Status::WriteFault)?)
}

#[test]
fn says_no_at_each_failing_write(rt: HostRuntime) -> Result<(), Fail> {
    for width in WIDTHS {
        let open = "no LeafOpen line 10 bound 3000000 scale 1\n";
        assert!(rt; says_no(rt.alloc(), OPEN_LEAF, open, width)?);
        assert!(rt; says_no(rt.alloc(), WIDE_NUMBER, "no OutOfRange line 11\n", width)?);
    }
    Ok(())
}
