//! Duals of an ascent.
use memory_runs::{Row, Status, TWO_SITES, WIDTHS};
use std::test::Fail;

const RAISED: Row<'static> = Row {
    words: "duals ufl a",
    files: &[("a", TWO_SITES)],
    input: "",
    status: Status::Done,
    texts: &[
        "bound 22.000000\ncustomer 1 8.000000\ncustomer 2 5.000000\ncustomer 3 9.000000\nsite 1 0.000000\nsite 2 4.000000\n",
    ],
    left: &[("a", TWO_SITES)],
};

#[test]
fn survives_each_failing_read(rt: HostRuntime) -> Result<(), Fail> {
    for width in WIDTHS {
        assert!(rt; RAISED.survives_reads(rt.alloc(), width)?, "width {width}");
    }
    Ok(())
}

#[test]
fn stops_at_each_failing_write(rt: HostRuntime) -> Result<(), Fail> {
    for width in WIDTHS {
        let is_cut = RAISED.survives_writes(rt.alloc(), width, Status::WriteFault)?;
        assert!(rt; is_cut, "width {width}");
    }
    Ok(())
}
