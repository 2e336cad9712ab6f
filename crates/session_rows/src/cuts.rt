//! A short session one of whose calls fails.
use memory_runs::{Row, Status, TWO_SITES};
use std::test::Fail;

const OTHER_PLAN: &str =
    "dualoc-plan 1\noptimal 28.000000\nsite 2 12.000000\nserve 1 2 8.000000\nserve 2 2 7.000000\nserve 3 2 1.000000\nend\n";

const SHORT: Row<'static> = Row {
    words: "session ufl a",
    files: &[("a", TWO_SITES)],
    input: "fixed 1 30\n\nsolve\nanswer\nundo\nundo\n",
    status: Status::Done,
    texts: &[
        "ok\n",
        "",
        "optimal 28.000000 made 0 nodes 1\n",
        OTHER_PLAN,
        "ok\n",
        "refused NothingToUndo\n",
    ],
    left: &[("a", TWO_SITES)],
};

#[test]
fn survives_each_failing_read(rt: HostRuntime) -> Result<(), Fail> {
    assert!(rt; SHORT.survives_reads(rt.alloc(), 7)?);
    assert!(rt; SHORT.survives_reads(rt.alloc(), 65_536)?);
    Ok(())
}

// The lines that were read before are answered.
#[test]
fn answers_what_was_read(rt: HostRuntime) -> Result<(), Fail> {
    assert!(rt; SHORT.survives_input(rt.alloc(), 7)?);
    assert!(rt; SHORT.survives_input(rt.alloc(), 65_536)?);
    Ok(())
}

#[test]
fn stops_at_each_failing_write(rt: HostRuntime) -> Result<(), Fail> {
    assert!(rt; SHORT.survives_writes(rt.alloc(), 7, Status::WriteFault)?);
    assert!(rt; SHORT.survives_writes(rt.alloc(), 65_536, Status::WriteFault)?);
    Ok(())
}
