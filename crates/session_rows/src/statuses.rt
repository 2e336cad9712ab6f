//! Sites that must be open or must stay closed.
use crate::edits::answers;
use memory_runs::{Calls, RING, Row, Status, TWO_SITES};
use std::test::Fail;

const ROWS: [(&str, &str, &str); 3] = [
    (
        TWO_SITES,
        "status 2 open\nsolve\nstatus 1 closed\nsolve\nstatus 2 closed\nsolve\nundo\nundo\nundo\nsolve\n",
        "ok\noptimal 26.000000 made 0 nodes 1\nok\noptimal 28.000000 made 0 nodes 1\nok\ninfeasible made 0 nodes 1\nok\nok\nok\noptimal 22.000000 made 0 nodes 1\n",
    ),
    (
        RING,
        "solve\nfixed 1 10\nstatus 1 open\nsolve 0\n",
        "optimal 4.000000 made 2 nodes 3\nok\nok\noptimal 12.000000 made 0 nodes 3\n",
    ),
    (
        TWO_SITES,
        "status 9 open\nstatus 1 maybe\nstatus 1\nstatus 1 free\nundo\nundo\n",
        "refused NoSite\nrefused BadCommand\nrefused BadCommand\nok\nok\nrefused NothingToUndo\n",
    ),
];

#[test]
fn sets_statuses(rt: HostRuntime) -> Result<(), Fail> {
    for (file, lines, replies) in ROWS {
        assert!(rt;
            answers(rt.alloc(), "session ufl a", file, lines, replies)?,
            "{lines}"
        );
    }
    Ok(())
}

const LEASED: &str =
    "dualoc-instance 2\nsites 2 next 3\ncustomers 3 next 4\ncount 0 3000\ncustomer 1 0.000000\ncustomer 2 0.000000\ncustomer 3 0.000000\nsite 1 10.000000 none free 1.000000 2.000000 9.000000\nsite 2 12.000000 none open 8.000000 7.000000 1.000000\nend\n";

const SAVED: Row<'static> = Row {
    words: "session ufl a",
    files: &[("a", TWO_SITES)],
    input: "status 2 open\nsave n\n",
    status: Status::Done,
    texts: &["ok\n", "ok\n"],
    left: &[("a", TWO_SITES), ("n", LEASED)],
};

const REOPENED: Row<'static> = Row {
    words: "session own n",
    files: &[("n", LEASED)],
    input: "solve\n",
    status: Status::Done,
    texts: &["optimal 26.000000 made 0 nodes 1\n"],
    left: &[("n", LEASED)],
};

#[test]
fn saves_statuses(rt: HostRuntime) -> Result<(), Fail> {
    assert!(rt; SAVED.is_met(rt.alloc(), Calls::sound(7))?);
    assert!(rt; REOPENED.is_met(rt.alloc(), Calls::sound(7))?);
    Ok(())
}
