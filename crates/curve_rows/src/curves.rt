//! What each number of medians of three vertices costs.
use memory_runs::{Calls, NETWORK, Outcome, Row, Status, WIDTHS, ran};
use std::test::Fail;

const LINES: [&str; 4] = [
    "count 1 optimal 11.000000\n",
    "count 2 optimal 4.000000\n",
    "count 3 optimal 0.000000\n",
    "count 4 infeasible\n",
];

const CURVE: Row<'static> = Row {
    words: "curve pmed a 1 4",
    files: &[("a", NETWORK)],
    input: "",
    status: Status::Done,
    texts: &LINES,
    left: &[("a", NETWORK)],
};

const REFUSED: [(&str, Status, &str); 8] = [
    ("curve pmed a 1", Status::Usage, "usage\n"),
    ("curve pmed a 2 1", Status::Usage, "usage\n"),
    ("curve pmed a 1 3001", Status::Usage, "usage\n"),
    ("curve pmed a 01 2", Status::Usage, "usage\n"),
    ("curve pmed a 1 +2", Status::Usage, "usage\n"),
    ("curve pmed a 1 2 count=1", Status::Usage, "usage\n"),
    (
        "curve pmed a 1 2 budget=3333334",
        Status::TooLarge,
        "too large budget\n",
    ),
    ("curve pmed b 1 2", Status::ReadFault, "read fault\n"),
];

#[test]
fn prints_a_line_for_each_number(rt: HostRuntime) -> Result<(), Fail> {
    for width in WIDTHS {
        assert!(rt;
            CURVE.is_met(rt.alloc(), Calls::sound(width))?,
            "width {width}"
        );
    }
    let one = Row {
        words: "curve pmed a 2 2 budget=0",
        texts: &["count 2 optimal 4.000000\n"],
        ..CURVE
    };
    assert!(rt; one.is_met(rt.alloc(), Calls::sound(7))?);
    Ok(())
}

#[test]
fn survives_each_failing_read(rt: HostRuntime) -> Result<(), Fail> {
    for width in WIDTHS {
        assert!(rt; CURVE.survives_reads(rt.alloc(), width)?, "width {width}");
    }
    Ok(())
}

#[test]
fn stops_at_each_failing_write(rt: HostRuntime) -> Result<(), Fail> {
    for width in WIDTHS {
        let is_cut = CURVE.survives_writes(rt.alloc(), width, Status::WriteFault)?;
        assert!(rt; is_cut, "width {width}");
    }
    Ok(())
}

#[test]
fn refuses_other_words(rt: HostRuntime) -> Result<(), Fail> {
    for (words, status, text) in REFUSED {
        let found: Outcome = ran(
            rt.alloc(),
            words,
            &[("a", NETWORK)],
            b"",
            Calls::sound(65_536),
        )?;
        assert!(rt; found.is(status, text), "{words}");
    }
    Ok(())
}
