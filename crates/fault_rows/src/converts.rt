//! Conversions to the suite's own form.
use memory_runs::{Row, Status, TWO_SITES, TWO_SITES_OWN, WIDTHS, Writing};
use std::test::Fail;

// What stood in the new file before.
const OLD: &str = "of an earlier day\n";

const CONVERTED: Writing<'static> = Writing {
    words: "convert ufl a n",
    files: &[("a", TWO_SITES), ("n", OLD)],
    input: "",
    written: &["n"],
    unwritten: (Status::WriteFault, "write fault\n"),
};

const PRINTED: Row<'static> = Row {
    words: "convert ufl a n",
    files: &[("a", TWO_SITES), ("n", OLD)],
    input: "",
    status: Status::Done,
    texts: &["converted sites 2 customers 3\n"],
    left: &[("a", TWO_SITES), ("n", TWO_SITES_OWN)],
};

#[test]
fn leaves_a_front_at_each_failing_call(rt: HostRuntime) -> Result<(), Fail> {
    for width in WIDTHS {
        assert!(rt;
            CONVERTED.survives_calls(rt.alloc(), width)?,
            "width {width}"
        );
    }
    Ok(())
}

#[test]
fn leaves_the_whole_text_at_each_failing_write(rt: HostRuntime) -> Result<(), Fail> {
    for width in WIDTHS {
        let is_cut = PRINTED.survives_writes(rt.alloc(), width, Status::WriteFault)?;
        assert!(rt; is_cut, "width {width}");
    }
    Ok(())
}
