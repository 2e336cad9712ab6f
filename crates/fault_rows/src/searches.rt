//! Searches that leave a plan and a certificate.
ghost use Rattle.std.specs.Prelude.{◌<◌};

use memory_runs::{Calls, RING, Row, Status, TWO_SITES, WIDTHS, Writing};
use std::alloc::Global;
use std::test::Fail;

// What stood in the files of the plan and of the certificate before.
const OLD: &str = "of an earlier day\n";

const ON_TWO_SITES: Writing<'static> = Writing {
    words: "solve ufl a p c",
    files: &[("a", TWO_SITES), ("p", OLD), ("c", OLD)],
    input: "",
    written: &["p", "c"],
    unwritten: (Status::WriteFault, "write fault\n"),
};

// The certificate has a tree of three nodes.
const ON_THE_RING: Writing<'static> = Writing {
    words: "solve ufl a p c",
    files: &[("a", RING), ("p", OLD), ("c", OLD)],
    input: "",
    written: &["p", "c"],
    unwritten: (Status::WriteFault, "write fault\n"),
};

#[test]
fn leaves_fronts_at_each_failing_call(rt: HostRuntime) -> Result<(), Fail> {
    for width in WIDTHS {
        assert!(rt;
            ON_TWO_SITES.survives_calls(rt.alloc(), width)?,
            "width {width}"
        );
    }
    Ok(())
}

#[test]
fn leaves_fronts_of_a_tree_at_each_failing_call(rt: HostRuntime) -> Result<(), Fail> {
    for width in WIDTHS {
        assert!(rt;
            ON_THE_RING.survives_calls(rt.alloc(), width)?,
            "width {width}"
        );
    }
    Ok(())
}

// Whether each failing write of the line, by calls of this width, leaves a front of it, and both files whole.
fn prints_fronts(
    alloc: Global,
    search: &Writing<'static>,
    line: &str,
    width: usize,
) -> Result<bool, Fail>
    requires { 0 < width }
{
    let whole = search.run(alloc, Calls::sound(width))?;
    let row = Row {
        words: search.words,
        files: search.files,
        input: search.input,
        status: Status::Done,
        texts: &[line],
        left: &[("p", whole.file("p")), ("c", whole.file("c"))],
    };
    Ok(row.survives_writes(alloc, width, Status::WriteFault)?)
}

#[test]
fn leaves_whole_files_at_each_failing_write(rt: HostRuntime) -> Result<(), Fail> {
    let (one, three) = ("optimal 22.000000 nodes 1\n", "optimal 4.000000 nodes 3\n");
    for width in WIDTHS {
        assert!(rt; prints_fronts(rt.alloc(), &ON_TWO_SITES, one, width)?);
        assert!(rt; prints_fronts(rt.alloc(), &ON_THE_RING, three, width)?);
    }
    Ok(())
}
