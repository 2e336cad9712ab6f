//! Centers of three vertices in a row: the first is 4 from the second, and that 7 from the third.
ghost use Rattle.std.specs.Prelude.{◌<◌};

use memory_runs::{Calls, NETWORK, Outcome, Row, Status, WIDTHS, Writing, ran};
use std::alloc::{AllocError, Global};
use std::test::Fail;

// What stood in the three files before.
const OLD: &str = "of an earlier day\n";

const MIDDLE: &str =
    "dualoc-center 1\nradius 7.000000\nsite 2 0.000000\nserve 1 2 4.000000\nserve 2 2 0.000000\nserve 3 2 7.000000\nend\n";

const BELOW_SEVEN: &str =
    "dualoc-instance 1\nsites 3 next 4\ncustomers 3 next 4\ncount 1 1\ncustomer 1 0.000000\ncustomer 2 0.000000\ncustomer 3 0.000000\nsite 1 0.000000 none 0.000000 4.000000 none\nsite 2 0.000000 none 4.000000 0.000000 none\nsite 3 0.000000 none none none 0.000000\nend\n";

const NO_PLAN: &str = "dualoc-center 1\ninfeasible\nend\n";

// Nothing is written for these words.
const REFUSED: [(&str, Status, &str); 9] = [
    ("center pmed a p c", Status::Usage, "usage\n"),
    ("center pmed a p c p", Status::Usage, "usage\n"),
    ("center pmed a p c c", Status::Usage, "usage\n"),
    ("center pmed a p c a", Status::Usage, "usage\n"),
    ("center pmed a p c n count=02", Status::Usage, "usage\n"),
    ("center pmed a p c n count=3001", Status::Usage, "usage\n"),
    (
        "center pmed a p c n count=1 count=1",
        Status::Usage,
        "usage\n",
    ),
    (
        "center pmed a p c n budget=3333334",
        Status::TooLarge,
        "too large budget\n",
    ),
    ("center pmed b p c n", Status::ReadFault, "read fault\n"),
];

const ONE_SITE: Writing<'static> = Writing {
    words: "center pmed a p c n",
    files: &[("a", NETWORK), ("p", OLD), ("c", OLD), ("n", OLD)],
    input: "",
    written: &["p", "c", "n"],
    unwritten: (Status::WriteFault, "write fault\n"),
};

// A run over the network and old files of a result.
fn sought(alloc: Global, words: &str, width: usize) -> Result<Outcome, AllocError>
    requires { 0 < width }
{
    let files = [("a", NETWORK), ("p", OLD), ("c", OLD), ("n", OLD)];
    ran(alloc, words, &files, b"", Calls::sound(width))
}

// Whether a check of the certificate against the new instance says that no plan is feasible.
fn is_shown(alloc: Global, found: &Outcome) -> Result<bool, Fail> {
    let files = [("n", found.file("n")), ("c", found.file("c"))];
    let texts = ["yes infeasible\n"];
    let row = Row::keeping("check own n c", &files, Status::Done, &texts);
    Ok(row.is_met(alloc, Calls::sound(65_536))?)
}

#[test]
fn finds_the_vertex_in_the_middle(rt: HostRuntime) -> Result<(), Fail> {
    let alloc = rt.alloc();
    for width in WIDTHS {
        let found = sought(alloc, "center pmed a p c n", width)?;
        assert!(rt;
            found.is(Status::Done, "center 7.000000\n"),
            "width {width}"
        );
        assert!(rt; found.leaves(&[("a", NETWORK), ("p", MIDDLE), ("n", BELOW_SEVEN)]));
        assert!(rt; is_shown(alloc, &found)?);
    }
    Ok(())
}

#[test]
fn finds_centers_of_two_vertices(rt: HostRuntime) -> Result<(), Fail> {
    let alloc = rt.alloc();
    let found = sought(alloc, "center pmed a p c n count=2", 7)?;
    assert!(rt; found.is(Status::Done, "center 4.000000\n"));
    assert!(rt; is_shown(alloc, &found)?);
    Ok(())
}

#[test]
fn shows_that_four_of_three_cannot_open(rt: HostRuntime) -> Result<(), Fail> {
    let alloc = rt.alloc();
    let found = sought(alloc, "center pmed a p c n budget=5 count=4", 7)?;
    assert!(rt; found.is(Status::Infeasible, "infeasible\n"));
    assert!(rt; found.holds("p", NO_PLAN));
    assert!(rt; is_shown(alloc, &found)?);
    Ok(())
}

#[test]
fn refuses_before_anything_is_written(rt: HostRuntime) -> Result<(), Fail> {
    let kept = [("a", NETWORK), ("p", OLD), ("c", OLD), ("n", OLD)];
    for (words, status, text) in REFUSED {
        let found = sought(rt.alloc(), words, 65_536)?;
        assert!(rt; found.is(status, text) && found.leaves(&kept), "{words}");
    }
    Ok(())
}

#[test]
fn leaves_fronts_at_each_failing_call(rt: HostRuntime) -> Result<(), Fail> {
    for width in WIDTHS {
        assert!(rt;
            ONE_SITE.survives_calls(rt.alloc(), width)?,
            "width {width}"
        );
    }
    Ok(())
}

#[test]
fn leaves_whole_files_at_each_failing_write(rt: HostRuntime) -> Result<(), Fail> {
    let alloc = rt.alloc();
    let whole = ONE_SITE.run(alloc, Calls::sound(7))?;
    let row = Row {
        words: ONE_SITE.words,
        files: ONE_SITE.files,
        input: "",
        status: Status::Done,
        texts: &["center 7.000000\n"],
        left: &[
            ("p", whole.file("p")),
            ("c", whole.file("c")),
            ("n", whole.file("n")),
        ],
    };
    for width in WIDTHS {
        let is_cut = row.survives_writes(alloc, width, Status::WriteFault)?;
        assert!(rt; is_cut, "width {width}");
    }
    Ok(())
}
