//! Sessions.
ghost use Rattle.std.specs.Prelude.{◌<◌};

use memory_runs::{
    Calls, Outcome, Row, Status, TWO_SITES, TWO_SITES_OWN, WIDTHS, Writing, calls_for, ran,
};
use std::alloc::Global;
use std::test::Fail;

const SESSION: &str = "session ufl a";

const LINE: &str = "optimal 22.000000 made 0 nodes 1\n";

const REFUSED: &str = "refused WriteFailed\n";

const CERTIFIED: Writing<'static> = Writing {
    words: SESSION,
    files: &[("a", TWO_SITES), ("k", "of an earlier day\n")],
    input: "solve\ncert k\nquit\n",
    written: &["k"],
    unwritten: (
        Status::Done,
        "optimal 22.000000 made 0 nodes 1\nrefused WriteFailed\n",
    ),
};

const SAVED: Writing<'static> = Writing {
    words: SESSION,
    files: &[("a", TWO_SITES), ("n", "of an earlier day\n")],
    input: "save n\nquit\n",
    written: &["n"],
    unwritten: (Status::Done, REFUSED),
};

#[test]
fn leaves_a_front_at_each_failing_call(rt: HostRuntime) -> Result<(), Fail> {
    for width in WIDTHS {
        assert!(rt;
            CERTIFIED.survives_calls(rt.alloc(), width)?,
            "width {width}"
        );
        assert!(rt; SAVED.survives_calls(rt.alloc(), width)?, "width {width}");
    }
    Ok(())
}

// A session that writes its certificate twice.
fn written_twice(alloc: Global, calls: Calls) -> Result<Outcome, Fail>
    requires { 0 < calls.width }
{
    let lines = b"solve\ncert k\ncert k\nquit\n";
    Ok(ran(alloc, SESSION, &[("a", TWO_SITES)], lines, calls)?)
}

// Whether a call of the first writing failed, and the second one wrote the certificate whole.
fn is_mended(alloc: Global, calls: Calls, certificate: &str) -> Result<bool, Fail>
    requires { 0 < calls.width }
{
    let found = written_twice(alloc, calls)?;
    Ok(found.prints(Status::Done, &[LINE, REFUSED, "ok\n"]) && found.holds("k", certificate))
}

// Whether a check of the certificate says yes.
fn says_yes(alloc: Global, certificate: &str) -> Result<bool, Fail> {
    let (files, texts) = (
        [("a", TWO_SITES), ("k", certificate)],
        ["yes optimal 22.000000\n"],
    );
    let row = Row::keeping("check ufl a k", &files, Status::Done, &texts);
    Ok(row.is_met(alloc, Calls::sound(65_536))?)
}

// Whether each failing call of the first writing is mended by the second one, where one call moves so many bytes at most. A
// writing makes at most one call for each byte of the certificate, and one more, behind the reads of the instance.
fn mends_each(alloc: Global, width: usize, certificate: &str) -> Result<bool, Fail>
    requires { 0 < width }
{
    let reads = calls_for(TWO_SITES.len(), width).saturating_add(1);
    let mut mended = 0u64;
    for write in 1..(certificate.len() as u64).saturating_add(2) {
        let calls = Calls::failing_shelf(width, reads.saturating_add(write));
        if !is_mended(alloc, calls, certificate)? {
            break;
        }
        mended = write;
    }
    Ok(calls_for(certificate.len(), width) < mended)
}

fn mends(alloc: Global, width: usize) -> Result<bool, Fail>
    requires { 0 < width }
{
    let whole = written_twice(alloc, Calls::sound(width))?;
    Ok(mends_each(alloc, width, whole.file("k"))? && says_yes(alloc, whole.file("k"))?)
}

#[test]
fn writes_again_where_a_call_failed(rt: HostRuntime) -> Result<(), Fail> {
    for width in WIDTHS {
        assert!(rt; mends(rt.alloc(), width)?, "width {width}");
    }
    Ok(())
}

const READ: Row<'static> = Row {
    words: SESSION,
    files: &[("a", TWO_SITES)],
    input: "solve\ncert k\nquit\n",
    status: Status::Done,
    texts: &[LINE, "ok\n", ""],
    left: &[("a", TWO_SITES)],
};

#[test]
fn answers_what_was_read(rt: HostRuntime) -> Result<(), Fail> {
    for width in WIDTHS {
        assert!(rt; READ.survives_input(rt.alloc(), width)?, "width {width}");
    }
    Ok(())
}

// Whether a session whose read of the input of this number failed has written its instance where that line was read
// before, and hasn't else.
fn saves_what_was_read(alloc: Global, width: usize, call: u64) -> Result<bool, Fail>
    requires { 0 < width }
{
    let lines = "undo\nsave n\nundo\n";
    let calls = Calls::failing_input(width, call);
    let found = ran(alloc, SESSION, &[("a", TWO_SITES)], lines.as_bytes(), calls)?;
    let is_read = calls_for("undo\nsave n\n".len(), width) < call;
    let left = if is_read { TWO_SITES_OWN } else { "" };
    Ok(found.holds("n", left))
}

#[test]
fn writes_what_was_read(rt: HostRuntime) -> Result<(), Fail> {
    for width in WIDTHS {
        for call in 1..19 {
            assert!(rt;
                saves_what_was_read(rt.alloc(), width, call)?,
                "read {call}"
            );
        }
    }
    Ok(())
}

const SOLVED: Row<'static> = Row {
    words: SESSION,
    files: &[("a", TWO_SITES)],
    input: "solve\nfixed 1 30\nsolve 0\nundo\nsolve 0\n",
    status: Status::Done,
    texts: &[
        LINE,
        "ok\n",
        "optimal 28.000000 made 0 nodes 1\n",
        "ok\n",
        LINE,
    ],
    left: &[("a", TWO_SITES)],
};

#[test]
fn stops_at_each_failing_write(rt: HostRuntime) -> Result<(), Fail> {
    for width in WIDTHS {
        let is_cut = SOLVED.survives_writes(rt.alloc(), width, Status::WriteFault)?;
        assert!(rt; is_cut, "width {width}");
    }
    Ok(())
}

// Whether a session whose write of this number failed has written its instance where the reply before was printed whole,
// and hasn't else.
fn saves_behind_what_was_printed(alloc: Global, width: usize, call: u64) -> Result<bool, Fail>
    requires { 0 < width }
{
    let calls = Calls::failing_out(width, call);
    let found = ran(
        alloc,
        SESSION,
        &[("a", TWO_SITES)],
        b"solve\nsave n\n",
        calls,
    )?;
    let is_printed = calls_for(LINE.len(), width) < call;
    let left = if is_printed { TWO_SITES_OWN } else { "" };
    Ok(found.holds("n", left))
}

#[test]
fn writes_nothing_behind_a_refused_reply(rt: HostRuntime) -> Result<(), Fail> {
    for width in WIDTHS {
        for call in 1..40 {
            assert!(rt;
                saves_behind_what_was_printed(rt.alloc(), width, call)?,
                "write {call}"
            );
        }
    }
    Ok(())
}
