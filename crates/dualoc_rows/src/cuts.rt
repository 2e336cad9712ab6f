//! Runs of both forms of `solve` one of whose calls fails.
use crate::rows::SHORT;
use crate::solves::{LINE, LONG, solved};
use memory_runs::{Calls, Outcome, Row, Status, TWO_SITES, TWO_SITES_PLAN, WIDTHS, calls_for};
use std::alloc::Global;
use std::test::Fail;

const SOLVED: Row<'static> = Row {
    words: SHORT,
    files: &[("a", TWO_SITES)],
    input: "",
    status: Status::Done,
    texts: &[TWO_SITES_PLAN],
    left: &[("a", TWO_SITES)],
};

const NO_COMMAND: Row<'static> = Row {
    words: "",
    files: &[],
    input: "",
    status: Status::Usage,
    texts: &["usage\n"],
    left: &[],
};

const EMPTY_FILE: Row<'static> = Row {
    words: SHORT,
    files: &[("a", "")],
    input: "",
    status: Status::BadInput,
    texts: &["bad input Ended line 1 word 1\n"],
    left: &[],
};

#[test]
fn survives_each_failing_read(rt: HostRuntime) -> Result<(), Fail> {
    for width in WIDTHS {
        assert!(rt; SOLVED.survives_reads(rt.alloc(), width)?, "width {width}");
    }
    Ok(())
}

#[test]
fn stops_at_each_failing_write(rt: HostRuntime) -> Result<(), Fail> {
    for width in WIDTHS {
        let is_cut = SOLVED.survives_writes(rt.alloc(), width, Status::WriteFault)?;
        assert!(rt; is_cut, "width {width}");
    }
    Ok(())
}

// A line that is no result keeps its status where a write of it fails.
#[test]
fn keeps_the_status_of_a_line_that_is_cut(rt: HostRuntime) -> Result<(), Fail> {
    assert!(rt; NO_COMMAND.survives_writes(rt.alloc(), 2, Status::Usage)?);
    assert!(rt; EMPTY_FILE.survives_writes(rt.alloc(), 2, Status::BadInput)?);
    Ok(())
}

// Whether a run of which a call of the shelf failed ended as it may, where whole runs leave this certificate.
fn is_cut_short(found: &Outcome, certificate: &str) -> bool {
    if found.status == Status::ReadFault {
        return found.is(Status::ReadFault, "read fault\n")
            && found.holds("p", "")
            && found.holds("c", "");
    }
    let is_plan = found.holds("p", TWO_SITES_PLAN);
    found.is(Status::WriteFault, "write fault\n")
        && TWO_SITES_PLAN.starts_with(found.file("p"))
        && certificate.starts_with(found.file("c"))
        && (is_plan || found.holds("c", ""))
}

// By pieces of 64 bytes the instance takes 2 reads, the last at the end, and each file one call to begin it
// and two to fill it.
fn is_done_or_cut(alloc: Global, call: u64, certificate: &str) -> Result<bool, Fail> {
    let found = solved(alloc, LONG, TWO_SITES, Calls::failing_shelf(64, call))?;
    Ok(if call > 8 {
        found.is(Status::Done, LINE)
    } else {
        is_cut_short(&found, certificate)
    })
}

fn survives(alloc: Global, calls: u64) -> Result<bool, Fail> {
    let whole = solved(alloc, LONG, TWO_SITES, Calls::sound(64))?;
    let mut is_sound = true;
    for call in 1..calls {
        is_sound = is_sound && is_done_or_cut(alloc, call, whole.file("c"))?;
    }
    Ok(is_sound)
}

#[test]
fn leaves_fronts_at_each_failing_call(rt: HostRuntime) -> Result<(), Fail> {
    assert!(rt; survives(rt.alloc(), 12)?);
    Ok(())
}

// Whether a run whose write of this number failed leaves whole files and a front of its line.
fn is_cut(alloc: Global, call: u64) -> Result<bool, Fail> {
    let found = solved(alloc, LONG, TWO_SITES, Calls::failing_out(7, call))?;
    let is_whole = call > calls_for(LINE.len(), 7);
    let due = if is_whole {
        Status::Done
    } else {
        Status::WriteFault
    };
    let written = found.text().len() as u64;
    Ok(
        found.status == due
            && LINE.as_bytes().starts_with(found.text())
            && written == (LINE.len() as u64).min(call.saturating_sub(1).saturating_mul(7))
            && found.holds("p", TWO_SITES_PLAN)
            && !found.file("c").is_empty(),
    )
}

#[test]
fn leaves_whole_files_at_each_failing_write(rt: HostRuntime) -> Result<(), Fail> {
    for call in 1..6 {
        assert!(rt; is_cut(rt.alloc(), call)?, "write {call}");
    }
    Ok(())
}
