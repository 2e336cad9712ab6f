//! What a session prints and writes of a solve.
ghost use Rattle.std.specs.Prelude.{◌<◌};

use crate::edits::answers;
use memory_runs::{Calls, Outcome, Row, Status, TWO_SITES, TWO_SITES_OWN, TWO_SITES_PLAN, ran};
use std::alloc::Global;
use std::test::Fail;

const SESSION: &str = "session ufl a";

const LINE: &str = "optimal 22.000000 made 0 nodes 1\n";

const REPORTED: Row<'static> = Row {
    words: SESSION,
    files: &[("a", TWO_SITES)],
    input: "solve\nanswer\n",
    status: Status::Done,
    texts: &[LINE, TWO_SITES_PLAN],
    left: &[("a", TWO_SITES)],
};

// The answer in its three forms; what stands behind a word of them makes it a word of no command.
const IN_EACH_FORM: Row<'static> = Row {
    words: SESSION,
    files: &[("a", TWO_SITES)],
    input: "table\nsolve\ntable\njson\ntable x\njson 1\nfixed 1 10\njson\n",
    status: Status::Done,
    texts: &[
        "refused Stale\n",
        LINE,
        "site 1 customers 3 load 0.000000 spare none cost 22.000000 share 1000\nend\n",
        "{\"answer\":\"optimal\",\"cost\":\"22.000000\",\"sites\":[{\"customers\":[1,2,3],\"fixed\":\"10.000000\",\"id\":1}]}\n",
        "refused BadCommand\nrefused BadCommand\nok\nrefused Stale\n",
    ],
    left: &[("a", TWO_SITES)],
};

// A warehouse that holds either of two customers, and not both.
const NO_PLAN: Row<'static> = Row {
    words: "session cap a",
    files: &[("a", "1 2\n10 3\n6 1\n6 1\n")],
    input: "solve\njson\ntable\n",
    status: Status::Done,
    texts: &[
        "infeasible made 2 nodes 3\n",
        "{\"answer\":\"infeasible\"}\nend\n",
    ],
    left: &[("a", "1 2\n10 3\n6 1\n6 1\n")],
};

const SAVED: Row<'static> = Row {
    words: SESSION,
    files: &[("a", TWO_SITES), ("n", "of an earlier day\n")],
    input: "save n\n",
    status: Status::Done,
    texts: &["ok\n"],
    left: &[("a", TWO_SITES), ("n", TWO_SITES_OWN)],
};

#[test]
fn prints_its_answer(rt: HostRuntime) -> Result<(), Fail> {
    assert!(rt; REPORTED.is_met(rt.alloc(), Calls::sound(7))?);
    Ok(())
}

#[test]
fn shows_its_answer_in_each_form(rt: HostRuntime) -> Result<(), Fail> {
    assert!(rt;
        IN_EACH_FORM.is_met(rt.alloc(), Calls::sound(7))?
            && NO_PLAN.is_met(rt.alloc(), Calls::sound(7))?
    );
    Ok(())
}

#[test]
fn saves_its_instance(rt: HostRuntime) -> Result<(), Fail> {
    assert!(rt; SAVED.is_met(rt.alloc(), Calls::sound(7))?);
    Ok(())
}

// No answer stands before the first solve, nor behind an edit or its undoing.
#[test]
fn keeps_no_stale_answer(rt: HostRuntime) -> Result<(), Fail> {
    let lines =
        "answer\ncert x\nlane 1 3 none\nlane 2 3 none\nsolve\nanswer\nundo\nanswer\nsolve\nfixed 1 10\ncert x\n";
    let replies =
        "refused Stale\nrefused Stale\nok\nok\ninfeasible made 0 nodes 1\ndualoc-plan 1\ninfeasible\nend\nok\nrefused Stale\noptimal 26.000000 made * nodes *\nok\nrefused Stale\n";
    assert!(rt; answers(rt.alloc(), "session ufl a", TWO_SITES, lines, replies)?);
    Ok(())
}

// A session that solves, writes to the file `k` by this line, and answers. One call of the shelf fails.
fn written(alloc: Global, line: &str, calls: Calls) -> Result<Outcome, Fail>
    requires { 0 < calls.width }
{
    let lines = format!(in alloc; "solve\n{line} k\nanswer\nquit\n")?;
    let files = [("a", TWO_SITES)];
    Ok(ran(alloc, SESSION, &files, lines.as_bytes(), calls)?)
}

fn is_answered(found: &Outcome, reply: &str) -> bool {
    found.prints(Status::Done, &[LINE, reply, TWO_SITES_PLAN])
}

// Whether a check of the certificate says yes.
fn says_yes(alloc: Global, certificate: &str) -> Result<bool, Fail> {
    let (files, texts) = (
        [("a", TWO_SITES), ("k", certificate)],
        ["yes optimal 22.000000\n"],
    );
    let row = Row::keeping("check ufl a k", &files, Status::Done, &texts);
    Ok(row.is_met(alloc, Calls::sound(7))?)
}

fn leaves_a_certificate(alloc: Global) -> Result<bool, Fail> {
    let found = written(alloc, "cert", Calls::sound(7))?;
    Ok(is_answered(&found, "ok\n") && says_yes(alloc, found.file("k"))?)
}

#[test]
fn writes_its_certificate(rt: HostRuntime) -> Result<(), Fail> {
    assert!(rt; leaves_a_certificate(rt.alloc())?);
    Ok(())
}

// Whether a session whose call of the shelf of this number failed says so and leaves a front of the text, or wrote
// all of it. The instance takes the first two calls.
fn is_refused_or_done(alloc: Global, line: &str, call: u64, whole: &str) -> Result<bool, Fail> {
    let found = written(alloc, line, Calls::failing_shelf(65_536, call))?;
    let is_refused = is_answered(&found, "refused WriteFailed\n")
        && whole.starts_with(found.file("k"));
    let is_done = is_answered(&found, "ok\n") && found.holds("k", whole);
    Ok(is_refused || (call > 4 && is_done))
}

fn survives(alloc: Global, line: &str) -> Result<bool, Fail> {
    let whole = written(alloc, line, Calls::sound(65_536))?;
    let mut is_sound = !whole.file("k").is_empty();
    for call in 3..9 {
        is_sound = is_sound && is_refused_or_done(alloc, line, call, whole.file("k"))?;
    }
    Ok(is_sound)
}

#[test]
fn goes_on_where_a_file_fails(rt: HostRuntime) -> Result<(), Fail> {
    assert!(rt; survives(rt.alloc(), "save")?);
    assert!(rt; survives(rt.alloc(), "cert")?);
    Ok(())
}
