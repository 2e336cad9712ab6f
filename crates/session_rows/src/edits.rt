//! Edits, undo and solves, and the names of refusals.
use memory_runs::{Calls, Status, TWO_SITES, ran};
use std::alloc::{AllocError, Global};
use std::test::Fail;

// The two sites in the suite's own form, where no id of a site is left.
const IDS_SPENT: &str =
    "dualoc-instance 1\nsites 2 next 4294967295\ncustomers 3 next 4\ncount 0 3000\ncustomer 1 0\ncustomer 2 0\ncustomer 3 0\nsite 1 10 none 1 2 9\nsite 2 12 none 8 7 1\nend\n";

// Lines over the two sites, and what is printed, where a star stands for a number.
const ON_TWO_SITES: [(&str, &str); 13] = [
    (
        "solve\nfixed 1 30\nsolve 0\nundo\nsolve 0\n",
        "optimal 22.000000 made 0 nodes 1\nok\noptimal 28.000000 made 0 nodes 1\nok\noptimal 22.000000 made 0 nodes 1\n",
    ),
    (
        "count 2 2\nsolve\ncount 3 3\nsolve\nundo\nundo\nundo\n",
        "ok\noptimal 26.000000 made * nodes *\nok\ninfeasible made * nodes *\nok\nok\nrefused NothingToUndo\n",
    ),
    (
        "dropcust 3\naddcust 1 9 1\nsolve\nundo\nundo\ndropcust 9\ncert x\naddcust 1 9\naddcust 1 9 1\n",
        "ok\nok customer 4\noptimal 22.000000 made 0 nodes 1\nok\nok\nrefused NoCustomer\nrefused Stale\nrefused LaneCount\nok customer 4\n",
    ),
    // A session ends with `quit`, whatever stands behind it.
    (
        "dropsite 1\ndropsite 2\ncount 3 2\nfrobnicate\nfixed 1 5\nsolve 5000001\nundo\nsolve\nquit\nundo\n",
        "ok\nrefused LastOne\nrefused BadCount\nrefused BadCommand\nrefused NoSite\nrefused BudgetTooLarge\nok\noptimal 22.000000 made 0 nodes 1\n",
    ),
    (
        "fixed 1 1.0000001\nfixed 1\n   \nundo\n",
        "refused BadCommand\nrefused BadCommand\nrefused NothingToUndo\n",
    ),
    // The third customer is served from the second site alone, and then from none.
    (
        "lane 1 3 none\nsolve\nlane 2 3 none\nsolve\n",
        "ok\noptimal 26.000000 made 0 nodes 1\nok\ninfeasible made 0 nodes 1\n",
    ),
    ("", ""),
    ("quit\n", ""),
    // The last line needs no line feed, and white space no care.
    (
        "\tfixed  1\t30 \r\n\n\r\nsolve",
        "ok\noptimal 28.000000 made 0 nodes 1\n",
    ),
    (
        "quit now\nundo 1\nsolve x\nsolve 4294967296\nsolve -1\nFixed 1 2\nlane 1 1\nsave\nsave a b\n",
        "refused BadCommand\nrefused BadCommand\nrefused BadCommand\nrefused BadCommand\nrefused BadCommand\nrefused BadCommand\nrefused BadCommand\nrefused BadCommand\nrefused BadCommand\n",
    ),
    // Numbers may have leading zeros.
    (
        "fixed 01 030.0\nsolve 00\n",
        "ok\noptimal 28.000000 made 0 nodes 1\n",
    ),
    // A third site for 3, which serves the third customer alone.
    (
        "addsite 3 none none none 1\nsolve\nundo\naddsite 0 0 1 1\naddsite 3 none none none 1\n",
        "ok site 3\noptimal 17.000000 made * nodes *\nok\nrefused LaneCount\nok site 3\n",
    ),
    // A capacity below the demand of each customer.
    (
        "cap 1 1\ndemand 1 2\nsolve\ncap 3 1\ndemand 4 1\nlane 3 1 1\nlane 1 4 1\ncap 1 none\nsolve\n",
        "ok\nok\noptimal 28.000000 made * nodes *\nrefused NoSite\nrefused NoCustomer\nrefused NoSite\nrefused NoCustomer\nok\noptimal 22.000000 made * nodes *\n",
    ),
];

// Whether lines of the session that these words begin, over the file `a`, are answered so.
pub(crate) fn answers(
    alloc: Global,
    words: &str,
    file: &str,
    lines: &str,
    replies: &str,
) -> Result<bool, Fail> {
    let found = ran(
        alloc,
        words,
        &[("a", file)],
        lines.as_bytes(),
        Calls::sound(7),
    )?;
    Ok(found.is_like(Status::Done, replies))
}

#[test]
fn answers_as_the_tables_say(rt: HostRuntime) -> Result<(), Fail> {
    for (lines, replies) in ON_TWO_SITES {
        assert!(rt;
            answers(rt.alloc(), "session ufl a", TWO_SITES, lines, replies)?,
            "{lines}"
        );
    }
    Ok(())
}

#[test]
fn refuses_where_no_id_is_left(rt: HostRuntime) -> Result<(), Fail> {
    let (lines, replies) = (
        "addsite 1 none 1 1 1\nundo\n",
        "refused IdsSpent\nrefused NothingToUndo\n",
    );
    assert!(rt; answers(rt.alloc(), "session own a", IDS_SPENT, lines, replies)?);
    Ok(())
}

// The text so many times.
fn times(alloc: Global, text: &str, count: u32) -> Result<Vec<u8>, AllocError> {
    let mut all = Vec::new(alloc);
    for _ in 0..count {
        all.extend_from_slice(text.as_bytes())?;
    }
    Ok(all)
}

fn is_full_after(alloc: Global, count: u32) -> Result<bool, Fail> {
    let lines = times(alloc, "fixed 1 10\n", count.saturating_add(1))?;
    let words = "session ufl a";
    let found = ran(
        alloc,
        words,
        &[("a", TWO_SITES)],
        &lines,
        Calls::sound(65_536),
    )?;
    let replies = times(alloc, "ok\n", count)?;
    let rest = found
        .text()
        .strip_prefix(replies.as_slice())
        .unwrap_or_default();
    Ok(found.status == Status::Done && rest == b"refused SessionFull\n".as_slice())
}

#[test]
fn holds_ten_thousand_edits(rt: HostRuntime) -> Result<(), Fail> {
    assert!(rt; is_full_after(rt.alloc(), 10_000)?);
    Ok(())
}
