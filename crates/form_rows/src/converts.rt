//! Conversions to the suite's own form, and certificates of instances with statuses.
ghost use Rattle.std.specs.Prelude.{◌<◌};

use memory_runs::{Calls, Outcome, Row, Status, TWO_SITES, TWO_SITES_OWN, calls_for, ran};
use std::alloc::Global;
use std::test::Fail;

const LINE: &str = "converted sites 2 customers 3\n";

// Site 2 must be open. As it may be written by hand, and as it is printed.
const LEASED: &str =
    "dualoc-instance 2 sites 2 next 3 customers 3 next 4 count 00 3000\ncustomer 1 0 customer 2 .0 customer 3 0\nsite 1 10 none free 1 2 9\nsite 2 12. none open 8 7 1\nend";

const ITS_SPELLING: &str =
    "dualoc-instance 2\nsites 2 next 3\ncustomers 3 next 4\ncount 0 3000\ncustomer 1 0.000000\ncustomer 2 0.000000\ncustomer 3 0.000000\nsite 1 10.000000 none free 1.000000 2.000000 9.000000\nsite 2 12.000000 none open 8.000000 7.000000 1.000000\nend\n";

// Both sites, for 26.
const ITS_CERTIFICATE: &str =
    "dualoc-certificate 2\nsites 2 customers 3\nmust-open 2\nmust-closed\nclaim optimal 26.000000\nopen 1 2\nserve 1 1 2\nleaf 1 0\nv 8000000 5000000 1000000\nu\nend\n";

// Site 1 alone, which leaves site 2 closed.
const ITS_BREACH: &str =
    "dualoc-certificate 2\nsites 2 customers 3\nmust-open 2\nmust-closed\nclaim optimal 26.000000\nopen 1\nserve 1 1 1\nleaf 1 0\nv 8000000 5000000 1000000\nu\nend\n";

// No site is said to be one that must be open.
const ITS_OMISSION: &str =
    "dualoc-certificate 2\nsites 2 customers 3\nmust-open\nmust-closed\nclaim optimal 26.000000\nopen 1 2\nserve 1 1 2\nleaf 1 0\nv 8000000 5000000 1000000\nu\nend\n";

// What stood in the new file before.
const OLD: &str = "of an earlier day\n";

// Words and the file `a`, which are answered before anything is written.
const REFUSED: [(&str, &str, Status, &str); 9] = [
    ("convert ufl a", TWO_SITES, Status::Usage, "usage\n"),
    ("convert ufl a a", TWO_SITES, Status::Usage, "usage\n"),
    (
        "convert ufl a c capacity=1",
        TWO_SITES,
        Status::Usage,
        "usage\n",
    ),
    (
        "convert cap a c budget=1",
        TWO_SITES,
        Status::Usage,
        "usage\n",
    ),
    ("convert own a c c", TWO_SITES_OWN, Status::Usage, "usage\n"),
    (
        "convert ufl b c",
        TWO_SITES,
        Status::ReadFault,
        "read fault\n",
    ),
    (
        "convert ufl a c",
        "1 1 0\n1 0 x\n",
        Status::BadInput,
        "bad input NotANumber line 2 word 3\n",
    ),
    (
        "convert own a c",
        "dualoc-instance 1\nsites 1 next 2\nclients 1 next 2\n",
        Status::BadInput,
        "bad input BadWord line 3 word 1\n",
    ),
    (
        "convert cap a c",
        "1 1\ncapacity 0\n0 0\n",
        Status::BadInput,
        "bad input NeedCapacity line 2 word 1\n",
    ),
];

// Whether words over the file `a`, with an old file `c`, end so, print this line and leave this in `c`.
fn converts<'x>(
    alloc: Global,
    words: &'x str,
    file: &'x str,
    status: Status,
    line: &'x str,
    left: &'x str,
) -> Result<bool, Fail> {
    let row = Row {
        words,
        files: &[("a", file), ("c", OLD)],
        input: "",
        status,
        texts: &[line],
        left: &[("a", file), ("c", left)],
    };
    Ok(row.is_met(alloc, Calls::sound(7))?)
}

// Whether these words convert the file `a` to this text.
fn becomes(alloc: Global, words: &str, file: &str, text: &str) -> Result<bool, Fail> {
    converts(alloc, words, file, Status::Done, LINE, text)
}

#[test]
fn converts_to_the_one_spelling(rt: HostRuntime) -> Result<(), Fail> {
    let alloc = rt.alloc();
    assert!(rt; becomes(alloc, "convert ufl a c", TWO_SITES, TWO_SITES_OWN)?);
    assert!(rt; becomes(alloc, "convert own a c", TWO_SITES_OWN, TWO_SITES_OWN)?);
    assert!(rt; becomes(alloc, "convert own a c", LEASED, ITS_SPELLING)?);
    Ok(())
}

#[test]
fn leaves_the_new_file_where_it_refuses(rt: HostRuntime) -> Result<(), Fail> {
    for (words, file, status, text) in REFUSED {
        assert!(rt; converts(rt.alloc(), words, file, status, text, OLD)?);
    }
    Ok(())
}

// Whether a conversion whose call of the shelf of this number failed is answered so, with the file as it
// was before, or with a front of its text.
fn is_left(found: &Outcome, call: u64, reads: u64, calls: u64) -> bool {
    if call <= reads {
        found.is(Status::ReadFault, "read fault\n") && found.holds("c", OLD)
    } else if call <= calls {
        found.is(Status::WriteFault, "write fault\n")
            && (found.holds("c", OLD) || TWO_SITES_OWN.starts_with(found.file("c")))
    } else {
        found.is(Status::Done, LINE) && found.holds("c", TWO_SITES_OWN)
    }
}

fn leaves_a_front(alloc: Global, width: usize, call: u64) -> Result<bool, Fail>
    requires { 0 < width }
{
    // The last read finds the end of the file, and the new file is made before it is written.
    let reads = calls_for(TWO_SITES.len(), width).saturating_add(1);
    let writes = calls_for(TWO_SITES_OWN.len(), width).saturating_add(1);
    let files = [("a", TWO_SITES), ("c", OLD)];
    let words = "convert ufl a c";
    let calls = Calls::failing_shelf(width, call);
    let found = ran(alloc, words, &files, b"", calls)?;
    Ok(is_left(&found, call, reads, reads.saturating_add(writes)))
}

#[test]
fn leaves_a_front_where_a_call_fails(rt: HostRuntime) -> Result<(), Fail> {
    for call in 1..60 {
        assert!(rt; leaves_a_front(rt.alloc(), 7, call)?, "call {call} of 7");
        assert!(rt;
            leaves_a_front(rt.alloc(), 65_536, call)?,
            "call {call} of 65536"
        );
    }
    Ok(())
}

// Whether a check of this certificate against the sites of which one must be open has this answer.
fn checks<'x>(
    alloc: Global,
    certificate: &'x str,
    status: Status,
    text: &'x str,
) -> Result<bool, Fail> {
    let (files, texts) = ([("a", LEASED), ("c", certificate)], [text]);
    let row = Row::keeping("check own a c", &files, status, &texts);
    Ok(row.is_met(alloc, Calls::sound(7))?)
}

#[test]
fn checks_statuses(rt: HostRuntime) -> Result<(), Fail> {
    let alloc = rt.alloc();
    let yes = "yes optimal 26.000000\n";
    assert!(rt; checks(alloc, ITS_CERTIFICATE, Status::Done, yes)?);
    let no = "no PlanRefused line 7 StatusBroken\n";
    assert!(rt; checks(alloc, ITS_BREACH, Status::CheckNo, no)?);
    let no = "no WrongStatus line 3\n";
    assert!(rt; checks(alloc, ITS_OMISSION, Status::CheckNo, no)?);
    let no = "no BadLine line 1\n";
    assert!(rt; checks(alloc, "dualoc-certificate 1\n", Status::CheckNo, no)?);
    Ok(())
}
