//! What the checker says of certificates.
use memory_runs::{Calls, Row, Status, TWO_SITES, WIDTHS};
use std::alloc::Global;
use std::test::Fail;

const YES: &str = "yes optimal 22.000000\n";

const ITS_CERTIFICATE: &str =
    "dualoc-certificate 1\nsites 2 customers 3\nclaim optimal 22.000000\nopen 1\nserve 1 1 1\nleaf 1 0\nv 11000000 2000000 9000000\nu\nend\n";

const OPEN_LEAF: &str =
    "dualoc-certificate 1\nsites 2 customers 3\nclaim optimal 22.000000\nopen 1\nserve 1 1 1\nleaf 1 0\nv 11000000 2000000 8000000\nu\nend\n";

const OTHER_COST: &str =
    "dualoc-certificate 1\nsites 2 customers 3\nclaim optimal 21.000000\nopen 1\nserve 1 1 1\nleaf 1 0\nv 11000000 2000000 9000000\nu\nend\n";

const CLOSED_SITE: &str =
    "dualoc-certificate 1\nsites 2 customers 3\nclaim optimal 22.000000\nopen 1\nserve 1 1 2\nleaf 1 0\nv 11000000 2000000 9000000\nu\nend\n";

const CHECK: &str = "check ufl a k";

const CONFIRMED: Row<'static> = Row {
    words: CHECK,
    files: &[("a", TWO_SITES), ("k", ITS_CERTIFICATE)],
    input: "",
    status: Status::Done,
    texts: &[YES],
    left: &[("a", TWO_SITES), ("k", ITS_CERTIFICATE)],
};

const EMPTY_TEXT: Row<'static> = Row {
    words: CHECK,
    files: &[("a", TWO_SITES), ("k", "")],
    input: "",
    status: Status::CheckNo,
    texts: &["no Ended line 1\n"],
    left: &[],
};

// Whether a check of the certificate `k` for the instance `a` ends so, prints this line and leaves both files.
fn answers<'x>(
    alloc: Global,
    instance: &'x str,
    certificate: &'x str,
    status: Status,
    line: &'x str,
) -> Result<bool, Fail> {
    let (files, texts) = ([("a", instance), ("k", certificate)], [line]);
    let row = Row::keeping(CHECK, &files, status, &texts);
    Ok(row.is_met(alloc, Calls::sound(7))?)
}

fn says_no(alloc: Global, certificate: &str, line: &str) -> Result<bool, Fail> {
    answers(alloc, TWO_SITES, certificate, Status::CheckNo, line)
}

#[test]
fn says_yes(rt: HostRuntime) -> Result<(), Fail> {
    for width in WIDTHS {
        assert!(rt;
            CONFIRMED.is_met(rt.alloc(), Calls::sound(width))?,
            "width {width}"
        );
    }
    Ok(())
}

#[test]
fn says_what_speaks_against_a_leaf(rt: HostRuntime) -> Result<(), Fail> {
    let line = "no LeafOpen line 6 bound 21000000 scale 1\n";
    assert!(rt; says_no(rt.alloc(), OPEN_LEAF, line)?);
    Ok(())
}

#[test]
fn says_what_speaks_against_a_plan(rt: HostRuntime) -> Result<(), Fail> {
    let cost = "no CostDiffers line 5 found 22.000000\n";
    assert!(rt; says_no(rt.alloc(), OTHER_COST, cost)?);
    let refused = "no PlanRefused line 5 ServedByClosed\n";
    assert!(rt; says_no(rt.alloc(), CLOSED_SITE, refused)?);
    Ok(())
}

#[test]
fn names_the_fault_of_a_text(rt: HostRuntime) -> Result<(), Fail> {
    assert!(rt; says_no(rt.alloc(), "", "no Ended line 1\n")?);
    assert!(rt; says_no(rt.alloc(), TWO_SITES, "no BadLine line 1\n")?);
    Ok(())
}

#[test]
fn reads_the_instance_first(rt: HostRuntime) -> Result<(), Fail> {
    let line = "bad input NotZero line 1 word 3\n";
    assert!(rt; answers(rt.alloc(), "2 3 1\n", "", Status::BadInput, line)?);
    Ok(())
}

#[test]
fn survives_each_failing_read(rt: HostRuntime) -> Result<(), Fail> {
    assert!(rt; CONFIRMED.survives_reads(rt.alloc(), 7)?);
    Ok(())
}

#[test]
fn stops_at_each_failing_write(rt: HostRuntime) -> Result<(), Fail> {
    assert!(rt; CONFIRMED.survives_writes(rt.alloc(), 7, Status::WriteFault)?);
    assert!(rt; EMPTY_TEXT.survives_writes(rt.alloc(), 7, Status::WriteFault)?);
    Ok(())
}
