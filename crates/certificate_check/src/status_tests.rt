//! Certificates of instances in which something is settled of a site: the second version of the text.
use super::*;
use crate::tests::{example, shelf_of, text_with};
use instance_store::{Instance, NoMemory, SiteStatus};
use location_terms::Claim;
use plan_meaning::PlanFault;
use std::alloc::Global;
use std::test::Fail;

// The two sites, of which the second must be open.
fn leased(alloc: Global) -> Result<Instance, NoMemory> {
    let mut inst = example(alloc)?;
    if inst.sites() == 2 {
        inst.set_status(1, SiteStatus::MustOpen);
    }
    Ok(inst)
}

// A certificate with this line of sites that must be open, and these of the plan.
fn text_of(alloc: Global, must_open: &[u8], plan: &[u8]) -> Result<Vec<u8>, Fail> {
    let mut text = Vec::from_slice(alloc, b"dualoc-certificate 2\nsites 2 customers 3\n")?;
    text.extend_from_slice(must_open)?;
    text.extend_from_slice(b"\nmust-closed\nclaim optimal 26.000000\n")?;
    text.extend_from_slice(plan)?;
    text.extend_from_slice(b"\nleaf 1 0\nv 8000000 5000000 1000000\nu\nend\n")?;
    Ok(text)
}

// Whether this is what the checker says of the text.
fn says(alloc: Global, text: Vec<u8>, expected: Result<Verdict, CertFault>) -> Result<bool, Fail> {
    let inst = leased(alloc)?;
    let mut shelf = shelf_of(alloc, text, 65_536, 0)?;
    Ok(check(alloc, &inst, &mut shelf, "k") == expected)
}

// Whether this is what the checker says of the certificate with these lines of statuses and of its plan.
fn says_with(
    alloc: Global,
    must_open: &[u8],
    plan: &[u8],
    expected: Result<Verdict, CertFault>,
) -> Result<bool, Fail> {
    says(alloc, text_of(alloc, must_open, plan)?, expected)
}

// Whether a certificate with this line of sites that must be open has this fault in it.
fn has_fault(alloc: Global, must_open: &[u8], kind: CertKind) -> Result<bool, Fail> {
    let expected = Err(CertFault::Text { kind, line: 3 });
    says_with(alloc, must_open, b"open 1 2\nserve 1 1 2", expected)
}

// Whether a text of the first version is no certificate.
fn wants_the_second_version(alloc: Global) -> Result<bool, Fail> {
    let kind = CertKind::BadLine;
    let text = text_with(alloc, 0, b"")?;
    says(alloc, text, Err(CertFault::Text { kind, line: 1 }))
}

#[test]
fn reads_the_second_version(rt: HostRuntime) -> Result<(), Fail> {
    let alloc = rt.alloc();
    let yes = Ok(Verdict::Yes(Claim::Optimal(26_000_000)));
    let no = Ok(Verdict::No {
        line: 7,
        why: Why::PlanRefused(PlanFault::StatusBroken),
    });
    assert!(rt; says_with(alloc, b"must-open 2", b"open 1 2\nserve 1 1 2", yes)?);
    assert!(rt; says_with(alloc, b"must-open 2", b"open 1\nserve 1 1 1", no)?);
    assert!(rt; has_fault(alloc, b"must-open", CertKind::WrongStatus)?);
    assert!(rt; has_fault(alloc, b"must-open 7", CertKind::UnknownId)?);
    assert!(rt; wants_the_second_version(alloc)?);
    Ok(())
}
