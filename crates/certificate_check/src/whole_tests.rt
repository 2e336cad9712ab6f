//! Certificates with leaves that take whole knapsacks.
use super::*;
use crate::tests::shelf_of;
use example_instances::{customer, site, warehouses};
use instance_store::{Instance, LaneRow, NoMemory};
use location_terms::Claim;
use std::alloc::Global;
use std::test::Fail;

// The lines in front of the numbers of the customers, for the best plan of the warehouses.
const FRONT: &[u8] = b"dualoc-certificate 1\nsites 2 customers 2\nclaim optimal 7504.750000\n\
    open 1 2\nserve 2 1\nleaf 1 0\n";

// The numbers with which the leaf closes, and with which it just doesn't.
const CLOSED: &[u8] = b"v 7500250000 7503000000\n";

const OPEN: &[u8] = b"v 7500250000 7502999999\n";

// A certificate of one site, for whose capacity there are too many sums of demands.
const LARGE: &[u8] = b"dualoc-certificate 1\nsites 1 customers 2\nclaim bracket 0.000000 none\n\
    leaf 1 0\nv 0 0\nwhole\nend\n";

fn with_large_knapsacks(alloc: Global) -> Result<Instance, NoMemory> {
    let lanes = LaneRow::from_slice(alloc, &[Some(0), Some(0)])?;
    let sites = vec![in alloc; site(1, 0, Some(1_000_001), lanes)]?;
    let custs = vec![in alloc; customer(1, 1_000_001), customer(2, 1)]?;
    Instance::from_parts(alloc, 0, 1, 2, 3, custs, sites)
}

// Whether this is what the checker says of the text.
fn says(
    alloc: Global,
    inst: &Instance,
    text: Vec<u8>,
    expected: Result<Verdict, CertFault>,
) -> Result<bool, Fail> {
    let mut shelf = shelf_of(alloc, text, 65_536, 0)?;
    Ok(check(alloc, inst, &mut shelf, "k") == expected)
}

// Whether this is what the checker says of the certificate with these lines of its leaf.
fn says_with(
    alloc: Global,
    inst: &Instance,
    values: &[u8],
    third: &[u8],
    expected: Result<Verdict, CertFault>,
) -> Result<bool, Fail> {
    let mut text = Vec::from_slice(alloc, FRONT)?;
    text.extend_from_slice(values)?;
    text.extend_from_slice(third)?;
    text.extend_from_slice(b"\nend\n")?;
    says(alloc, inst, text, expected)
}

// Whether the leaf doesn't close, with this bound.
fn leaves_open(
    alloc: Global,
    inst: &Instance,
    values: &[u8],
    third: &[u8],
    bound: i128,
) -> Result<bool, Fail> {
    let why = Why::LeafOpen { bound, q: 1 };
    let no = Ok(Verdict::No { line: 6, why });
    says_with(alloc, inst, values, third, no)
}

// Whether the third line of the leaf has this fault.
fn has_fault(alloc: Global, inst: &Instance, third: &[u8], kind: CertKind) -> Result<bool, Fail> {
    let expected = Err(CertFault::Text { kind, line: 8 });
    says_with(alloc, inst, CLOSED, third, expected)
}

fn answers_all(alloc: Global, inst: &Instance) -> Result<bool, Fail> {
    let yes = Ok(Verdict::Yes(Claim::Optimal(7_504_750_000)));
    Ok(
        says_with(alloc, inst, CLOSED, b"whole", yes)?
            && leaves_open(alloc, inst, OPEN, b"whole", 7_504_749_999)?
            && leaves_open(alloc, inst, CLOSED, b"u", -754_775_000)?
            && has_fault(alloc, inst, b"whole ", CertKind::NotCanonical)?
            && has_fault(alloc, inst, b"whole 1", CertKind::BadLine)?
            && has_fault(alloc, inst, b"wholes", CertKind::BadLine)?,
    )
}

#[test]
fn judges_whole_knapsacks(rt: HostRuntime) -> Result<(), Fail> {
    let alloc = rt.alloc();
    let inst = warehouses(alloc)?;
    assert!(rt; answers_all(alloc, &inst)?);
    Ok(())
}

#[test]
fn reads_small_knapsacks_alone(rt: HostRuntime) -> Result<(), Fail> {
    let alloc = rt.alloc();
    let inst = with_large_knapsacks(alloc)?;
    let kind = CertKind::OutOfRange;
    let expected = Err(CertFault::Text { kind, line: 6 });
    assert!(rt; says(alloc, &inst, LARGE.to_vec(alloc)?, expected)?);
    Ok(())
}
