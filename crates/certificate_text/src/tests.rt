ghost use Rattle.std.specs.Prelude.{◌<◌};

use super::*;
use crate::read::read_lines;
use certificate_reader::CertReader;
use example_instances::warehouses;
use instance_store::Instance;
use location_terms::Claim;
use plan_meaning::Plan;
use shelf_port::{MemShelf, PutFault};
use std::alloc::Global;
use std::test::Fail;

// A certificate of two sites with capacities and two customers: a split on a site, whose first child is
// split on a lane, and of whose leaves the first takes whole knapsacks.
const TEXT: &str = "dualoc-certificate 1\n\
    sites 2 customers 2\n\
    claim bracket 1.500000 11.000000\n\
    open 1 2\n\
    serve 1 2\n\
    site 1\n\
    lane 2 1\n\
    leaf 1 0\n\
    v -2 5\n\
    whole\n\
    leaf 0 -5\n\
    v 0 0\n\
    u 2 7\n\
    leaf 1000000 0\n\
    v 3 0\n\
    u 1 4 2 9\n\
    end\n";

// A shelf with one file `a`, a call of which moves 7 bytes at most, and one call fails.
fn shelf_of(alloc: Global, bytes: &[u8], fails: u64) -> Result<MemShelf, Fail> {
    let mut files = Vec::new(alloc);
    files.push((String::from_str(alloc, "a")?, bytes.to_vec(alloc)?))?;
    Ok(MemShelf::new(alloc, files, vec![in alloc; fails]?).in_pieces(7))
}

fn opens_both(plan: Option<&Plan>) -> bool {
    match plan {
        Some(plan) => plan.site_count() == 2,
        None => false,
    }
}

// Whether the parts are those of the text.
fn is_as_written(cert: CertificateRef<'_>) -> bool {
    let claim = Claim::Bracket {
        low: 1_500_000,
        high: Some(11_000_000),
    };
    cert.claim == claim && opens_both(cert.plan) && cert.tree.nodes() == 5
}

// Whether the certificate is written as the text.
fn is_written(
    alloc: Global,
    inst: &Instance,
    shelf: &mut MemShelf,
    cert: CertificateRef<'_>,
) -> bool {
    write_cert(alloc, shelf, "b", inst, cert).is_ok() && shelf.file("b") == Some(TEXT.as_bytes())
}

#[test]
fn reads_what_it_writes(rt: HostRuntime) -> Result<(), Fail> {
    let alloc = rt.alloc();
    let inst = warehouses(alloc)?;
    let mut shelf = shelf_of(alloc, TEXT.as_bytes(), 0)?;
    let cert = read_cert(alloc, &mut shelf, "a", &inst)?;
    assert!(rt; is_as_written(cert.lent()));
    assert!(rt; is_written(alloc, &inst, &mut shelf, cert.lent()));
    Ok(())
}

// Whether a call that fails leaves a front of the text, and the other file as it is.
fn leaves_a_front(alloc: Global, fails: u64) -> Result<bool, Fail> {
    let inst = warehouses(alloc)?;
    let mut shelf = shelf_of(alloc, TEXT.as_bytes(), 0)?;
    let cert = read_cert(alloc, &mut shelf, "a", &inst)?;
    let mut shelf = shelf_of(alloc, b"old", fails)?;
    let written = write_cert(alloc, &mut shelf, "b", &inst, cert.lent());
    let left = shelf.file("b").unwrap_or(b"");
    Ok(
        written == Err(PutFault::Failed)
            && TEXT.as_bytes().starts_with(left)
            && shelf.file("a") == Some(b"old".as_slice()),
    )
}

// Whether reading these bytes, of which no more than the first up to a limit are looked at, ends with this
// fault, or with none.
fn reads(
    alloc: Global,
    inst: &Instance,
    bytes: &[u8],
    fails: u64,
    limit: u64,
    fault: Option<CertFault>,
) -> Result<bool, Fail>
    requires { limit < 1000 }
{
    let mut shelf = shelf_of(alloc, bytes, fails)?;
    let mut reader = CertReader::new(alloc, limit);
    Ok(read_lines(alloc, inst, &mut reader, &mut shelf, "a").err() == fault)
}

#[test]
fn tells_what_fails(rt: HostRuntime) -> Result<(), Fail> {
    let alloc = rt.alloc();
    let inst = warehouses(alloc)?;
    let text = TEXT.as_bytes();
    let Some(cut) = text.strip_suffix(b"end\n".as_slice()) else {
        return Err(Fail::new("another text"));
    };
    let ended = CertFault::Text {
        kind: CertKind::Ended,
        line: 17,
    };
    assert!(rt; reads(alloc, &inst, text, 0, 188, None)?);
    assert!(rt; reads(alloc, &inst, text, 0, 187, Some(CertFault::TooLong))?);
    assert!(rt; reads(alloc, &inst, text, 1, 188, Some(CertFault::ReadFailed))?);
    assert!(rt; reads(alloc, &inst, cut, 0, 188, Some(ended))?);
    assert!(rt; leaves_a_front(alloc, 1)?);
    assert!(rt; leaves_a_front(alloc, 9)?);
    Ok(())
}
