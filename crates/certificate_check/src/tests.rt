ghost use Rattle.std.specs.Prelude.{◌<◌};

use super::*;
use crate::checker::check_lines;
use certificate_reader::CertReader;
use example_instances::two_sites;
use instance_store::{Instance, NoMemory};
use location_terms::Claim;
use plan_meaning::PlanFault;
use shelf_port::MemShelf;
use std::alloc::Global;
use std::test::Fail;

// How much one read gives at most, where no test asks for less.
const WIDE: usize = 65_536;

// Two sites, of which any number may open.
pub(crate) fn example(alloc: Global) -> Result<Instance, NoMemory> {
    two_sites(alloc, 0, 3_000)
}

// The line of this number of the certificate that site 1 alone, at 22, is best.
fn line_of(number: u64) -> &'static [u8] {
    match number {
        1 => b"dualoc-certificate 1",
        2 => b"sites 2 customers 3",
        3 => b"claim optimal 22.000000",
        4 => b"open 1",
        5 => b"serve 1 1 1",
        6 => b"leaf 1 0",
        7 => b"v 11000000 2000000 9000000",
        8 => b"u",
        _ => b"end",
    }
}

// The certificate with another line of this number, if it is one from 1 to 9.
pub(crate) fn text_with(alloc: Global, number: u64, line: &[u8]) -> Result<Vec<u8>, Fail> {
    let mut text = Vec::new(alloc);
    for n in 1..10 {
        text.extend_from_slice(if n == number { line } else { line_of(n) })?;
        text.push(b'\n')?;
    }
    Ok(text)
}

// A shelf with this certificate `k`, one call of which fails.
pub(crate) fn shelf_of(
    alloc: Global,
    text: Vec<u8>,
    width: usize,
    fails: u64,
) -> Result<MemShelf, Fail>
    requires { 0 < width }
{
    let mut files = Vec::new(alloc);
    files.push((String::from_str(alloc, "k")?, text))?;
    Ok(MemShelf::new(alloc, files, vec![in alloc; fails]?).in_pieces(width))
}

// Whether this is what the checker says of the file of this name, where this text is on the shelf.
fn says_of(
    alloc: Global,
    name: &str,
    text: Vec<u8>,
    width: usize,
    fails: u64,
    expected: Result<Verdict, CertFault>,
) -> Result<bool, Fail>
    requires { 0 < width }
{
    let inst = example(alloc)?;
    let mut shelf = shelf_of(alloc, text, width, fails)?;
    Ok(check(alloc, &inst, &mut shelf, name) == expected)
}

// Whether this is what the checker says of the text.
fn says(alloc: Global, text: Vec<u8>, expected: Result<Verdict, CertFault>) -> Result<bool, Fail> {
    says_of(alloc, "k", text, WIDE, 0, expected)
}

// Whether this is what the checker says of the certificate with this line instead of its own.
fn says_with(
    alloc: Global,
    number: u64,
    line: &[u8],
    expected: Result<Verdict, CertFault>,
) -> Result<bool, Fail> {
    says(alloc, text_with(alloc, number, line)?, expected)
}

// Whether the certificate with this line instead of its own is refused here for this.
fn refuses(alloc: Global, number: u64, text: &[u8], line: u64, why: Why) -> Result<bool, Fail> {
    says_with(alloc, number, text, Ok(Verdict::No { line, why }))
}

// Whether the certificate with this line instead of its own has this fault there.
fn has_fault(alloc: Global, line: u64, text: &[u8], kind: CertKind) -> Result<bool, Fail> {
    says_with(alloc, line, text, Err(CertFault::Text { kind, line }))
}

// Whether this text ends too soon, in its first line.
fn ends(alloc: Global, text: &[u8]) -> Result<bool, Fail> {
    let kind = CertKind::Ended;
    says(
        alloc,
        text.to_vec(alloc)?,
        Err(CertFault::Text { kind, line: 1 }),
    )
}

// Whether the certificate, with this behind it, has this fault in its tenth line.
fn trails(alloc: Global, more: &[u8]) -> Result<bool, Fail> {
    let mut text = text_with(alloc, 0, b"")?;
    text.extend_from_slice(more)?;
    let kind = CertKind::Trailing;
    says(alloc, text, Err(CertFault::Text { kind, line: 10 }))
}

// Whether the checker says yes to the certificate, where a read gives no more bytes than this.
fn says_yes_in_pieces(alloc: Global, width: usize) -> Result<bool, Fail>
    requires { 0 < width }
{
    says_of(alloc, "k", text_with(alloc, 0, b"")?, width, 0, yes())
}

// Whether a read of the file of this name fails, where one call of the shelf does.
fn fails_to_read(alloc: Global, name: &str, fails: u64) -> Result<bool, Fail> {
    let text = text_with(alloc, 0, b"")?;
    says_of(alloc, name, text, 60, fails, Err(CertFault::ReadFailed))
}

fn yes() -> Result<Verdict, CertFault> {
    Ok(Verdict::Yes(Claim::Optimal(22_000_000)))
}

#[test]
fn reads_the_file(rt: HostRuntime) -> Result<(), Fail> {
    let alloc = rt.alloc();
    assert!(rt; says_yes_in_pieces(alloc, WIDE)?);
    assert!(rt; says_yes_in_pieces(alloc, 1)?);
    assert!(rt; fails_to_read(alloc, "k", 2)?);
    assert!(rt; fails_to_read(alloc, "other", 0)?);
    Ok(())
}

#[test]
fn refuses_what_shows_no_claim(rt: HostRuntime) -> Result<(), Fail> {
    let alloc = rt.alloc();
    let open = Why::LeafOpen {
        bound: 21_000_000,
        q: 1,
    };
    let dear = Why::CostDiffers { found: 22_000_000 };
    let closed = Why::PlanRefused(PlanFault::ServedByClosed);
    assert!(rt; refuses(alloc, 7, b"v 11000000 2000000 8000000", 6, open)?);
    assert!(rt; refuses(alloc, 3, b"claim optimal 21.000000", 5, dear)?);
    assert!(rt; refuses(alloc, 5, b"serve 1 1 2", 5, closed)?);
    Ok(())
}

// The ids of the last line rise, though both are longer than any number that is held.
#[test]
fn finds_faults_of_form(rt: HostRuntime) -> Result<(), Fail> {
    let alloc = rt.alloc();
    let huge = b"open 10000000000000000000000000000000 20000000000000000000000000000000";
    assert!(rt; has_fault(alloc, 1, b"dualoc-certificate 3", CertKind::BadLine)?);
    assert!(rt; has_fault(alloc, 8, b"end", CertKind::BadLine)?);
    assert!(rt; has_fault(alloc, 5, b"serve 1 01 1", CertKind::NotCanonical)?);
    assert!(rt; has_fault(alloc, 9, b"end ", CertKind::NotCanonical)?);
    assert!(rt; has_fault(alloc, 6, b"leaf 1000001 0", CertKind::OutOfRange)?);
    assert!(rt; has_fault(alloc, 8, b"u 1 5", CertKind::OutOfRange)?);
    assert!(rt; has_fault(alloc, 2, b"sites 2 customers 4", CertKind::WrongSizes)?);
    assert!(rt; has_fault(alloc, 4, b"open 1 3", CertKind::UnknownId)?);
    assert!(rt; has_fault(alloc, 4, huge, CertKind::OutOfRange)?);
    Ok(())
}

#[test]
fn finds_where_the_text_ends(rt: HostRuntime) -> Result<(), Fail> {
    let alloc = rt.alloc();
    assert!(rt; ends(alloc, b"")?);
    assert!(rt; ends(alloc, line_of(1))?);
    assert!(rt; trails(alloc, b"x")?);
    assert!(rt; trails(alloc, b"\n")?);
    Ok(())
}

// What is said of the certificate where no more than its first bytes up to the limit are looked at.
fn says_within(
    alloc: Global,
    limit: u64,
    expected: Result<Verdict, CertFault>,
) -> Result<bool, Fail>
    requires { limit < 1000 }
{
    let inst = example(alloc)?;
    let mut shelf = shelf_of(alloc, text_with(alloc, 0, b"")?, WIDE, 0)?;
    let mut reader = CertReader::new(alloc, limit);
    Ok(check_lines(alloc, &inst, &mut reader, &mut shelf, "k") == expected)
}

#[test]
fn stops_at_the_limit(rt: HostRuntime) -> Result<(), Fail> {
    assert!(rt; says_within(rt.alloc(), 126, yes())?);
    assert!(rt; says_within(rt.alloc(), 125, Err(CertFault::TooLong))?);
    Ok(())
}
