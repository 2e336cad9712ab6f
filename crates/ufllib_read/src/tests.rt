ghost use Rattle.std.specs.Prelude.{◌≤◌, length};

use super::*;
use fixed_cost::{FileFault, FileKind};
use instance_store::{CustId, SiteId, SiteStatus};
use std::ops::Range;
use std::test::Fail;

const PAIR: &str = "FILE: a\n2 3 0\n1 10 1 2 9\n2 12 8 7 1\n";

// The fault of a short file, where it has one.
fn fault_of(alloc: Global, bytes: &[u8]) -> Option<FileFault>
    requires { length bytes.now ≤ 1000 }
{
    match read(alloc, bytes) {
        Err(FormFault::File(fault)) => Some(fault),
        _ => None,
    }
}

fn has_sites_of_pair(inst: &Instance) -> bool {
    if inst.sites() != 2 {
        return false;
    }
    let ids = inst.site_id(0) == SiteId::new(1) && inst.site_id(1) == SiteId::new(2);
    let fixed = inst.fixed(0) == 10_000_000 && inst.fixed(1) == 12_000_000;
    let free = inst.status(0) == SiteStatus::Free && inst.status(1) == SiteStatus::Free;
    ids && fixed && free && inst.cap(0).is_none() && inst.cap(1).is_none()
}

fn has_customers_of_pair(inst: &Instance) -> bool {
    if inst.custs() != 3 {
        return false;
    }
    let ids = inst.cust_id(0) == CustId::new(1) && inst.cust_id(2) == CustId::new(3);
    ids && inst.demand(0) == 0 && inst.demand(2) == 0
}

fn has_lanes(inst: &Instance, i: usize, row: [u64; 3]) -> bool {
    i < inst.sites()
        && inst.custs() == 3
        && inst.lane(i, 0) == Some(row[0])
        && inst.lane(i, 1) == Some(row[1])
        && inst.lane(i, 2) == Some(row[2])
}

fn has_lanes_of_pair(inst: &Instance) -> bool {
    has_lanes(inst, 0, [1_000_000, 2_000_000, 9_000_000])
        && has_lanes(inst, 1, [8_000_000, 7_000_000, 1_000_000])
}

#[test]
fn reads_each_spelling_of_the_pair(rt: HostRuntime) -> Result<(), Fail> {
    let texts = [
        PAIR,
        "FILE: a\n2 3 0\n1 10 1 2 9\n2 12 8 7 1",
        "FILE:a\n2 3 0\n1 10 1 2 9\n2 12 8 7 1\n",
        "2 3 0\n1 10 1 2 9\n2 12 8 7 1\n",
        " \r\n\tFILE: a 2 3 0 x\r\n2 3 0\r\n1 10 1 2 9\r\n2 12 8 7 1\r\n",
        "2. +3 0.0 01 10.00 1.0000000 2 9. 2.000 +12\n\n8 007\n1",
    ];
    for text in texts {
        assert!(rt; text.len() <= 1_000);
        let inst = read(rt.alloc(), text.as_bytes()).ok().ok_or("a file")?;
        assert_eq!(rt; (inst.count(), inst.next_ids()), ((0, 3_000), (3, 4)));
        assert!(rt; has_sites_of_pair(&inst), "{text:?}");
        assert!(rt; has_customers_of_pair(&inst), "{text:?}");
        assert!(rt; has_lanes_of_pair(&inst), "{text:?}");
    }
    Ok(())
}

#[test]
fn names_the_first_fault(rt: HostRuntime) {
    let rows = [
        ("", FileKind::Ended, 1, 1),
        ("FILE: a\n", FileKind::Ended, 1, 3),
        ("\nFILE: a b\n2", FileKind::Ended, 3, 2),
        (
            "FILE: a\n2 3 0\n1 10 1 2 9\n2 12 8\n",
            FileKind::Ended,
            4,
            4,
        ),
        (
            "FILE: a\n2 3 0\n1 10 1 2 9\n2 12 8 7 1\n5\n",
            FileKind::Trailing,
            5,
            1,
        ),
        ("1 1 0 1 0 0 FILE: x", FileKind::Trailing, 1, 7),
        ("2 3 0 FILE: x", FileKind::NotANumber, 1, 4),
        (
            "FILE: a\n2 3 1\n1 10 1 2 9\n2 12 8 7 1\n",
            FileKind::NotZero,
            2,
            3,
        ),
        ("1 1 0.5", FileKind::NotZero, 1, 3),
        ("1 1 x", FileKind::NotANumber, 1, 3),
        (
            "FILE: a\n2 3 0\n1 10 1.0000001 2 9\n",
            FileKind::TooFine,
            3,
            3,
        ),
        ("1 1 0\n1 0 1000000000\n", FileKind::TooBig, 2, 3),
        ("3001 1 0", FileKind::BadSize, 1, 1),
        ("3000 5000 0", FileKind::BadSize, 1, 2),
        ("0 1 0", FileKind::BadSize, 1, 1),
        ("1.5 1 0", FileKind::BadSize, 1, 1),
        ("1 5001 0", FileKind::BadSize, 1, 2),
        ("1 1 0\n2 0 0\n", FileKind::BadIndex, 2, 1),
        ("1 1 0\n1.0000001 0 0\n", FileKind::TooFine, 2, 1),
        ("1 1 0\n1 -1 0\n", FileKind::NotANumber, 2, 2),
    ];
    for (text, kind, line, word) in rows {
        assert!(rt; text.len() <= 1_000);
        let want = FileFault { kind, line, word };
        assert_eq!(rt;
            fault_of(rt.alloc(), text.as_bytes()),
            Some(want),
            "{text:?}"
        );
    }
}

// Whether a short text that ends behind so many bytes, for each of these lengths, has this fault.
fn fails_at(alloc: Global, text: &str, lens: Range<usize>, fault: FileFault) -> bool {
    for len in lens {
        if len > text.len()
            || len > 1_000
            || fault_of(alloc, &text.as_bytes()[..len]) != Some(fault)
        {
            return false;
        }
    }
    true
}

#[test]
fn reads_no_part_of_a_file(rt: HostRuntime) {
    let rows = [
        (0..1, FileKind::Ended, 1, 1),
        (1..5, FileKind::NotANumber, 1, 1),
        (5..7, FileKind::Ended, 1, 2),
        (7..9, FileKind::Ended, 1, 3),
        (9..11, FileKind::Ended, 2, 2),
        (11..13, FileKind::Ended, 2, 3),
        (13..15, FileKind::Ended, 2, 4),
        (15..17, FileKind::Ended, 3, 2),
        (17..20, FileKind::Ended, 3, 3),
        (20..22, FileKind::Ended, 3, 4),
        (22..24, FileKind::Ended, 3, 5),
        (24..26, FileKind::Ended, 3, 6),
        (26..28, FileKind::Ended, 4, 2),
        (28..31, FileKind::Ended, 4, 3),
        (31..33, FileKind::Ended, 4, 4),
        (33..35, FileKind::Ended, 4, 5),
    ];
    for (lens, kind, line, word) in rows {
        let want = FileFault { kind, line, word };
        assert!(rt; fails_at(rt.alloc(), PAIR, lens, want), "{line} {word}");
    }
}

#[test]
fn reads_the_smallest_and_the_dearest(rt: HostRuntime) -> Result<(), Fail> {
    for (text, cost) in [
        ("1 1 0\n1 0 0\n", 0),
        ("1 1 0\n1 0 999999999.999999\n", 999_999_999_999_999),
    ] {
        assert!(rt; text.len() <= 1_000);
        let inst = read(rt.alloc(), text.as_bytes()).ok().ok_or("a file")?;
        assert_eq!(rt; (inst.sites(), inst.custs()), (1, 1));
        assert_eq!(rt; (inst.fixed(0), inst.lane(0, 0)), (0, Some(cost)));
    }
    Ok(())
}
