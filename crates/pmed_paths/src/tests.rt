ghost use Rattle.std.specs.Prelude.{◌≤◌, length};

use super::*;
use fixed_cost::{FileFault, FileKind, FormFault};
use instance_store::{Instance, SiteStatus};
use std::alloc::Global;
use std::ops::Range;
use std::test::Fail;

// Three vertices; the last edge between 1 and 2 counts.
const THREE: &str = "3 3 1\n1 2 5\n2 3 7\n1 2 4\n";

const FAR: u64 = 999_999_999_999_999;

// The costs from a vertex of a short file's network to the first three.
fn costs_from(alloc: Global, text: &str, vertex: u32) -> Option<[Option<u64>; 3]> {
    if text.len() > 1_000 {
        return None;
    }
    let net = read_net(alloc, text.as_bytes()).ok()?;
    if net.vertices() < 3 || vertex == 0 || vertex > 3 {
        return None;
    }
    let from = least_from(alloc, &net, vertex).ok()?;
    Some([from.to(1), from.to(2), from.to(3)])
}

// The fault of a short file, where it has one.
fn fault_of(alloc: Global, bytes: &[u8]) -> Option<FileFault> {
    if bytes.len() > 1_000 {
        return None;
    }
    match read(alloc, bytes) {
        Err(FormFault::File(fault)) => Some(fault),
        _ => None,
    }
}

fn has_lanes(inst: &Instance, i: usize, row: [Option<u64>; 3]) -> bool {
    i < inst.sites()
        && inst.custs() == 3
        && inst.lane(i, 0) == row[0]
        && inst.lane(i, 1) == row[1]
        && inst.lane(i, 2) == row[2]
}

fn is_of_three(inst: &Instance) -> bool {
    if inst.sites() != 3 || inst.custs() != 3 {
        return false;
    }
    let site = inst.fixed(1) == 0 && inst.cap(1).is_none() && inst.status(1) == SiteStatus::Free;
    let numbers = inst.count() == (1, 1) && inst.next_ids() == (4, 4) && inst.demand(2) == 0;
    site && numbers
        && has_lanes(inst, 0, [Some(0), Some(4_000_000), Some(11_000_000)])
        && has_lanes(inst, 2, [Some(11_000_000), Some(7_000_000), Some(0)])
}

fn reads_three(alloc: Global) -> bool {
    match read(alloc, THREE.as_bytes()) {
        Ok(inst) => is_of_three(&inst),
        Err(_) => false,
    }
}

#[test]
fn finds_cheapest_walks(rt: HostRuntime) {
    let one = costs_from(rt.alloc(), THREE, 1);
    assert_eq!(rt; one, Some([Some(0), Some(4_000_000), Some(11_000_000)]));
    let apart = costs_from(rt.alloc(), "3 2 1 2 2 9 3 2 0.5", 3);
    assert_eq!(rt; apart, Some([None, Some(500_000), Some(0)]));
    let far = "3 2 1\n1 2 999999999.999999\n2 3 0.000001\n";
    assert_eq!(rt;
        costs_from(rt.alloc(), far, 1),
        Some([Some(0), Some(FAR), Some(FAR + 1)])
    );
    let later = "5 6 1 1 4 9 1 5 1 5 4 1 4 3 1 5 3 8 4 2 3";
    assert_eq!(rt;
        costs_from(rt.alloc(), later, 1),
        Some([Some(0), Some(5_000_000), Some(3_000_000)])
    );
}

#[test]
fn names_the_first_fault(rt: HostRuntime) {
    let rows = [
        ("", FileKind::Ended, 1, 1),
        ("3 1 1\n1 2", FileKind::Ended, 2, 3),
        ("2 1 1\n1 3 3\n", FileKind::BadVertex, 2, 2),
        ("2 1 1\n1 1.5 3\n", FileKind::BadVertex, 2, 2),
        ("2 1 1\n1 1 x\n", FileKind::NotANumber, 2, 3),
        ("3001 0 1", FileKind::BadSize, 1, 1),
        ("1 10000001 1", FileKind::BadSize, 1, 2),
        ("1 0 0", FileKind::BadSize, 1, 3),
        (
            "3 2 1\n1 2 999999999.999999\n2 3 0.000001\n",
            FileKind::TooBig,
            3,
            3,
        ),
        (
            "3 2 1\n1 2 999999999.999999\n2 3 0.000001\n1",
            FileKind::Trailing,
            4,
            1,
        ),
    ];
    for (text, kind, line, word) in rows {
        let want = FileFault { kind, line, word };
        let found = fault_of(rt.alloc(), text.as_bytes());
        assert_eq!(rt; found, Some(want), "{text:?}");
    }
}

// Whether a text that ends behind so many bytes, for each of these lengths, ends where the word of this
// place is due.
fn ends_at(alloc: Global, text: &str, lens: Range<usize>, line: u32, word: u32) -> bool {
    let kind = FileKind::Ended;
    let due = Some(FileFault { kind, line, word });
    for len in lens {
        if len > text.len() || fault_of(alloc, &text.as_bytes()[..len]) != due {
            return false;
        }
    }
    true
}

#[test]
fn reads_no_part_of_a_file(rt: HostRuntime) {
    let rows = [
        (0..1, 1, 1),
        (1..3, 1, 2),
        (3..5, 1, 3),
        (5..7, 1, 4),
        (7..9, 2, 2),
        (9..11, 2, 3),
        (11..13, 2, 4),
        (13..15, 3, 2),
        (15..17, 3, 3),
        (17..19, 3, 4),
        (19..21, 4, 2),
        (21..23, 4, 3),
    ];
    for (lens, line, word) in rows {
        assert!(rt;
            ends_at(rt.alloc(), THREE, lens, line, word),
            "{line} {word}"
        );
    }
}

#[test]
fn reads_an_instance(rt: HostRuntime) -> Result<(), Fail> {
    assert!(rt; reads_three(rt.alloc()));
    let net = read_net(rt.alloc(), b"1 0 3000").ok().ok_or("a network")?;
    assert_eq!(rt; (net.vertices(), net.medians()), (1, 3_000));
    assert!(rt; to_instance(rt.alloc(), &net).is_ok());
    Ok(())
}
