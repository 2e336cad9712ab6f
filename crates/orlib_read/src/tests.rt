ghost use Rattle.std.specs.Prelude.{◌≤◌, length};

use super::*;
use fixed_cost::{FileFault, FileKind};
use instance_store::{CustId, SiteId};
use std::ops::Range;
use std::test::Fail;

const PAIR: &str = "2 2\n10 7500.00000\n10 0.50000\n6 6739.72500 1.25\n6 3.00000 4.00000\n";

// The layout of the library.
const LAYOUT: &str =
    " 2 3 \n 5000 7500. \n 5000 7500. \n 146 \n 6739.72500 10355.05000 \n 87 \n 3204.86250 3853.29375 \n 672 \n 4914.00000 \n 26409.60000 \n";

// The fault of a file that was read, where it has one.
fn fault_of(read: Result<Instance, FormFault>) -> Option<FileFault> {
    match read {
        Err(FormFault::File(fault)) => Some(fault),
        _ => None,
    }
}

// Whether a short file has this fault, with its capacities and without them.
fn fails_as(alloc: Global, bytes: &[u8], fault: FileFault) -> bool
    requires { length bytes.now ≤ 1000 }
{
    fault_of(read_cap(alloc, bytes, None)) == Some(fault)
        && fault_of(read_uncap(alloc, bytes)) == Some(fault)
}

fn has_sites_of_pair(inst: &Instance, cap: Option<u64>) -> bool {
    if inst.sites() != 2 {
        return false;
    }
    let ids = inst.site_id(0) == SiteId::new(1) && inst.site_id(1) == SiteId::new(2);
    let fixed = inst.fixed(0) == 7_500_000_000 && inst.fixed(1) == 500_000;
    ids && fixed && inst.cap(0) == cap && inst.cap(1) == cap
}

fn has_customers_of_pair(inst: &Instance) -> bool {
    if inst.custs() != 2 {
        return false;
    }
    let ids = inst.cust_id(0) == CustId::new(1) && inst.cust_id(1) == CustId::new(2);
    ids && inst.demand(0) == 6_000_000 && inst.demand(1) == 6_000_000
}

fn has_lane(inst: &Instance, i: usize, j: usize, cost: u64) -> bool {
    i < inst.sites() && j < inst.custs() && inst.lane(i, j) == Some(cost)
}

fn is_pair(inst: &Instance, cap: Option<u64>) -> bool {
    has_sites_of_pair(inst, cap)
        && has_customers_of_pair(inst)
        && has_lane(inst, 0, 0, 6_739_725_000)
        && has_lane(inst, 1, 0, 1_250_000)
        && has_lane(inst, 0, 1, 3_000_000)
        && has_lane(inst, 1, 1, 4_000_000)
        && inst.count() == (0, 3_000)
        && inst.next_ids() == (3, 3)
}

#[test]
fn reads_each_spelling_of_the_pair(rt: HostRuntime) -> Result<(), Fail> {
    let texts = [
        (PAIR, None),
        (
            " 2 2 \n capacity 7500. \n capacity .5 \n 6 \n 6739.72500 1.25000 \n 6 \n 3.00000 \n 4.00000 \n",
            Amount::new(10_000_000),
        ),
        (
            "2. +2 10.0000000 7500\tcapacity 0.5 006 6739.725 1.25\r\n6.\r\n3 4",
            Amount::new(10_000_000),
        ),
    ];
    for (text, given) in texts {
        assert!(rt; text.len() <= 1_000);
        let inst = read_cap(rt.alloc(), text.as_bytes(), given)
            .ok()
            .ok_or("a file")?;
        assert!(rt; is_pair(&inst, Some(10_000_000)), "{text:?}");
        let inst = read_uncap(rt.alloc(), text.as_bytes())
            .ok()
            .ok_or("a file")?;
        assert!(rt; is_pair(&inst, None), "{text:?}");
    }
    Ok(())
}

#[test]
fn names_the_first_fault(rt: HostRuntime) {
    let rows = [
        ("", FileKind::Ended, 1, 1),
        ("\n2 1\n5 1 5\n\n", FileKind::Ended, 3, 4),
        ("2 2\n10 7500\n10 0.5\n6 1 2\n6 3\n", FileKind::Ended, 5, 3),
        ("1 1 5 0 5 2\ncapacity", FileKind::Trailing, 2, 1),
        ("FILE: a\n1 1 5 0 5 2\n", FileKind::NotANumber, 1, 1),
        ("3001 1", FileKind::BadSize, 1, 1),
        ("0 1", FileKind::BadSize, 1, 1),
        ("1 5001", FileKind::BadSize, 1, 2),
        ("3000 3334", FileKind::BadSize, 1, 2),
        ("2000 5000", FileKind::Ended, 1, 3),
        ("1 1\nCapacity 0 5 2", FileKind::NotANumber, 2, 1),
        ("1 1\n5 capacity 5 2", FileKind::NotANumber, 2, 2),
        ("1 1\n5 0 capacity 2", FileKind::NotANumber, 2, 3),
        ("1 1\n5.0000001 0 5 2", FileKind::TooFine, 2, 1),
        ("1 1\n1000000000 0 5 2", FileKind::TooBig, 2, 1),
    ];
    for (text, kind, line, word) in rows {
        assert!(rt; text.len() <= 1_000);
        let want = FileFault { kind, line, word };
        assert!(rt; fails_as(rt.alloc(), text.as_bytes(), want), "{text:?}");
    }
}

#[test]
fn wants_a_capacity_where_one_is_kept(rt: HostRuntime) {
    let text = "1 1\n5 0 5 2".as_bytes();
    assert_eq!(rt; fault_of(read_cap(rt.alloc(), text, None)), None);
    let text = "1 1\ncapacity x".as_bytes();
    let missing = FileFault {
        kind: FileKind::NeedCapacity,
        line: 2,
        word: 1,
    };
    assert_eq!(rt; fault_of(read_cap(rt.alloc(), text, None)), Some(missing));
    let spelled = FileFault {
        kind: FileKind::NotANumber,
        line: 2,
        word: 2,
    };
    assert_eq!(rt; fault_of(read_uncap(rt.alloc(), text)), Some(spelled));
}

// Whether a short text that ends behind so many bytes, for each of these lengths, ends where the word of
// this place is due.
fn ends_at(alloc: Global, text: &str, lens: Range<usize>, line: u32, word: u32) -> bool {
    let kind = FileKind::Ended;
    let due = FileFault { kind, line, word };
    for len in lens {
        if len > text.len() || len > 1_000 || !fails_as(alloc, &text.as_bytes()[..len], due) {
            return false;
        }
    }
    true
}

#[test]
fn reads_no_part_of_a_file(rt: HostRuntime) {
    let pair = [
        (0..1, 1, 1),
        (1..3, 1, 2),
        (3..5, 1, 3),
        (5..8, 2, 2),
        (8..19, 2, 3),
        (19..22, 3, 2),
        (22..30, 3, 3),
        (30..32, 4, 2),
        (32..43, 4, 3),
        (43..48, 4, 4),
        (48..50, 5, 2),
        (50..58, 5, 3),
    ];
    for (lens, line, word) in pair {
        assert!(rt;
            ends_at(rt.alloc(), PAIR, lens, line, word),
            "{line} {word}"
        );
    }
    let layout = [
        (0..2, 1, 1),
        (2..4, 1, 2),
        (4..8, 1, 3),
        (8..13, 2, 2),
        (13..21, 2, 3),
        (21..26, 3, 2),
        (26..34, 3, 3),
        (34..40, 4, 2),
        (40..51, 5, 2),
        (51..65, 5, 3),
        (65..70, 6, 2),
        (70..81, 7, 2),
        (81..94, 7, 3),
        (94..100, 8, 2),
        (100..113, 9, 2),
    ];
    for (lens, line, word) in layout {
        assert!(rt;
            ends_at(rt.alloc(), LAYOUT, lens, line, word),
            "{line} {word}"
        );
    }
}
