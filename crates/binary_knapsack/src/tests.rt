ghost use Rattle.std.specs.Prelude.{◌≤◌, ◌≤ℤ◌, length, All, IfOk};
ghost use Rattle.binary_knapsack.specs.declared.room.TheConstants.{MAX_WORTH};

use super::*;
use std::alloc::Global;
use std::test::Fail;

// Equal items, equal ratios, weights and worths of 0, a worth below 0, and an item too heavy for most.
const ITEMS: [(u32, i32); 10] = [
    (3, 5),
    (0, 4),
    (7, 0),
    (2, 3),
    (2, 3),
    (9, -2),
    (5, 7),
    (4, 6),
    (30, 50),
    (1, 1),
];

fn item(weight: u32, worth: i32) -> Item
    ensures { result.worth ≤ℤ MAX_WORTH }
{
    Item {
        weight: u64::from(weight),
        worth: i128::from(worth),
    }
}

fn items(alloc: Global, pairs: &[(u32, i32)]) -> Result<Vec<Item>, NoMemory>
    requires { length pairs.now ≤ 200 }
    ensures count { IfOk result (λ items. length items.items ≤ 200) }
    ensures small { IfOk result (λ items. All (λ x. x.worth ≤ℤ MAX_WORTH) items.items) }
{
    let mut items = Vec::new(alloc);
    for (weight, worth) in pairs {
        items.push(item(*weight, *worth))?;
    }
    Ok(items)
}

fn best(alloc: Global, pairs: &[(u32, i32)], cap: Option<u64>) -> Result<i128, NoMemory>
    requires { length pairs.now ≤ 200 }
{
    let items = items(alloc, pairs)?;
    KnapsackRoom::new(alloc).best_worth(&items, cap)
}

// The greatest worth over all sets, each item with the others and without them.
fn by_sets(pairs: &[(u32, i32)], room: u32) -> i32 {
    let [(weight, worth), rest @ ..] = pairs else {
        return 0;
    };
    let without = by_sets(rest, room);
    if *weight > room {
        return without;
    }
    without.max(by_sets(rest, room - *weight).wrapping_add(*worth))
}

#[test]
fn is_that_of_all_sets(rt: HostRuntime) -> Result<(), Fail> {
    for cap in 0..64 {
        let found = best(rt.alloc(), &ITEMS, Some(u64::from(cap)))?;
        assert!(rt; found == i128::from(by_sets(&ITEMS, cap)));
    }
    Ok(())
}

#[test]
fn takes_all_that_pay_without_a_capacity(rt: HostRuntime) -> Result<(), Fail> {
    assert!(rt; best(rt.alloc(), &ITEMS, None)? == 79);
    assert!(rt; best(rt.alloc(), &[], None)? == 0);
    assert!(rt; best(rt.alloc(), &[(4, -1), (9, 3)], Some(8))? == 0);
    Ok(())
}

// Pairs without an order: weights below `most`, worths from -50 on.
fn fill(pairs: &mut [(u32, i32)], most: u32)
    requires { 1 ≤ most }
{
    let mut drawn: u32 = 1;
    for i in 0..pairs.len() {
        drawn = drawn.wrapping_mul(1_664_525).wrapping_add(1_013_904_223);
        let worth = (drawn >> 8) % 997;
        pairs[i] = ((drawn >> 16) % most, (worth as i32).wrapping_sub(50));
    }
}

// The greatest worth by a table over what is left of the capacity, item by item.
fn by_table(alloc: Global, pairs: &[(u32, i32)], cap: u16) -> Result<i32, NoMemory> {
    let mut table = vec![in alloc; 0; usize::from(cap) + 1]?;
    for (weight, worth) in pairs {
        add_item(&mut table, *weight as usize, *worth);
    }
    Ok(table.last().copied().unwrap_or(0))
}

fn add_item(table: &mut [i32], weight: usize, worth: i32) {
    for taken in 0..table.len() {
        let room = table.len() - 1 - taken;
        if weight <= room {
            let with = table[room - weight].wrapping_add(worth);
            if with > table[room] {
                table[room] = with;
            }
        }
    }
}

#[test]
fn is_that_of_all_sets_of_fifteen(rt: HostRuntime) -> Result<(), Fail> {
    let mut pairs = [(0, 0); 15];
    fill(&mut pairs, 40);
    let found = best(rt.alloc(), &pairs, Some(111))?;
    assert!(rt; found == i128::from(by_sets(&pairs, 111)));
    Ok(())
}

#[test]
fn is_that_of_a_table(rt: HostRuntime) -> Result<(), Fail> {
    let mut pairs = [(0, 0); 200];
    fill(&mut pairs, 1_000);
    let found = best(rt.alloc(), &pairs, Some(3_000))?;
    assert!(rt; found == i128::from(by_table(rt.alloc(), &pairs, 3_000)?));
    Ok(())
}
