use scenario_keeper::{Keeper, KeeperFault, NoMemory, Scenario};
use sqlite_keeper::SqliteKeeper;
use std::alloc::Global;
use std::fs;
use std::test::Fail;

fn scenario_of(alloc: Global, base: &str, edits: &[&str]) -> Result<Scenario, NoMemory> {
    let mut scenario = Scenario::new(alloc, base.as_bytes().to_vec(alloc)?);
    for edit in edits {
        scenario.push(edit.as_bytes())?;
    }
    Ok(scenario)
}

// Keeps a scenario of this base and these edits under a name.
fn puts<K: Keeper>(alloc: Global, keeper: &mut K, name: &str, base: &str, edits: &[&str]) -> bool {
    match scenario_of(alloc, base, edits) {
        Ok(scenario) => keeper.put(name, &scenario).is_ok(),
        Err(_) => false,
    }
}

// Whether a scenario of this base, with two edits of which this is the second, stands under a name.
fn has<K: Keeper>(keeper: &mut K, name: &str, base: &str, second: &str) -> bool {
    match keeper.get(name) {
        Ok(Some(it)) => {
            it.lines() == 2 && it.base() == base.as_bytes() && it.line(1) == second.as_bytes()
        }
        _ => false,
    }
}

// Whether so many names are listed, of which this is the first.
fn lists<K: Keeper>(keeper: &mut K, count: usize, first: &str, lines: u64) -> bool {
    match keeper.names() {
        Ok(names) => {
            names.count() == count && count > 0 && names.name(0) == first && names.lines(0) == lines
        }
        Err(_) => false,
    }
}

// What one run keeps another one finds.
fn outlives_a_run<K: Keeper>(alloc: Global, one: &mut K, other: &mut K) -> bool {
    puts(alloc, one, "b", "two", &["fixed 1 30", "count 2 2"])
        && puts(alloc, one, "b", "base", &["", "undo"])
        && puts(alloc, one, "B", "", &[])
        && lists(other, 2, "B", 0)
        && has(other, "b", "base", "undo")
        && other.forget("B") == Ok(true)
        && one.forget("B") == Ok(false)
        && lists(one, 1, "b", 2)
}

fn fails<K: Keeper>(alloc: Global, keeper: &mut K) -> bool {
    !puts(alloc, keeper, "a", "base", &[]) && keeper.forget("a") == Err(KeeperFault::Failed)
}

#[test]
fn in_a_file(rt: HostRuntime) -> Result<(), Fail> {
    let alloc = rt.alloc();
    let mut one = SqliteKeeper::new(rt, String::from_str(alloc, "scenarios.db")?);
    let mut other = SqliteKeeper::new(rt, String::from_str(alloc, "scenarios.db")?);
    let kept = outlives_a_run(alloc, &mut one, &mut other);
    let _ = fs::remove_file(&rt, "scenarios.db");
    let _ = fs::remove_file(&rt, "scenarios.db-wal");
    assert!(rt; kept);
    assert_eq!(rt; one.faults(), 0);
    Ok(())
}

#[test]
fn in_no_file(rt: HostRuntime) -> Result<(), Fail> {
    let alloc = rt.alloc();
    let mut nowhere = SqliteKeeper::new(rt, String::from_str(alloc, "nowhere/scenarios.db")?);
    assert!(rt; fails(alloc, &mut nowhere));
    assert_eq!(rt; nowhere.faults(), 2);
    Ok(())
}
