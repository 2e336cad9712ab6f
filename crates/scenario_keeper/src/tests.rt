use super::*;
use std::alloc::Global;
use std::test::Fail;

// Keeps a scenario of this base and these edits under a name.
fn puts<K: Keeper>(alloc: Global, keeper: &mut K, name: &str, base: &str, edits: &[&str]) -> bool {
    match scenario_of(alloc, base, edits) {
        Ok(scenario) => keeper.put(name, &scenario).is_ok(),
        Err(_) => false,
    }
}

fn scenario_of(alloc: Global, base: &str, edits: &[&str]) -> Result<Scenario, NoMemory> {
    let mut scenario = Scenario::new(alloc, base.as_bytes().to_vec(alloc)?);
    for edit in edits {
        scenario.push(edit.as_bytes())?;
    }
    Ok(scenario)
}

// Whether a scenario of this base and these edits stands under a name.
fn has<K: Keeper>(keeper: &mut K, name: &str, base: &str, edits: &[&str]) -> bool {
    match keeper.get(name) {
        Ok(Some(scenario)) => is_made_of(&scenario, base, edits),
        _ => false,
    }
}

fn is_made_of(scenario: &Scenario, base: &str, edits: &[&str]) -> bool {
    for k in 0..edits.len() {
        if k >= scenario.lines() || scenario.line(k) != edits[k].as_bytes() {
            return false;
        }
    }
    scenario.lines() == edits.len() && scenario.base() == base.as_bytes()
}

fn lacks<K: Keeper>(keeper: &mut K, name: &str) -> bool {
    matches!(keeper.get(name), Ok(None))
}

// Whether these are all names, with so many edits.
fn lists<K: Keeper>(keeper: &mut K, due: &[(&str, u64)]) -> bool {
    match keeper.names() {
        Ok(names) => are_listed(&names, due),
        Err(_) => false,
    }
}

fn are_listed(names: &NameList, due: &[(&str, u64)]) -> bool {
    for k in 0..due.len() {
        if k >= names.count() || names.name(k) != due[k].0 || names.lines(k) != due[k].1 {
            return false;
        }
    }
    names.count() == due.len()
}

// Keeps, replaces, lists and forgets.
fn keeps_what_it_is_given<K: Keeper>(alloc: Global, keeper: &mut K) -> bool {
    lists(keeper, &[])
        && puts(alloc, keeper, "b", "two", &["fixed 1 30", "count 2 2"])
        && puts(alloc, keeper, "a", "one", &[])
        && puts(alloc, keeper, "B", "", &[""])
        && lists(keeper, &[("B", 1), ("a", 0), ("b", 2)])
        && has(keeper, "b", "two", &["fixed 1 30", "count 2 2"])
        && puts(alloc, keeper, "b", "three", &["lane 1 3 none"])
        && has(keeper, "b", "three", &["lane 1 3 none"])
        && has(keeper, "B", "", &[""])
        && keeper.forget("a") == Ok(true)
        && keeper.forget("a") == Ok(false)
        && lacks(keeper, "a")
        && lists(keeper, &[("B", 1), ("b", 1)])
}

#[test]
fn in_memory(rt: HostRuntime) -> Result<(), Fail> {
    let alloc = rt.alloc();
    let mut keeper = MapKeeper::new(alloc, Vec::new(alloc));
    assert!(rt; keeps_what_it_is_given(alloc, &mut keeper));
    Ok(())
}

// Calls that fail are the first, the third, the fifth and the seventh.
fn fails_in_turn(alloc: Global, keeper: &mut MapKeeper) -> bool {
    !puts(alloc, keeper, "a", "one", &[])
        && lists(keeper, &[])
        && keeper.names().is_err()
        && puts(alloc, keeper, "a", "one", &["undo"])
        && keeper.get("a").is_err()
        && has(keeper, "a", "one", &["undo"])
        && keeper.forget("a") == Err(KeeperFault::Failed)
        && has(keeper, "a", "one", &["undo"])
}

#[test]
fn fails_where_it_is_told_to(rt: HostRuntime) -> Result<(), Fail> {
    let alloc = rt.alloc();
    let mut keeper = MapKeeper::new(alloc, vec![in alloc; 1, 3, 5, 7]?);
    assert!(rt; fails_in_turn(alloc, &mut keeper));
    Ok(())
}

fn takes_names_alone() -> bool {
    let long = [b'x'; 65];
    as_name(b"B_-9") == Some("B_-9")
        && is_name(&long[..64])
        && !is_name(&long)
        && as_name(b"").is_none()
        && as_name(b"a.b").is_none()
}

#[test]
fn takes_what_is_a_name(rt: HostRuntime) -> Result<(), Fail> {
    assert!(rt; takes_names_alone());
    Ok(())
}
