// A keeper in memory.
ghost use Rattle.std.specs.Prelude.{◌≡◌, ◌≤◌, Some, IfOk, OnOk, OnErr, IsErrOf};
ghost use Rattle.std.specs.FinMap.{empty};
ghost use Rattle.shelf_port.specs.Files.{Rose};
ghost use Rattle.scenario_keeper.specs.Table.{with_scenario, without_name, names_of, Finds, SaysWhether, Lists};
ghost use Rattle.scenario_keeper.specs.Stored.{table_in};

use crate::calls::Calls;
use crate::fault::{KeeperFault, NoMemory};
use crate::keeper::Keeper;
use crate::name_list::NameList;
use crate::scenario::Scenario;
use std::alloc::Global;
use std::collections::BTreeMap;

/// Scenarios in memory. It tells them. Of its calls those with given numbers fail.
#[derive(Debug, Drop)]
pub struct MapKeeper {
    alloc: Global,
    scenarios: BTreeMap<String, Scenario>,
    calls: Calls,
}

impl MapKeeper {
    ghost use Rattle.scenario_keeper.specs.MapKeeper.{table_of, calls_of};
    ghost use Rattle.scenario_keeper.specs.Calls.{IsCalled};

    /// A keeper without scenarios. Its calls with the numbers `fails`, counted from 1 over all of them,
    /// answer `Failed`. It takes no memory.
    pub fn new(alloc: Global, fails: Vec<u64>) -> Self
        ensures table { table_of result ≡ empty }
        ensures calls { calls_of result ≡ record { failing = fails; made = 0; faults = 0 } }
    {
        MapKeeper {
            alloc,
            scenarios: BTreeMap::new(alloc),
            calls: Calls::new(fails),
        }
    }
}

impl Keeper for MapKeeper {
    ghost use Rattle.scenario_keeper.specs.MapKeeper.{table_of, calls_of};
    ghost use Rattle.scenario_keeper.specs.Calls.{IsCalled};
    ghost use Rattle.std.specs.Prelude.{Some};

    ghost table = { λ k. Some (table_of k) };

    ghost faults = { λ k. (calls_of k).faults };

    fn put(&mut self, name: &str, what: &Scenario) -> Result<(), KeeperFault>
        ensures ok { OnOk result (Some (table_of self.new) ≡
            with_scenario (Some (table_of self.old)) name.now what.now) }
        ensures err { OnErr result (Some (table_of self.new) ≡ Some (table_of self.old)) }
        ensures failed { IsErrOf result KeeperFault.Failed →
            Rose (calls_of self.old).faults (calls_of self.new).faults }
        ensures counts { (calls_of self.old).faults ≤ (calls_of self.new).faults }

        ensures called { IsCalled (IsErrOf result KeeperFault.Failed) (calls_of self.old) (calls_of self.new) }
    {
        if self.calls.next_fails() {
            return Err(KeeperFault::Failed);
        }
        let name = String::from_str(self.alloc, name)?;
        self.scenarios.insert(name, what.copied(self.alloc)?)?;
        Ok(())
    }

    fn get(&mut self, name: &str) -> Result<Option<Scenario>, KeeperFault>
        ensures found { IfOk result (λ found. Finds (Some (table_of self.old)) name.now found) }
        ensures unchanged { Some (table_of self.new) ≡ Some (table_of self.old) }
        ensures failed { IsErrOf result KeeperFault.Failed →
            Rose (calls_of self.old).faults (calls_of self.new).faults }
        ensures counts { (calls_of self.old).faults ≤ (calls_of self.new).faults }

        ensures called { IsCalled (IsErrOf result KeeperFault.Failed) (calls_of self.old) (calls_of self.new) }
    {
        if self.calls.next_fails() {
            return Err(KeeperFault::Failed);
        }
        match self.scenarios.get(name) {
            Some(scenario) => Ok(Some(scenario.copied(self.alloc)?)),
            None => Ok(None),
        }
    }

    fn forget(&mut self, name: &str) -> Result<bool, KeeperFault>
        ensures known { IfOk result (λ known. SaysWhether (Some (table_of self.old)) name.now known) }
        ensures ok { OnOk result (Some (table_of self.new) ≡
            without_name (Some (table_of self.old)) name.now) }
        ensures err { OnErr result (Some (table_of self.new) ≡ Some (table_of self.old)) }
        ensures failed { IsErrOf result KeeperFault.Failed →
            Rose (calls_of self.old).faults (calls_of self.new).faults }
        ensures counts { (calls_of self.old).faults ≤ (calls_of self.new).faults }

        ensures called { IsCalled (IsErrOf result KeeperFault.Failed) (calls_of self.old) (calls_of self.new) }
    {
        if self.calls.next_fails() {
            return Err(KeeperFault::Failed);
        }
        Ok(self.scenarios.remove(name).is_some())
    }

    fn names(&mut self) -> Result<NameList, KeeperFault>
        ensures names { IfOk result (λ names. Lists (Some (table_of self.old)) names) }
        ensures unchanged { Some (table_of self.new) ≡ Some (table_of self.old) }
        ensures failed { IsErrOf result KeeperFault.Failed →
            Rose (calls_of self.old).faults (calls_of self.new).faults }
        ensures counts { (calls_of self.old).faults ≤ (calls_of self.new).faults }

        ensures called { IsCalled (IsErrOf result KeeperFault.Failed) (calls_of self.old) (calls_of self.new) }
    {
        if self.calls.next_fails() {
            return Err(KeeperFault::Failed);
        }
        Ok(listed(self.alloc, &self.scenarios)?)
    }
}

// The names of the scenarios, in order.
fn listed(alloc: Global, scenarios: &BTreeMap<String, Scenario>) -> Result<NameList, NoMemory>
    ensures { IfOk result (λ names. names ≡ names_of (table_in scenarios.now)) }
{
    let mut names = NameList::new(alloc);
    for (name, scenario) in scenarios.iter() {
        names.push(String::from_str(alloc, name)?, scenario.lines() as u64)?;
    }
    Ok(names)
}
