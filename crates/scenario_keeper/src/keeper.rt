//! A keeper of scenarios as a trait.
ghost use Rattle.std.specs.Prelude.{◌≡◌, ◌≤◌, ℕ, Option, IfOk, OnOk, OnErr, IsErrOf};
ghost use Rattle.shelf_port.specs.Files.{Rose};
ghost use Rattle.scenario_keeper.specs.Table.{Table, with_scenario, without_name, Finds, SaysWhether, Lists};

use crate::fault::KeeperFault;
use crate::name_list::NameList;
use crate::scenario::Scenario;

/// Scenarios by name. A call that is refused leaves them as they were.
pub trait Keeper {
    /// The scenarios by name, where the keeper tells them.
    ghost table: { Self → Option Table };

    /// How many calls failed.
    ghost faults: { Self → ℕ };

    /// Keeps a scenario under a name, in the place of what stood there. It touches no other name.
    fn put(&mut self, name: &str, what: &Scenario) -> Result<(), KeeperFault>
        ensures ok { OnOk result (table self.new ≡ with_scenario (table self.old) name.now what.now) }
        ensures err { OnErr result (table self.new ≡ table self.old) }

        ensures failed { IsErrOf result KeeperFault.Failed → Rose (faults self.old) (faults self.new) }
        ensures counts { faults self.old ≤ faults self.new };

    /// A copy of the scenario under a name, and `None` where there is none.
    fn get(&mut self, name: &str) -> Result<Option<Scenario>, KeeperFault>
        ensures found { IfOk result (λ found. Finds (table self.old) name.now found) }
        ensures unchanged { table self.new ≡ table self.old }

        ensures failed { IsErrOf result KeeperFault.Failed → Rose (faults self.old) (faults self.new) }
        ensures counts { faults self.old ≤ faults self.new };

    /// Takes a name out with its scenario, and says whether it was there.
    fn forget(&mut self, name: &str) -> Result<bool, KeeperFault>
        ensures known { IfOk result (λ known. SaysWhether (table self.old) name.now known) }
        ensures ok { OnOk result (table self.new ≡ without_name (table self.old) name.now) }
        ensures err { OnErr result (table self.new ≡ table self.old) }

        ensures failed { IsErrOf result KeeperFault.Failed → Rose (faults self.old) (faults self.new) }
        ensures counts { faults self.old ≤ faults self.new };

    /// All names, in the order of their bytes, each with its number of edits.
    fn names(&mut self) -> Result<NameList, KeeperFault>
        ensures names { IfOk result (λ names. Lists (table self.old) names) }
        ensures unchanged { table self.new ≡ table self.old }

        ensures failed { IsErrOf result KeeperFault.Failed → Rose (faults self.old) (faults self.new) }
        ensures counts { faults self.old ≤ faults self.new };
}
