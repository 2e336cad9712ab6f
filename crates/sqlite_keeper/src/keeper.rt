// A keeper in a file of SQLite. It tells nothing of what it keeps, so nothing is proved of it. Each fault
// is counted.
ghost use Rattle.std.specs.Prelude.{◌≡◌, ◌≤◌, None, IsErrOf};
ghost use Rattle.shelf_port.specs.Files.{Rose};
ghost use Rattle.sqlite_keeper.specs.Keeper.{counted_faults};

use crate::opening::Store;
use crate::refusal::Refusal;
use crate::{reading, writing};
use scenario_keeper::{Keeper, KeeperFault, NameList, Scenario};
use std::rt::HostRuntime;

/// Scenarios in a file of SQLite. It tells nothing of them.
#[derive(Drop)]
pub struct SqliteKeeper {
    rt: HostRuntime,
    path: String,
    faults: u64,
}

impl SqliteKeeper {
    /// The keeper of the file at this path, which each call opens and closes. It takes no memory, and opens
    /// nothing by itself.
    pub fn new(rt: HostRuntime, path: String) -> Self
        ensures { counted_faults result ≡ 0 }
    {
        SqliteKeeper {
            rt,
            path,
            faults: 0,
        }
    }

    /// How many calls failed.
    pub fn faults(&self) -> u64
        ensures { result ≡ counted_faults self.now }
    {
        self.faults
    }
}

impl Keeper for SqliteKeeper {
    ghost table = { λ _. None };

    ghost faults = { λ k. counted_faults k };

    fn put(&mut self, name: &str, what: &Scenario) -> Result<(), KeeperFault> {
        let kept = put(&self.rt, &self.path, name, what);
        counted(&mut self.faults, kept)
    }

    fn get(&mut self, name: &str) -> Result<Option<Scenario>, KeeperFault> {
        let found = get(&self.rt, &self.path, name);
        counted(&mut self.faults, found)
    }

    fn forget(&mut self, name: &str) -> Result<bool, KeeperFault> {
        let known = forget(&self.rt, &self.path, name);
        counted(&mut self.faults, known)
    }

    fn names(&mut self) -> Result<NameList, KeeperFault> {
        let names = names(&self.rt, &self.path);
        counted(&mut self.faults, names)
    }
}

// The answer of a call. Each refusal counts, unless memory ran out.
fn counted<T>(faults: &mut u64, answer: Result<T, Refusal>) -> Result<T, KeeperFault>
    ensures failed { IsErrOf result KeeperFault.Failed → Rose faults.old faults.new }
    ensures counts { faults.old ≤ faults.new }
{
    match answer {
        Ok(found) => Ok(found),
        Err(Refusal::NoMemory) => Err(KeeperFault::NoMemory),
        Err(Refusal::Store) => {
            *faults = faults.saturating_add(1);
            Err(KeeperFault::Failed)
        }
    }
}

fn put(rt: &HostRuntime, path: &str, name: &str, what: &Scenario) -> Result<(), Refusal> {
    let mut store = Store::open(rt, path)?;
    writing::put(&mut store.conn, name, what)
}

fn get(rt: &HostRuntime, path: &str, name: &str) -> Result<Option<Scenario>, Refusal> {
    let mut store = Store::open(rt, path)?;
    reading::get(rt.alloc(), &mut store.conn, name)
}

fn forget(rt: &HostRuntime, path: &str, name: &str) -> Result<bool, Refusal> {
    let mut store = Store::open(rt, path)?;
    writing::forget(&mut store.conn, name)
}

fn names(rt: &HostRuntime, path: &str) -> Result<NameList, Refusal> {
    let mut store = Store::open(rt, path)?;
    reading::names(rt.alloc(), &mut store.conn)
}
