// How the calls of a keeper in memory go: which of them fail, and what is counted.
ghost use Rattle.std.specs.Prelude.{◌≡◌, ◌≤◌, IsTrue};

/// Which calls fail, by their numbers, how many were made, and how many of these failed.
#[derive(Debug, Drop)]
pub(crate) struct Calls {
    failing: Vec<u64>,
    made: u64,
    faults: u64,
}

impl Calls {
    ghost use Rattle.scenario_keeper.specs.Calls.{IsCalled};

    /// The calls with these numbers fail, counted from 1.
    pub(crate) fn new(failing: Vec<u64>) -> Self
        ensures { result ≡ record { failing = failing; made = 0; faults = 0 } }
    {
        Calls {
            failing,
            made: 0,
            faults: 0,
        }
    }

    /// Makes the next call, and says whether it fails, in which case a fault is counted.
    pub(crate) fn next_fails(&mut self) -> bool
        ensures called { IsCalled (IsTrue result) self.old self.new }
        ensures counts { self.old.faults ≤ self.new.faults }
    {
        self.made = self.made.saturating_add(1);
        let fails = self.failing.contains(&self.made);
        if fails {
            self.faults = self.faults.saturating_add(1);
        }
        fails
    }
}
