//! A scenario: a base instance and the edits that lead on from it, both as text.
ghost use Rattle.std.specs.Prelude.{◌≡◌, ◌<◌, length, slice_index_or, [], IfOk, OnOk, OnErr};
ghost use Rattle.scenario_keeper.specs.Scenario.{unedited, with_line, without_last};

use crate::fault::NoMemory;
use std::alloc::Global;
use std::marker::Model;

/// The text of a base instance, and the lines of the edits that lead on from it, in order. Neither is
/// looked into here: whoever loads a scenario reads them.
#[derive(Debug, Drop)]
pub struct Scenario {
    alloc: Global,
    base: Vec<u8>,
    edits: Vec<Vec<u8>>,
}

impl Model for Scenario {
    ghost use Rattle.std.specs.Prelude.{map};
    ghost use Rattle.scenario_keeper.specs.Scenario.{Scenario as Meaning, scenario_code};

    ghost Value = { Meaning };

    ghost coded = { scenario_code };

    ghost view = { λ s. record { base = s.base.items; edits = map (λ line. line.items) s.edits.items } };
}

impl Scenario {
    /// The scenario of this base, without edits. It takes no memory.
    pub fn new(alloc: Global, base: Vec<u8>) -> Scenario
        ensures { result ≡ unedited base.items }
    {
        Scenario {
            alloc,
            base,
            edits: Vec::new(alloc),
        }
    }

    /// Puts the line of one more edit behind the others. It fails only where memory runs out, and then
    /// leaves the scenario as it was.
    pub fn push(&mut self, line: &[u8]) -> Result<(), NoMemory>
        ensures pushed { OnOk result (self.new ≡ with_line self.old line.now) }
        ensures kept { OnErr result (self.new ≡ self.old) }
    {
        let line = line.to_vec(self.alloc)?;
        self.edits.push(line)?;
        Ok(())
    }

    /// Takes the line of the last edit out, where there is one.
    pub fn pop(&mut self)
        ensures { self.new ≡ without_last self.old }
    {
        let _last = self.edits.pop();
    }

    /// The text of the base.
    pub fn base(&self) -> &[u8]
        ensures { result.now ≡ self.now.base }
    {
        &self.base
    }

    /// How many edits there are.
    pub fn lines(&self) -> usize
        ensures { result ≡ length self.now.edits }
    {
        self.edits.len()
    }

    /// The line of the edit at place `k`, counted from 0.
    pub fn line(&self, k: usize) -> &[u8]
        requires { k < length self.now.edits }
        ensures { result.now ≡ slice_index_or self.now.edits k [] }
    {
        &self.edits[k]
    }

    /// A copy of the scenario. It fails only where memory runs out.
    pub fn copied(&self, alloc: Global) -> Result<Scenario, NoMemory>
        ensures { IfOk result (λ copy. copy ≡ self.now) }
    {
        let mut copy = Scenario::new(alloc, self.base.to_vec(alloc)?);
        for line in &self.edits {
            copy.push(line)?;
        }
        Ok(copy)
    }
}
