//! The names of scenarios.
ghost use Rattle.std.specs.Prelude.{◌≡◌, ◌<◌, ◌↔◌, ◌++◌, ◌∷◌, [], length, slice_index_or, string_bytes, IsTrue, OnOk, OnErr};
ghost use Rattle.std.specs.Ordering.{is_lt, nat_cmp};
ghost use Rattle.std.specs.Cmp.Lexicographic.{slice_cmp};
ghost use Rattle.scenario_keeper.specs.Names.{NamesRise, IsAbove};

use crate::fault::NoMemory;
use std::alloc::Global;
use std::marker::Model;

// A name, and how many edits stand under it.
#[derive(Debug, Drop)]
struct Named {
    name: String,
    lines: u64,
}

/// Names of scenarios, each with its number of edits. The names rise by their bytes, so that none stands
/// twice.
#[derive(Debug, Drop)]
pub struct NameList {
    entries: Vec<Named>,
}

impl Model for NameList {
    ghost use Rattle.std.specs.Prelude.{List, ℕ, map, string_bytes};

    ghost Value = { List (List ℕ × ℕ) };

    ghost use Rattle.scenario_keeper.specs.Named.{names_in};
    ghost use Rattle.scenario_keeper.specs.Names.{NamesRise};

    ghost view = { λ a. names_in a.entries.items };

    ghost invariant = { λ a. NamesRise (names_in a.entries.items) };
}

impl NameList {
    /// No names. It takes no memory.
    pub fn new(alloc: Global) -> NameList
        ensures { result ≡ [] }
    {
        NameList {
            entries: Vec::new(alloc),
        }
    }

    /// Puts a name behind the others, which are all below it, with its number of edits. It fails only
    /// where memory runs out, and then leaves the list as it was.
    pub fn push(&mut self, name: String, lines: u64) -> Result<(), NoMemory>
        requires { IsAbove self.old (string_bytes name) }
        ensures pushed { OnOk result (self.new ≡ self.old ++ (string_bytes name, lines) ∷ []) }
        ensures kept { OnErr result (self.new ≡ self.old) }
    {
        self.entries.push(Named { name, lines })?;
        Ok(())
    }

    /// Whether all names are below this one.
    pub fn are_below(&self, name: &str) -> bool
        ensures { IsTrue result ↔ IsAbove self.now name.now }
    {
        match self.entries.split_last() {
            Some((last, _before)) => is_below(&last.name, name),
            None => true,
        }
    }

    /// How many names there are.
    pub fn count(&self) -> usize
        ensures count { result ≡ length self.now }
        ensures rise { NamesRise self.now }
    {
        self.entries.len()
    }

    /// The name at place `k`, counted from 0.
    pub fn name(&self, k: usize) -> &str
        requires { k < length self.now }
        ensures { result.now ≡ (slice_index_or self.now k ([], 0)).0 }
    {
        &self.entries[k].name
    }

    /// How many edits stand under the name at place `k`, counted from 0.
    pub fn lines(&self, k: usize) -> u64
        requires { k < length self.now }
        ensures { result ≡ (slice_index_or self.now k ([], 0)).1 }
    {
        self.entries[k].lines
    }
}

// Whether the bytes of one name are below those of another.
fn is_below(name: &str, other: &str) -> bool
    ensures { result ≡ is_lt (slice_cmp nat_cmp name.now other.now) }
{
    name.cmp(other).is_lt()
}
