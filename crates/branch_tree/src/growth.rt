//! The tree that grows from one leaf, as a search works it.
ghost use Rattle.std.specs.Prelude.{[], ◌∷◌, ◌++◌, ◌≡◌, ◌+◌, ◌-◌, ◌^◌, ◌<◌, ◌↔◌, All, IfOk, OnErr, OnOk, Some, IsTrue, length, option_map, reverse};
ghost use Rattle.location_terms.specs.Split.{second_step, IsSplitAmong};
ghost use Rattle.location_terms.specs.Tree.{Leaf, HasLists, nodes_of};
ghost use Rattle.branch_tree.specs.Preorder.{IsSound, flat};
ghost use Rattle.branch_tree.specs.Growing.{growing_from, leaf_at_work, worked, split_in_two};

use crate::entry::Entry;
use crate::open_split::{OpenSplit, next_first};
use dual_value::{Duals, Path};
use instance_store::{Instance, NoMemory};
use location_terms::Split;
use std::alloc::Global;
use std::marker::Model;

/// A tree that grows from one leaf, somewhere in a tree of boxes. The leaf at work is the last one in
/// preorder that isn't done: it is given duals, split in two, or done with. So a split's second child
/// is worked before its first.
#[derive(Drop)]
pub struct Growth<'a> {
    // Whose ids the tree stands on.
    inst: &'a Instance,
    // To the leaf at work, and to the tree's root once every leaf is done.
    path: Path,
    // The splits above the leaf at work, from the tree's root down.
    above: Vec<OpenSplit>,
    // The duals of the leaf at work.
    work: Option<Duals>,
    // The nodes that are done, the last one in preorder first. There is room for those that aren't.
    done: Vec<Entry>,
    nodes: u32,
}

impl<'a> Model for Growth<'a> {
    ghost use Rattle.std.specs.Prelude.{◌++◌, count_by};
    ghost use Rattle.branch_tree.specs.Growing.{Growing, growing_code};

    ghost Value = { Growing };

    ghost coded = { growing_code };

    ghost use Rattle.std.specs.Vec.{vec_capacity};
    ghost use Rattle.location_terms.specs.Instance.{site_ids, customer_ids};
    ghost use Rattle.branch_tree.specs.Preorder.{tree_from};
    ghost use Rattle.branch_tree.specs.Leaf.{is_end};
    ghost use Rattle.branch_tree.specs.OpenSplits.{entries_above, ends_of, nodes_kept, base_of, IsKept};

    ghost view = { λ a. record {
      tree = tree_from (site_ids a.inst.now, (customer_ids a.inst.now, nodes_kept a.above.items a.work a.done.items));
      base = base_of a.path a.above.items;
      left = count_by is_end (entries_above a.above.items ++ ends_of a.work);
    } };

    ghost invariant = { λ a. IsKept (site_ids a.inst.now) (customer_ids a.inst.now) a.path a.above.items a.work a.done.items (vec_capacity a.done) a.nodes };
}

impl<'a> Growth<'a> {
    /// One leaf with these duals, in the box of this path. It fails only where memory runs out.
    pub fn of(
        alloc: Global,
        inst: &'a Instance,
        path: Path,
        duals: Duals,
    ) -> Result<Growth<'a>, NoMemory>
        requires { HasLists (length inst.now.sites) (length inst.now.customers) duals }
        ensures { IfOk result (λ g. g ≡ growing_from inst.now path duals) }
    {
        let done = Vec::with_capacity(alloc, 1)?;
        Ok(Growth {
            inst,
            path,
            above: Vec::new(alloc),
            work: Some(duals),
            done,
            nodes: 1,
        })
    }

    /// Whether every leaf is done.
    pub fn is_done(&self) -> bool
        ensures { IsTrue result ↔ (self.now.left ≡ 0) }
    {
        self.work.is_none()
    }

    /// How many nodes the tree has, leaves and splits.
    pub fn nodes(&self) -> u32
        ensures { result ≡ nodes_of self.now.tree }
    {
        self.nodes
    }

    /// The path to the leaf at work.
    pub fn path(&self) -> &Path
        requires { 0 < self.now.left }
        ensures { option_map (λ l. l.0) (leaf_at_work self.now) ≡ Some result.now }
    {
        &self.path
    }

    /// The duals of the leaf at work.
    pub fn duals(&self) -> &Duals
        requires { 0 < self.now.left }
        ensures { option_map (λ l. l.1) (leaf_at_work self.now) ≡ Some result.now }
    {
        match &self.work {
            Some(duals) => duals,
            None => unreachable!(),
        }
    }

    /// Gives the leaf at work other duals.
    pub fn set_duals(&mut self, duals: Duals)
        requires left { 0 < self.old.left }
        requires lists { HasLists (length self.old.tree.sites) (length self.old.tree.customers) duals }
        ensures { self.new ≡ worked self.old (Leaf duals) }
    {
        self.work = Some(duals);
    }

    /// Splits the leaf at work in two leaves with these duals. The second is at work next. It fails
    /// only where memory runs out, and then changes nothing.
    pub fn split(&mut self, split: Split, first: Duals, second: Duals) -> Result<(), NoMemory>
        requires left { 0 < self.old.left }
        requires split { IsSplitAmong self.old.tree.sites self.old.tree.customers split }
        requires first { HasLists (length self.old.tree.sites) (length self.old.tree.customers) first }
        requires second { HasLists (length self.old.tree.sites) (length self.old.tree.customers) second }
        requires few { nodes_of self.old.tree + 2 < 2 ^ 32 }
        ensures ok { OnOk result (self.new ≡ split_in_two self.old split first second) }
        ensures err { OnErr result (self.new ≡ self.old) }
    {
        self.done
            .reserve(self.nodes as usize + 2 - self.done.len())?;
        self.above.reserve(1)?;
        enter_second(&mut self.path, &split)?;
        self.above.push_reserved(OpenSplit {
            split,
            first: Some(first),
        });
        self.work = Some(second);
        self.nodes += 2;
        Ok(())
    }

    /// The leaf at work is done with. The one before it in preorder is at work next.
    pub fn finish(&mut self)
        requires { 0 < self.old.left }
        ensures { self.new ≡ record self.old { left = self.old.left - 1 } }
    {
        match self.work.take() {
            Some(duals) => self.done.push_reserved(Entry::End(duals)),
            None => unreachable!(),
        }
        self.work = next_first(&mut self.above, &mut self.path, &mut self.done);
    }

    // The nodes of the tree, whose leaves are all done, the last one in preorder first.
    pub(crate) fn into_nodes(self) -> Vec<Entry>
        requires { self.left ≡ 0 }
        ensures nodes { reverse result.items ≡ flat self.entry.tree.root }
        ensures sound { All (IsSound self.entry.tree.sites self.entry.tree.customers) (reverse result.items) }
    {
        self.done
    }
}

// The path goes on to the second child of a split.
fn enter_second(path: &mut Path, split: &Split) -> Result<(), NoMemory>
    ensures ok { OnOk result (path.new ≡ path.old ++ second_step split.now ∷ []) }
    ensures err { OnErr result (path.new ≡ path.old) }
{
    path.push(split.second_step())
}
