//! A tree of boxes, kept as one list in preorder.
ghost use Rattle.std.specs.Prelude.{[], ◌∷◌, ◌++◌, ◌≡◌, ◌+◌, ◌^◌, ◌<◌, ◌≤◌, ◌↔◌, All, None, Some, IfNone, IfOk, IfSome, IsTrue, OnErr, OnOk, length, map, slice_get};
ghost use Rattle.location_terms.specs.Instance.{site_ids, customer_ids};
ghost use Rattle.location_terms.specs.Optimal.{IsLowEnd, IsImpossible};
ghost use Rattle.location_terms.specs.Split.{IsSplitAmong};
ghost use Rattle.location_terms.specs.Fit.{BoundCloses};
ghost use Rattle.location_terms.specs.Leaf.{leaf_bound, LeafFits};
ghost use Rattle.location_terms.specs.Tree.{IsTree, StandsOn, AllClose, leaves_of, low_of, nodes_of};
ghost use Rattle.dual_value.specs.Zeros.{zeros};
ghost use Rattle.branch_tree.specs.Leaf.{replaced_in};
ghost use Rattle.branch_tree.specs.Preorder.{IsStored, tree_from};
ghost use Rattle.std.specs.Option.{option_copied};
ghost use Rattle.branch_tree.specs.Made.{leaf_of, forked, nodes_shown, entry_shown, duals_at};

use crate::bounds::{all_close, least_low};
use crate::entry::Entry;
use crate::leaves::{depth_after, leaf_place, path_after, replace_at, step_after};
use crate::{LeafWalk, NodeKind};
use dual_value::{Decision, Duals, Path};
use instance_store::{Instance, NoMemory};
use leaf_bounds::LeafBounds;
use location_terms::{CustId, SiteId, Split};
use std::alloc::Global;
use std::marker::Model;

/// A tree of boxes, on the ids of the sites and customers by which its duals are read.
#[derive(Debug, Drop)]
pub struct Tree {
    sites: Vec<SiteId>,
    customers: Vec<CustId>,
    // In preorder: a split is followed by its first child, and that by its second.
    nodes: Vec<Entry>,
}

impl Model for Tree {
    ghost use Rattle.location_terms.specs.Tree.{Tree as Boxes};
    ghost use Rattle.branch_tree.specs.Preorder.{tree_of, tree_code, IsStored};

    ghost Value = { Boxes };

    ghost coded = { tree_code };

    ghost view = { λ a. record { sites = a.sites.items; customers = a.customers.items; root = tree_of a.nodes.items } };

    ghost invariant = { λ a. IsStored a.sites.items a.customers.items a.nodes.items };
}

impl Tree {
    /// One leaf whose duals are 0 at scale 1. It fails only where memory runs out.
    pub fn root(alloc: Global, inst: &Instance) -> Result<Tree, NoMemory>
        ensures { IfOk result (λ t. t ≡ leaf_of inst.now (zeros inst.now 1)) }
    {
        let _valid = inst.sites();
        let duals = Duals::zeros(alloc, inst, 1)?;
        Tree::leaf(alloc, inst, duals)
    }

    /// One leaf with these duals. It fails only where memory runs out.
    pub fn leaf(alloc: Global, inst: &Instance, duals: Duals) -> Result<Tree, NoMemory>
        requires { LeafFits inst.now duals }
        ensures { IfOk result (λ t. t ≡ leaf_of inst.now duals) }
    {
        let nodes = ended(alloc, duals)?;
        let sites = site_list(alloc, inst)?;
        let customers = customer_list(alloc, inst)?;
        Ok(Tree {
            sites,
            customers,
            nodes,
        })
    }

    /// A split, with the trees of the boxes of its first and its second child. It fails only where memory
    /// runs out.
    pub fn fork(split: Split, first: Tree, second: Tree) -> Result<Tree, NoMemory>
        requires sites { second.sites ≡ first.sites }
        requires customers { second.customers ≡ first.customers }
        requires split { IsSplitAmong first.sites first.customers split }
        requires few { nodes_of first + nodes_of second + 1 < 2 ^ 32 }
        ensures { IfOk result (λ t. t ≡ forked split first second) }
    {
        let nodes = joined(split, first.nodes, second.nodes)?;
        Ok(Tree {
            sites: first.sites,
            customers: first.customers,
            nodes,
        })
    }

    // The tree that has these nodes in preorder.
    pub(crate) fn of_nodes(sites: Vec<SiteId>, customers: Vec<CustId>, nodes: Vec<Entry>) -> Tree
        requires { IsStored sites.items customers.items nodes.items }
        ensures { result ≡ tree_from (sites.items, (customers.items, nodes.items)) }
    {
        Tree {
            sites,
            customers,
            nodes,
        }
    }

    // The ids of the sites and of the customers, and the nodes in preorder.
    pub(crate) fn into_parts(self) -> (Vec<SiteId>, Vec<CustId>, Vec<Entry>)
        ensures stored { IsStored result.0.items result.1.items result.2.items }
        ensures same { tree_from (result.0.items, (result.1.items, result.2.items)) ≡ self }
    {
        (self.sites, self.customers, self.nodes)
    }

    /// How many nodes the tree has, leaves and splits.
    pub fn nodes(&self) -> u32
        ensures count { result ≡ nodes_of self.now }
        ensures tree { IsTree self.now }
    {
        self.nodes.len() as u32
    }

    /// How many leaves the tree has.
    pub fn leaf_count(&self) -> usize
        ensures { result ≡ length (leaves_of self.now) }
    {
        // A tree of splits in two has one leaf more than splits.
        self.nodes.len() / 2 + 1
    }

    /// The duals of leaf `k`, counted in preorder from 0.
    pub fn leaf_duals(&self, k: usize) -> &Duals
        requires { k < length (leaves_of self.now) }
        ensures { slice_get (map (λ l. l.1) (leaves_of self.now)) k ≡ Some result.now }
    {
        let place = leaf_place(&self.nodes, k);
        match &self.nodes[place] {
            Entry::End(duals) => duals,
            _ => unreachable!(),
        }
    }

    /// The path to leaf `k`, counted in preorder from 0. It fails only where memory runs out.
    pub fn leaf_path(&self, k: usize) -> Result<Path, NoMemory>
        requires { k < length (leaves_of self.now) }
        ensures { IfOk result (λ path. slice_get (map (λ l. l.0) (leaves_of self.now)) k ≡ Some path) }
    {
        let place = leaf_place(&self.nodes, k);
        let path = path_after(*self.nodes.allocator(), &self.nodes[..place])?;
        Ok(path)
    }

    /// How many steps the path to leaf `k` has, counted in preorder from 0.
    pub fn leaf_depth(&self, k: usize) -> usize
        requires { k < length (leaves_of self.now) }
        ensures { slice_get (map (λ l. length l.0) (leaves_of self.now)) k ≡ Some result }
    {
        let place = leaf_place(&self.nodes, k);
        depth_after(&self.nodes[..place])
    }

    /// The step at place `at`, counted from the root, of the path to leaf `k`, counted in preorder
    /// from 0.
    pub fn leaf_step(&self, k: usize, at: usize) -> Decision
        requires leaf { k < length (leaves_of self.now) }
        requires step { IfSome (slice_get (map (λ l. length l.0) (leaves_of self.now)) k) (λ depth. at < depth) }
        ensures { slice_get (map (λ l. slice_get l.0 at) (leaves_of self.now)) k ≡ Some (Some result) }
    {
        let place = leaf_place(&self.nodes, k);
        step_after(&self.nodes[..place], at)
    }

    /// Puts the part's root in the place of leaf `k`, counted in preorder from 0. It fails only where
    /// memory runs out, and then changes nothing.
    pub fn replace_leaf(&mut self, k: usize, part: Tree) -> Result<(), NoMemory>
        requires leaf { k < length (leaves_of self.old) }
        requires sites { part.sites ≡ self.old.sites }
        requires customers { part.customers ≡ self.old.customers }
        requires few { nodes_of self.old + nodes_of part ≤ 2 ^ 32 }
        ensures ok { OnOk result (self.new ≡ replaced_in self.old k part) }
        ensures err { OnErr result (self.new ≡ self.old) }
    {
        let place = leaf_place(&self.nodes, k);
        replace_at(&mut self.nodes, place, part.nodes)?;
        Ok(())
    }

    /// The node at this place in preorder, counted from 0.
    pub fn node(&self, at: u32) -> NodeKind
        requires { at < nodes_of self.now }
        ensures { slice_get (nodes_shown self.now.root) at ≡ Some result }
    {
        shown(&self.nodes[at as usize])
    }

    /// The duals of the node at this place in preorder, counted from 0, where a leaf is there.
    pub fn duals(&self, at: u32) -> Option<&Duals>
        ensures { option_copied result ≡ duals_at self.now.root at }
    {
        match self.nodes.get(at as usize) {
            Some(Entry::End(duals)) => Some(duals),
            _ => None,
        }
    }

    /// A walk over the leaves, with the first one at hand. It fails only where memory runs out.
    pub fn leaves(&self) -> Result<LeafWalk<'_>, NoMemory>
        ensures leaves { IfOk result (λ w. w ≡ leaves_of self.now) }
        ensures tree { IsTree self.now }
    {
        LeafWalk::over(*self.nodes.allocator(), &self.nodes)
    }

    /// Whether each leaf closes its box against the target, a cost in millionths, or without one. Where
    /// each does, no feasible plan costs less than the target; without a target there is none. It fails
    /// only where memory runs out.
    pub fn accepts(&self, inst: &Instance, target: Option<u64>) -> Result<bool, NoMemory>
        requires { StandsOn self.now inst.now }
        ensures exact { IfOk result (λ yes. IsTrue yes ↔ AllClose inst.now self.now target) }
        ensures low_end { IfOk result (λ yes. IsTrue yes → IfSome target (IsLowEnd inst.now)) }
        ensures impossible { IfOk result (λ yes. IsTrue yes → IfNone target (IsImpossible inst.now)) }
    {
        let mut bounds = LeafBounds::of(*self.nodes.allocator(), inst);
        self.accepts_by(inst, &mut bounds, target)
    }

    /// The same by bounds that are lent, those of leaves of the instance.
    pub fn accepts_by(
        &self,
        inst: &Instance,
        bounds: &mut LeafBounds<'_>,
        target: Option<u64>,
    ) -> Result<bool, NoMemory>
        requires stands { StandsOn self.now inst.now }
        requires bounds { bounds.old ≡ inst.now }
        ensures kept { bounds.new ≡ bounds.old }
        ensures exact { IfOk result (λ yes. IsTrue yes ↔ AllClose inst.now self.now target) }
        ensures low_end { IfOk result (λ yes. IsTrue yes → IfSome target (IsLowEnd inst.now)) }
        ensures impossible { IfOk result (λ yes. IsTrue yes → IfNone target (IsImpossible inst.now)) }
    {
        let _valid = inst.sites();
        let yes = all_close(self.leaves()?, inst, bounds, target)?;
        Ok(yes)
    }

    /// The low end that the tree shows, in millionths: the least over the leaves with a scale of their
    /// bound over the scale, rounded up and held between 0 and `MAX_COST`, and `MAX_COST` where no leaf
    /// has a scale. Where the leaves of scale 0 close, no feasible plan costs less. It fails only where
    /// memory runs out.
    pub fn low(&self, inst: &Instance) -> Result<u64, NoMemory>
        requires { All (λ l. LeafFits inst.now l.1) (leaves_of self.now) }
        ensures exact { IfOk result (λ low. low ≡ low_of inst.now self.now) }
        ensures low_end { All (λ l. l.1.q ≡ 0 → BoundCloses (leaf_bound inst.now l.0 l.1) 0 None) (leaves_of self.now) → IfOk result (IsLowEnd inst.now) }
    {
        let mut bounds = LeafBounds::of(*self.nodes.allocator(), inst);
        self.low_by(inst, &mut bounds)
    }

    /// The same by bounds that are lent, those of leaves of the instance.
    pub fn low_by(&self, inst: &Instance, bounds: &mut LeafBounds<'_>) -> Result<u64, NoMemory>
        requires fit { All (λ l. LeafFits inst.now l.1) (leaves_of self.now) }
        requires bounds { bounds.old ≡ inst.now }
        ensures kept { bounds.new ≡ bounds.old }
        ensures exact { IfOk result (λ low. low ≡ low_of inst.now self.now) }
        ensures low_end { All (λ l. l.1.q ≡ 0 → BoundCloses (leaf_bound inst.now l.0 l.1) 0 None) (leaves_of self.now) → IfOk result (IsLowEnd inst.now) }
    {
        let _valid = inst.sites();
        let low = least_low(self.leaves()?, bounds)?;
        Ok(low)
    }

    /// The ids of the sites by which the prices of capacities are read.
    pub fn site_ids(&self) -> &[SiteId]
        ensures { result.now ≡ self.now.sites }
    {
        self.sites.as_slice()
    }

    /// The ids of the customers by which the duals are read.
    pub fn cust_ids(&self) -> &[CustId]
        ensures { result.now ≡ self.now.customers }
    {
        self.customers.as_slice()
    }
}

fn shown(entry: &Entry) -> NodeKind
    ensures { result ≡ entry_shown entry.now }
{
    match entry {
        Entry::End(_) => NodeKind::Leaf,
        Entry::Branch(split) => NodeKind::Split(*split),
    }
}

fn ended(alloc: Global, duals: Duals) -> Result<Vec<Entry>, NoMemory>
    ensures { IfOk result (λ v. v.items ≡ Entry.End duals ∷ []) }
{
    let mut nodes = Vec::with_capacity(alloc, 1)?;
    nodes.push(Entry::End(duals))?;
    Ok(nodes)
}

// A split and the nodes of its children, in the first child's memory where it has room.
fn joined(split: Split, first: Vec<Entry>, second: Vec<Entry>) -> Result<Vec<Entry>, NoMemory>
    ensures { IfOk result (λ v. v.items ≡ Entry.Branch split ∷ first.items ++ second.items) }
{
    let mut nodes = first;
    let mut rest = second;
    nodes.insert(0, Entry::Branch(split))?;
    nodes.append(&mut rest)?;
    Ok(nodes)
}

pub(crate) fn site_list(alloc: Global, inst: &Instance) -> Result<Vec<SiteId>, NoMemory>
    ensures { IfOk result (λ v. v.items ≡ site_ids inst.now) }
{
    let mut ids = Vec::with_capacity(alloc, inst.sites())?;
    for site in 0..inst.sites() {
        ids.push(inst.site_id(site))?;
    }
    Ok(ids)
}

pub(crate) fn customer_list(alloc: Global, inst: &Instance) -> Result<Vec<CustId>, NoMemory>
    ensures { IfOk result (λ v. v.items ≡ customer_ids inst.now) }
{
    let mut ids = Vec::with_capacity(alloc, inst.custs())?;
    for cust in 0..inst.custs() {
        ids.push(inst.cust_id(cust))?;
    }
    Ok(ids)
}
