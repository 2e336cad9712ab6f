//! One walk over the nodes of a tree in preorder. The path to the next node is all that it keeps: its
//! last step says whether the split above has its second child still to come.
ghost use Rattle.std.specs.Prelude.{[], ◌≡◌, ◌<◌, ◌↔◌, IfOk, None, OnOk, Some, IsTrue, drop, if◌then◌else◌, length, slice_get};
ghost use Rattle.std.specs.Option.{option_copied};
ghost use Rattle.branch_tree.specs.Walk.{second_child, turned, next, passed, leaves_ahead, leaves_from};

use crate::entry::Entry;
use dual_value::{Duals, Path};
use instance_store::NoMemory;
use location_terms::Decision;
use std::alloc::Global;
use std::marker::Model;

/// A walk over the leaves of a tree, from the first to the last. It keeps the path to the leaf at hand,
/// and a whole walk takes time linear in the size of the tree.
#[derive(Drop)]
pub struct LeafWalk<'a> {
    path: Path,
    // The duals of the leaf at hand, while one is left.
    leaf: Option<&'a Duals>,
    // The nodes behind it.
    ahead: &'a [Entry],
}

impl<'a> Model for LeafWalk<'a> {
    ghost use Rattle.std.specs.Prelude.{List};
    ghost use Rattle.std.specs.Option.{option_copied};
    ghost use Rattle.location_terms.specs.Box.{Path as Decisions};
    ghost use Rattle.location_terms.specs.Bound.{Duals as Prices};
    ghost use Rattle.branch_tree.specs.Walk.{leaves_from, leaves_code};

    ghost Value = { List (Decisions × Prices) };

    ghost coded = { leaves_code };

    ghost view = { λ a. leaves_from a.path (option_copied a.leaf) a.ahead.now };
}

impl<'a> LeafWalk<'a> {
    // The walk over all the leaves of these nodes.
    pub(crate) fn over(alloc: Global, nodes: &'a [Entry]) -> Result<LeafWalk<'a>, NoMemory>
        ensures { IfOk result (λ w. w ≡ leaves_ahead [] nodes.now) }
    {
        let mut path = Path::root(alloc);
        let (leaf, ahead) = first_leaf(&mut path, nodes)?;
        Ok(LeafWalk { path, leaf, ahead })
    }

    /// Whether every leaf was passed.
    pub fn is_done(&self) -> bool
        ensures { IsTrue result ↔ (length self.now ≡ 0) }
    {
        self.leaf.is_none()
    }

    /// The leaf at hand: the path to it and its duals.
    pub fn leaf(&self) -> (&Path, &'a Duals)
        requires { 0 < length self.now }
        ensures { slice_get self.now 0 ≡ Some (result.0.now, result.1.now) }
    {
        match self.leaf {
            Some(duals) => (&self.path, duals),
            None => unreachable!(),
        }
    }

    /// Goes on to the next leaf. It fails only where memory runs out, and the walk is then of no use.
    pub fn pass(&mut self) -> Result<(), NoMemory>
        requires { 0 < length self.old }
        ensures { OnOk result (self.new ≡ drop 1 self.old) }
    {
        turn(&mut self.path)?;
        let (leaf, ahead) = first_leaf(&mut self.path, self.ahead)?;
        self.leaf = leaf;
        self.ahead = ahead;
        Ok(())
    }
}

// The duals of the first leaf of these nodes, if there is one, and the nodes behind it. The path, which
// is to the first node, goes there.
fn first_leaf<'a>(
    path: &mut Path,
    nodes: &'a [Entry],
) -> Result<(Option<&'a Duals>, &'a [Entry]), NoMemory>
    ensures { IfOk result (λ r. leaves_from path.new (option_copied r.0) r.1.now ≡ leaves_ahead path.old nodes.now) }
{
    let mut rest = nodes;
    while let Some((entry, ahead)) = rest.split_first() {
        match entry {
            Entry::End(duals) => return Ok((Some(duals), ahead)),
            Entry::Branch(split) => path.push(split.first_step())?,
        }
        rest = ahead;
    }
    Ok((None, rest))
}

// From the path to a node to the path to the node after it.
pub(crate) fn pass(path: &mut Path, entry: &Entry) -> Result<(), NoMemory>
    ensures { OnOk result (path.new ≡ passed path.old entry.now) }
{
    match entry {
        Entry::End(_) => turn(path),
        Entry::Branch(split) => path.push(split.first_step()),
    }
}

// From the path to a tree that is done to the path to the node after it.
pub(crate) fn turn(path: &mut Path) -> Result<(), NoMemory>
    ensures { OnOk result (path.new ≡ next path.old) }
{
    let _more = pass_leaf(path)?;
    Ok(())
}

/// From the path to a leaf to the path to the node after it in preorder: the second child of the
/// last split whose first child the path is in. The answer says whether there is one: where there
/// is none the leaf ends the whole tree, and the path is the root's. It fails only where memory runs
/// out, and the path is then of no use.
pub fn pass_leaf(path: &mut Path) -> Result<bool, NoMemory>
    ensures exact { IfOk result (λ more. turned path.old ≡ (if more then Some path.new else None)) }
    ensures next { OnOk result (path.new ≡ next path.old) }
{
    while path.steps() > 0 {
        if let Some(step) = second_child(path.pop()) {
            path.push(step)?;
            return Ok(true);
        }
    }
    Ok(false)
}

fn second_child(step: Decision) -> Option<Decision>
    ensures { result ≡ second_child step }
{
    match step {
        Decision::Closed(site) => Some(Decision::Opened(site)),
        Decision::No(site, cust) => Some(Decision::Yes(site, cust)),
        Decision::Opened(_) | Decision::Yes(_, _) => None,
    }
}
