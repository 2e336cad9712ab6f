//! Which leaves of a tree still close.
ghost use Rattle.std.specs.Prelude.{◌≡◌, ◌↔◌, IfOk, IsTrue, length};
ghost use Rattle.location_terms.specs.Leaf.{LeafCloses};
ghost use Rattle.location_terms.specs.Tree.{StandsOn};
ghost use Rattle.lane_order.specs.Order.{IsOrderOf};
ghost use Rattle.leaf_repair.specs.Held.{TellsWhichClose};

use branch_tree::{Duals, Path, Tree};
use instance_store::{Instance, NoMemory};
use lane_order::LaneOrder;
use leaf_bounds::LeafBounds;
use std::alloc::Global;

/// Whether each leaf of the tree, in preorder, closes its box against the target, a cost in millionths, or
/// without one. It fails only where memory runs out.
pub fn held(
    alloc: Global,
    inst: &Instance,
    order: &LaneOrder,
    tree: &Tree,
    target: Option<u64>,
) -> Result<Vec<bool>, NoMemory>
    requires order { IsOrderOf order.now inst.now }
    requires stands { StandsOn tree.now inst.now }
    ensures { IfOk result (λ v. TellsWhichClose inst.now tree.now target v.items) }
{
    let mut bounds = LeafBounds::by_order(alloc, inst, order);
    let mut held = Vec::with_capacity(alloc, tree.leaf_count())?;
    let mut walk = tree.leaves()?;
    while !walk.is_done() {
        let (path, duals) = walk.leaf();
        held.push(closes_box(&mut bounds, path, duals, target)?)?;
        walk.pass()?;
    }
    Ok(held)
}

// Whether the duals suit a leaf of their form and its bound closes the box.
fn closes_box(
    bounds: &mut LeafBounds<'_>,
    path: &Path,
    duals: &Duals,
    target: Option<u64>,
) -> Result<bool, NoMemory>
    requires customers { length duals.now.v ≡ length bounds.old.customers }
    requires sites { length duals.now.u ≡ length bounds.old.sites }
    ensures kept { bounds.new ≡ bounds.old }
    ensures exact { IfOk result (λ yes. IsTrue yes ↔ LeafCloses bounds.old path.now duals.now target) }
{
    if bounds.fits(duals).is_err() {
        return Ok(false);
    }
    bounds.closes(path, duals, target)
}
