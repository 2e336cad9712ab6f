//! Whether leaves close their boxes, and the low end that they show.
ghost use Rattle.std.specs.Prelude.{◌≡◌, ◌≤◌, ◌↔◌, All, IfOk, IsTrue, length, unsigned_abs};
ghost use Rattle.location_terms.specs.Leaf.{LeafCloses, LeafFits};
ghost use Rattle.location_terms.specs.Tree.{HasLists, low_end};
ghost use Rattle.location_terms.specs.declared.limits.TheConstants.{MAX_COST};
ghost use Rattle.dual_value.specs.declared.bounds.TheConstants.{MAX_BOUND};
ghost use Rattle.branch_tree.specs.Walk.{lowered, lowered_all};

use crate::LeafWalk;
use dual_value::{Duals, Path};
use instance_store::{Instance, NoMemory};
use leaf_bounds::LeafBounds;
use location_terms::MAX_COST;

// Whether each leaf closes.
pub(crate) fn all_close(
    walk: LeafWalk<'_>,
    inst: &Instance,
    bounds: &mut LeafBounds<'_>,
    target: Option<u64>,
) -> Result<bool, NoMemory>
    requires bounds { bounds.old ≡ inst.now }
    requires lists { All (λ l. HasLists (length inst.now.sites) (length inst.now.customers) l.1) walk }
    ensures kept { bounds.new ≡ bounds.old }
    ensures exact { IfOk result (λ yes. IsTrue yes ↔ All (λ l. LeafCloses inst.now l.0 l.1 target) walk.entry) }
{
    let mut walk = walk;
    while !walk.is_done() {
        let (path, duals) = walk.leaf();
        if !closes_box(inst, bounds, path, duals, target)? {
            return Ok(false);
        }
        walk.pass()?;
    }
    Ok(true)
}

// The least low end of the leaves with a scale, and `MAX_COST` where there is none.
pub(crate) fn least_low(walk: LeafWalk<'_>, bounds: &mut LeafBounds<'_>) -> Result<u64, NoMemory>
    requires { All (λ l. LeafFits bounds.old l.1) walk }
    ensures kept { bounds.new ≡ bounds.old }
    ensures exact { IfOk result (λ low. low ≡ lowered_all bounds.old MAX_COST walk.entry) }
{
    let mut walk = walk;
    let mut least = MAX_COST;
    while !walk.is_done() {
        let (path, duals) = walk.leaf();
        least = lowered(bounds, path, duals, least)?;
        walk.pass()?;
    }
    Ok(least)
}

// Whether the duals fit and their bound closes the box.
fn closes_box(
    inst: &Instance,
    bounds: &mut LeafBounds<'_>,
    path: &Path,
    duals: &Duals,
    target: Option<u64>,
) -> Result<bool, NoMemory>
    requires bounds { bounds.old ≡ inst.now }
    requires customers { length duals.now.v ≡ length inst.now.customers }
    requires sites { length duals.now.u ≡ length inst.now.sites }
    ensures kept { bounds.new ≡ bounds.old }
    ensures exact { IfOk result (λ yes. IsTrue yes ↔ LeafCloses inst.now path.now duals.now target) }
{
    if bounds.fits(duals).is_err() {
        return Ok(false);
    }
    bounds.closes(path, duals, target)
}

// The lesser of the number and of the low end that the duals show, where they have a scale.
fn lowered(
    bounds: &mut LeafBounds<'_>,
    path: &Path,
    duals: &Duals,
    least: u64,
) -> Result<u64, NoMemory>
    requires { LeafFits bounds.old duals.now }
    ensures kept { bounds.new ≡ bounds.old }
    ensures exact { IfOk result (λ low. low ≡ lowered bounds.old least (path.now, duals.now)) }
{
    if duals.q() == 0 {
        return Ok(least);
    }
    let bound = bounds.bound(path, duals)?;
    Ok(least.min(low_end(bound, duals.q())))
}

// The least whole number that is at least `bound / q`, 0 where that is below 0, at most `MAX_COST`.
fn low_end(bound: i128, q: u32) -> u64
    requires scaled { 1 ≤ q }
    requires small { unsigned_abs bound ≤ MAX_BOUND }
    ensures { result ≡ low_end bound q }
{
    if bound < 0 {
        return 0;
    }
    let ceiling = (bound.unsigned_abs() + u128::from(q - 1)) / u128::from(q);
    ceiling.min(u128::from(MAX_COST)) as u64
}
