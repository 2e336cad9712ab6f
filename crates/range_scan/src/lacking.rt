//! By how much the bounds of a tree's leaves fall short of what a plan costs.
ghost use Rattle.std.specs.Prelude.{◌≡◌, ℕ, ◌+◌, ◌*◌, ◌≤◌, ◌↔◌, All, IfOk, pos, ◌+ℤ◌, ◌<ℤ◌, unsigned_abs};
ghost use Rattle.location_terms.specs.Plan.{IsFeasible, cost_of};
ghost use Rattle.location_terms.specs.Leaf.{LeafFits};
ghost use Rattle.location_terms.specs.Tree.{leaves_of};
ghost use Rattle.dual_value.specs.declared.bounds.TheConstants.{MAX_BOUND};
ghost use Rattle.range_scan.specs.Short.{LacksAtMost, IsLack};

use branch_tree::{Duals, LeafWalk, Path, Tree};
use instance_store::{Instance, NoMemory};
use leaf_bounds::LeafBounds;
use plan_meaning::{Plan, cost};
use std::alloc::Global;

// The least number of millionths by which each leaf lacks at most, so that it would close against what
// the plan costs. It is 0 where each closes.
pub(crate) fn lack(
    alloc: Global,
    inst: &Instance,
    tree: &Tree,
    plan: &Plan,
) -> Result<u128, NoMemory>
    requires feasible { IsFeasible inst.now plan.now }
    requires fit { All (λ l. LeafFits inst.now l.1) (leaves_of tree.now) }
    ensures { IfOk result (IsLack inst.now (cost_of inst.now plan.now) (leaves_of tree.now)) }
{
    let _valid = inst.sites();
    let target = cost(inst, plan);
    let mut bounds = LeafBounds::of(alloc, inst);
    let lack = most_lacking(tree.leaves()?, &mut bounds, target)?;
    Ok(lack)
}

fn most_lacking(
    walk: LeafWalk<'_>,
    bounds: &mut LeafBounds<'_>,
    target: u64,
) -> Result<u128, NoMemory>
    requires { All (λ l. LeafFits bounds.old l.1) walk }
    ensures { IfOk result (IsLack bounds.old target walk.entry) }
{
    let mut walk = walk;
    let mut most = 0;
    while !walk.is_done() {
        let (path, duals) = walk.leaf();
        most = raised(bounds, path, duals, target, most)?;
        walk.pass()?;
    }
    Ok(most)
}

// The greater of the number and of what the leaf lacks. At scale 0 a leaf lacks nothing.
fn raised(
    bounds: &mut LeafBounds<'_>,
    path: &Path,
    duals: &Duals,
    target: u64,
    most: u128,
) -> Result<u128, NoMemory>
    requires { LeafFits bounds.old duals.now }
    ensures kept { bounds.new ≡ bounds.old }
    ensures exact { IfOk result (λ now. (w : ℕ) → (now ≤ w) ↔ ((most ≤ w) × LacksAtMost bounds.old target w (path.now, duals.now))) }
{
    if duals.q() == 0 {
        return Ok(most);
    }
    let bound = bounds.bound(path, duals)?;
    Ok(most.max(lacking(bound, duals.q(), target)))
}

// What the bound lacks to be above the scaled cost less the scale, in millionths, rounded up.
fn lacking(bound: i128, q: u32, target: u64) -> u128
    requires scaled { 1 ≤ q }
    requires small { unsigned_abs bound ≤ MAX_BOUND }
    ensures { (w : ℕ) → (result ≤ w) ↔ (pos (q * target) <ℤ (bound +ℤ pos (q * (w + 1)))) }
{
    let gap = i128::from(q) * i128::from(target) - bound;
    if gap < 0 {
        return 0;
    }
    gap.unsigned_abs() / u128::from(q)
}
