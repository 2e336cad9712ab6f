// What speaks against a plan or a leaf.
ghost use Rattle.std.specs.Prelude.{◌≡◌, IfOk, MatchOption};
ghost use Rattle.location_terms.specs.Leaf.{LeafFits};
ghost use Rattle.certificate_lines.specs.Due.{PlanShown, LeafShown};
ghost use Rattle.certificate_lines.specs.Model.{shown_of, IsSound};
ghost use Rattle.certificate_check.specs.Judgement.{IsAgainst, Stands};

use crate::Why;
use branch_tree::{Duals, Path};
use certificate_lines::Shown;
use instance_store::{Instance, NoMemory};
use leaf_bounds::LeafBounds;
use location_terms::Claim;
use plan_meaning::{Plan, judge};

// What speaks against what a line shows, if anything does. It fails only where memory runs out.
pub(crate) fn against(
    inst: &Instance,
    bounds: &mut LeafBounds<'_>,
    shown: &Shown,
) -> Result<Option<Why>, NoMemory>
    requires bounds { bounds.old ≡ inst.now }
    requires sound { IsSound inst.now (shown_of shown.now) }
    ensures kept { bounds.new ≡ bounds.old }
    ensures exact { IfOk result (λ why. MatchOption why (Stands inst.now (shown_of shown.now)) (IsAgainst inst.now (shown_of shown.now))) }
{
    match shown {
        Shown::Plan(claim, plan) => Ok(against_plan(inst, *claim, plan)),
        Shown::Leaf(claim, path, duals) => against_leaf(bounds, *claim, path, duals),
        Shown::Nothing | Shown::Split(_) => Ok(None),
    }
}

fn against_plan(inst: &Instance, claim: Claim, plan: &Plan) -> Option<Why>
    ensures { MatchOption result (Stands inst.now (PlanShown claim plan.now)) (IsAgainst inst.now (PlanShown claim plan.now)) }
{
    match judge(inst, plan) {
        Ok(found) => {
            if Some(found) == claim.cost() {
                None
            } else {
                Some(Why::CostDiffers { found })
            }
        }
        Err(fault) => Some(Why::PlanRefused(fault)),
    }
}

// Whether the leaf closes is often seen with less work than its bound takes.
fn against_leaf(
    bounds: &mut LeafBounds<'_>,
    claim: Claim,
    path: &Path,
    duals: &Duals,
) -> Result<Option<Why>, NoMemory>
    requires { LeafFits bounds.old duals.now }
    ensures kept { bounds.new ≡ bounds.old }
    ensures exact { IfOk result (λ why. MatchOption why (Stands bounds.old (LeafShown claim path.now duals.now)) (IsAgainst bounds.old (LeafShown claim path.now duals.now))) }
{
    if bounds.closes(path, duals, claim.target())? {
        return Ok(None);
    }
    let bound = bounds.bound(path, duals)?;
    let q = duals.q();
    Ok(Some(Why::LeafOpen { bound, q }))
}
