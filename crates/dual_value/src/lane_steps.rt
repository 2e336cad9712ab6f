//! The steps of a path that name a customer, each with the one before it, so that a walk over a
//! customer's lanes meets no others.
ghost use Rattle.std.specs.Prelude.{◌≡◌, ◌+◌, ◌++◌, [], ◌∷◌, IfOk, length, List, ℕ, replicate};
ghost use Rattle.std.specs.List.{list_any};
ghost use Rattle.location_terms.specs.Instance.{IsValid};
ghost use Rattle.location_terms.specs.Box.{Path as Decisions, bars_lane};
ghost use Rattle.dual_value.specs.LaneSteps.{IsChain, AreChains, named_customer};

use crate::Path;
use crate::settled::bars_lane;
use instance_store::{CustId, Instance, NoMemory, SiteId};
use location_terms::Decision;
use std::alloc::Global;

/// The steps of a path, chained by the customers that they name. A step stands here as its place and
/// 1 more, and 0 is no step.
#[derive(Drop)]
pub(crate) struct LaneSteps {
    /// By customer, the last step that names it; empty where no step is on a lane.
    pub(crate) lasts: Vec<usize>,
    /// By step, the one before it that names the same customer; empty where no step is on a lane.
    pub(crate) befores: Vec<usize>,
}

/// The steps of the path that are on lanes.
pub(crate) fn lane_steps(alloc: Global, inst: &Instance, path: &Path) -> Result<LaneSteps, NoMemory>
    ensures { IfOk result (λ steps. AreChains inst.now path.now steps.lasts.items steps.befores.items) }
{
    if path.is_of_sites() {
        return Ok(LaneSteps {
            lasts: Vec::new(alloc),
            befores: Vec::new(alloc),
        });
    }
    let mut lasts = vec![in alloc; 0; inst.custs()]?;
    let befores = chained(alloc, inst, path, &mut lasts)?;
    Ok(LaneSteps { lasts, befores })
}

// The step before each; `lasts` becomes the last of each customer.
fn chained(
    alloc: Global,
    inst: &Instance,
    path: &Path,
    lasts: &mut [usize],
) -> Result<Vec<usize>, NoMemory>
    requires valid { IsValid inst.now }
    requires none { lasts.old ≡ replicate (length inst.now.customers) 0 }
    ensures long { length lasts.new ≡ length lasts.old }
    ensures chained { IfOk result (λ befores. AreChains inst.now path.now lasts.new befores.items) }
{
    let mut befores = Vec::with_capacity(alloc, path.steps())?;
    for step in path.as_slice() {
        let before = chain(inst, step, befores.len() + 1, lasts);
        befores.push(before)?;
    }
    Ok(befores)
}

// The step before this one, which becomes the last of its customer and stands here as `place`.
fn chain(inst: &Instance, step: &Decision, place: usize, lasts: &mut [usize]) -> usize
    requires valid { IsValid inst.now }
    requires long { length lasts.old ≡ length inst.now.customers }
    ensures long { length lasts.new ≡ length lasts.old }
    ensures chained { (path : Decisions) → (befores : List ℕ) → length befores ≡ length path → place ≡ length path + 1 → AreChains inst.now path lasts.old befores → AreChains inst.now (path ++ step.now ∷ []) lasts.new (befores ++ result ∷ []) }
{
    let Some(id) = named_customer(step) else {
        return 0;
    };
    let Some(cust) = inst.cust_at(id) else {
        return 0;
    };
    let before = lasts[cust];
    lasts[cust] = place;
    before
}

// The customer to whom the step takes lanes away.
fn named_customer(step: &Decision) -> Option<CustId>
    ensures { result ≡ named_customer step.now }
{
    match step {
        Decision::Opened(_) | Decision::Closed(_) => None,
        Decision::Yes(_, cust) | Decision::No(_, cust) => Some(*cust),
    }
}

/// Whether a step takes the lane away, of those that name the customer, of which this is the last.
#[inline(never)]
pub(crate) fn chain_bars(
    path: &Path,
    befores: &[usize],
    last: usize,
    site: SiteId,
    cust: CustId,
) -> bool
    requires { IsChain path.now befores.now cust last }
    ensures { result ≡ list_any (bars_lane site cust) path.now }
{
    let steps = path.as_slice();
    let mut at = last;
    while at > 0 {
        if bars_lane(site, cust, &steps[at - 1]) {
            return true;
        }
        at = befores[at - 1];
    }
    false
}
