//! Plans of enough sites.
use dual_value::{PreparedBox, SiteState};
use instance_store::NoMemory;
use plan_meaning::Plan;
use std::alloc::Global;

/// The plan with as many more open sites as it takes for `least` of them, as far as the box has any that aren't closed.
/// It fails only where memory runs out.
pub(crate) fn with_enough(
    alloc: Global,
    boxed: &PreparedBox<'_>,
    plan: Plan,
    least: usize,
) -> Result<Plan, NoMemory> {
    let inst = boxed.instance();
    let mut missing = least.saturating_sub(plan.site_count());
    if missing == 0 {
        return Ok(plan);
    }
    let mut sites = Vec::with_capacity(alloc, inst.sites())?;
    for place in 0..inst.sites() {
        let id = inst.site_id(place);
        if plan.opens(id) {
            sites.push(id)?;
        } else if missing > 0 && may_open(boxed.state(place)) {
            sites.push(id)?;
            missing -= 1;
        }
    }
    let mut serves = Vec::with_capacity(alloc, plan.serve_count())?;
    for k in 0..plan.serve_count() {
        serves.push(plan.serve(k))?;
    }
    match Plan::new(sites, serves) {
        Some(wider) => Ok(wider),
        None => Ok(plan),
    }
}

fn may_open(state: SiteState) -> bool {
    match state {
        SiteState::Opened | SiteState::Free => true,
        SiteState::Closed => false,
    }
}
