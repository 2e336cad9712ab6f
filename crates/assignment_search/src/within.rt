//! Whether a plan is in a box.
ghost use Rattle.std.specs.Prelude.{◌↔◌, Contains, IsTrue};
ghost use Rattle.location_terms.specs.Box.{IsInBox, IsKept};

use dual_value::{Decision, Path};
use instance_store::{CustId, SiteId};
use plan_meaning::Plan;

/// Whether the plan keeps to the path.
pub(crate) fn is_in_box(plan: &Plan, path: &Path) -> bool
    ensures { IsTrue result ↔ IsInBox plan.now path.now }
{
    path.as_slice().iter().all(|step| is_kept(plan, step))
}

fn is_kept(plan: &Plan, step: &Decision) -> bool
    ensures { IsTrue result ↔ IsKept plan.now step.now }
{
    match step {
        Decision::Opened(site) => plan.opens(*site),
        Decision::Closed(site) => !plan.opens(*site),
        Decision::Yes(site, cust) => serves(plan, *site, *cust),
        Decision::No(site, cust) => !serves(plan, *site, *cust),
    }
}

fn serves(plan: &Plan, site: SiteId, cust: CustId) -> bool
    ensures { IsTrue result ↔ Contains plan.now.serves (cust, site) }
{
    for k in 0..plan.serve_count() {
        let (served, from) = plan.serve(k);
        if served == cust && from == site {
            return true;
        }
    }
    false
}
