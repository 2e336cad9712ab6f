//! A path that is looked at once, before the rows of an instance are walked.
ghost use Rattle.std.specs.Prelude.{◌≡◌, ℕ, ◌<◌, ◌&&◌, not, length};
ghost use Rattle.std.specs.List.{list_any};
ghost use Rattle.location_terms.specs.Instance.{IsValid, site_at, customer_at};
ghost use Rattle.location_terms.specs.Box.{bars_lane, holds_demand};
ghost use Rattle.dual_value.specs.Lanes.{is_lane_step};
ghost use Rattle.dual_value.specs.SeenPath.{IsSeen};

use crate::is_torn;
use crate::path::is_on_lane;
use crate::settled::is_unbarred;
use instance_store::Instance;
use location_terms::Decision;

/// A path, and what is found out of it once for all sites and lanes.
#[derive(Clone, Copy)]
pub(crate) struct SeenPath<'a> {
    pub(crate) steps: &'a [Decision],
    /// Whether the box is torn.
    pub(crate) torn: bool,
    /// The steps to look at for whether a lane is taken away: none where no step is on a lane.
    pub(crate) lane_steps: &'a [Decision],
}

/// The path, looked at once.
pub(crate) fn seen<'a>(inst: &Instance, path: &'a [Decision]) -> SeenPath<'a>
    ensures seen { IsSeen inst.now result }
    ensures steps { result.steps.now ≡ path.now }
    ensures valid { IsValid inst.now }
{
    SeenPath {
        steps: path,
        torn: is_torn(inst, path),
        lane_steps: lane_steps(path),
    }
}

fn lane_steps(path: &[Decision]) -> &[Decision]
    ensures { (s c : ℕ) → list_any (bars_lane s c) result.now ≡ list_any (bars_lane s c) path.now }
{
    if has_lane_step(path) { path } else { &[] }
}

fn has_lane_step(path: &[Decision]) -> bool
    ensures { result ≡ list_any is_lane_step path.now }
{
    path.iter().any(|step| is_on_lane(step))
}

impl SeenPath<'_> {
    /// Whether the lane, if there is one, is left by the steps on lanes and carries the customer's
    /// demand.
    pub(crate) fn leaves_lane(&self, inst: &Instance, site: usize, cust: usize) -> bool
        requires seen { IsSeen inst.now self.now }
        requires site { site < length inst.now.sites }
        requires customer { cust < length inst.now.customers }
        ensures { result ≡ (not (list_any (bars_lane (site_at inst.now site).id (customer_at inst.now cust).id) self.now.steps.now) && holds_demand (site_at inst.now site).cap (customer_at inst.now cust).demand) }
    {
        is_unbarred(inst, self.lane_steps, site, cust)
    }
}
