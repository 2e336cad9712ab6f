//! One change that is made of every lane of an instance.
ghost use Rattle.std.specs.Prelude.{◌≡◌, ℕ, ◌<◌, length};
ghost use Rattle.location_terms.specs.Instance.{site_at, customer_at};
ghost use Rattle.instance_store.specs.Small.{IsSmall};
ghost use Rattle.plan_radius.specs.Changing.{lane_changed, IsPartlyChanged, HasChanged};

use instance_store::Instance;

/// What becomes of a lane.
#[derive(Clone, Copy, Debug, PartialEq, Eq)]
pub(crate) enum LaneChange {
    /// It goes where it costs this, in millionths, or more.
    Below(u64),
    /// It costs nothing any more.
    Free,
}

/// Changes every lane so. It takes no memory.
pub(crate) fn change_lanes(inst: &mut Instance, change: LaneChange)
    ensures part { IsPartlyChanged change inst.old inst.new }
    ensures all { (i j : ℕ) → i < length inst.old.sites → j < length inst.old.customers →
        HasChanged change inst.old inst.new (site_at inst.old i).id (customer_at inst.old j).id }
{
    for site in 0..inst.sites() {
        change_row(inst, site, change);
    }
}

// Changes the lanes from the site at a place.
fn change_row(inst: &mut Instance, site: usize, change: LaneChange)
    requires { site < length inst.old.sites }
    ensures part { IsPartlyChanged change inst.old inst.new }
    ensures row { (j : ℕ) → j < length inst.old.customers →
        HasChanged change inst.old inst.new (site_at inst.old site).id (customer_at inst.old j).id }
{
    for cust in 0..inst.custs() {
        let lane = changed(change, inst.lane(site, cust));
        inst.set_lane(site, cust, lane);
    }
}

// What becomes of this lane.
fn changed(change: LaneChange, lane: Option<u64>) -> Option<u64>
    requires { IsSmall lane }
    ensures exact { result ≡ lane_changed change lane }
    ensures small { IsSmall result }
{
    match (change, lane) {
        (_, None) => None,
        (LaneChange::Below(limit), Some(cost)) => { if cost < limit { Some(cost) } else { None } }
        (LaneChange::Free, Some(_)) => Some(0),
    }
}
