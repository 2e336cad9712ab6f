//! Lanes whose sites come to other places, since a site comes or goes.
ghost use Rattle.std.specs.Prelude.{◌≡◌, ◌<◌, map, All};
ghost use Rattle.location_terms.specs.declared.limits.TheConstants.{MAX_SITES};
ghost use Rattle.lane_order.specs.Listed.{lane_up, lane_down};

use crate::PlacedLane;

/// Makes room for a site at a place: those from there on come one place behind.
pub(crate) fn shift_up(lanes: &mut [PlacedLane], place: u32)
    requires { All (λ lane. lane.site < MAX_SITES) lanes.old }
    ensures { lanes.new ≡ map (lane_up place) lanes.old }
{
    for k in 0..lanes.len() {
        lanes[k] = up(lanes[k], place);
    }
}

/// Closes the gap that the site at a place leaves: those behind it come one place forward.
pub(crate) fn shift_down(lanes: &mut [PlacedLane], place: u32)
    ensures { lanes.new ≡ map (lane_down place) lanes.old }
{
    for k in 0..lanes.len() {
        lanes[k] = down(lanes[k], place);
    }
}

fn up(lane: PlacedLane, place: u32) -> PlacedLane
    requires { lane.site < MAX_SITES }
    ensures { result ≡ lane_up place lane }
{
    if lane.site < place {
        lane
    } else {
        PlacedLane {
            cost: lane.cost,
            site: lane.site + 1,
        }
    }
}

fn down(lane: PlacedLane, place: u32) -> PlacedLane
    ensures { result ≡ lane_down place lane }
{
    if place < lane.site {
        PlacedLane {
            cost: lane.cost,
            site: lane.site - 1,
        }
    } else {
        lane
    }
}
