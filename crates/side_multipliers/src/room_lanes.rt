//! The customers of a box without free sites, and their lanes.
ghost use Rattle.std.specs.Prelude.{◌≡◌, length};

use crate::box_lanes::BoxLanes;
use crate::payments::Demand;
use lane_order::PlacedLane;
use std::num::nearest_u64_to_f64;

/// A lane that the box allows.
#[derive(Clone, Copy)]
pub(crate) struct RoomLane {
    /// What it costs to serve the whole customer.
    pub(crate) cost: f64,
    // The place of its site.
    place: u32,
    pub(crate) lane_use: LaneUse,
    /// Whether the box has to lose it before its duals show what flows do.
    pub(crate) is_due: bool,
}

/// Whether a lane is used.
#[derive(Clone, Copy, PartialEq, Eq)]
pub(crate) enum LaneUse {
    /// Some plan of the box may use it.
    Kept,
    /// No plan of the box uses it.
    LeftOut,
    /// It is left out for a trial.
    SetAside,
}

/// No lane in particular.
pub(crate) const NO_LANE: RoomLane = RoomLane {
    cost: 0.0,
    place: 0,
    lane_use: LaneUse::LeftOut,
    is_due: false,
};

impl RoomLane {
    /// The place of its site.
    #[inline(always)]
    pub(crate) fn site(self) -> usize {
        self.place as usize
    }
}

/// A customer.
#[derive(Clone, Copy)]
pub(crate) struct Guest {
    /// Its demand, and by how much a cost is to be multiplied for that of a unit of it.
    pub(crate) weight: f64,
    inverse: f64,
    /// Its lanes, from the cheapest on, are those between two places.
    pub(crate) start: usize,
    pub(crate) end: usize,
    /// How many of them are kept.
    pub(crate) kept: usize,
    /// The least level of its kept lanes at the prices, and the place of that lane.
    pub(crate) level: f64,
    pub(crate) best: usize,
}

/// A customer without a lane.
pub(crate) const NO_GUEST: Guest = Guest {
    weight: 0.0,
    inverse: 0.0,
    start: 0,
    end: 0,
    kept: 0,
    level: 0.0,
    best: 0,
};

impl Guest {
    /// What the lane costs for a unit of demand.
    #[inline(always)]
    pub(crate) fn ratio(self, lane: RoomLane) -> f64 {
        lane.cost * self.inverse
    }

    /// How many lanes the box allows to it.
    pub(crate) fn allowed(self) -> usize {
        self.end.saturating_sub(self.start)
    }

    /// Whether the box allows a choice to it, of which a single lane is kept.
    pub(crate) fn is_pinned(self) -> bool {
        self.kept == 1 && self.allowed() > 1
    }
}

/// Takes the lanes that a box allows, all of them kept.
pub(crate) fn take_lanes(
    allowed: &BoxLanes,
    demands: &[Demand],
    guests: &mut [Guest],
    lanes: &mut [RoomLane],
)
    ensures guests { length guests.new ≡ length guests.old }
    ensures lanes { length lanes.new ≡ length lanes.old }
{
    for j in 0..guests.len().min(demands.len()) {
        let start = allowed.start(j);
        let own = allowed.of_customer(j);
        let mut guest = NO_GUEST;
        guest.weight = demands[j].weight;
        guest.inverse = demands[j].inverse;
        guest.start = start;
        guest.end = start.saturating_add(own.len());
        guest.kept = own.len();
        guests[j] = guest;
        put_own(own, start, lanes);
    }
}

fn put_own(own: &[PlacedLane], start: usize, lanes: &mut [RoomLane])
    ensures { length lanes.new ≡ length lanes.old }
{
    let mut place = start;
    for lane in own {
        if place < lanes.len() {
            let mut next = NO_LANE;
            next.place = lane.site;
            next.cost = nearest_u64_to_f64(lane.cost);
            next.lane_use = LaneUse::Kept;
            lanes[place] = next;
            place += 1;
        }
    }
}

/// How many lanes the customers have. They are the first of all that there is room for.
pub(crate) fn lane_count(guests: &[Guest]) -> usize {
    match guests.last() {
        None => 0,
        Some(guest) => guest.end,
    }
}

/// The customer's lanes.
pub(crate) fn lanes_of(lanes: &[RoomLane], guest: Guest) -> &[RoomLane] {
    lanes.get(guest.start..guest.end).unwrap_or(&[])
}

/// The place of the customer's first kept lane; behind its lanes where there is none.
pub(crate) fn first_kept(guest: Guest, lanes: &[RoomLane]) -> usize {
    for k in guest.start..guest.end.min(lanes.len()) {
        if lanes[k].lane_use == LaneUse::Kept {
            return k;
        }
    }
    guest.end
}

/// The site of the lane at this place; behind all sites where there is none.
pub(crate) fn site_of(lanes: &[RoomLane], place: usize) -> usize {
    match lanes.get(place) {
        None => usize::MAX,
        Some(lane) => lane.site(),
    }
}
