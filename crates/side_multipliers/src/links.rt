//! What stands in the way of duals that show what steps do: steps leave out lanes that a box allows. Each
//! split on such a lane has a child that closes at once, and the other one has lost the lane.
ghost use Rattle.std.specs.Prelude.{◌≡◌, length};

use crate::refusing::load_pinned;
use crate::room_lanes::{Guest, LaneUse, RoomLane, first_kept, lanes_of, site_of};
use crate::rooms::{
    Room, empty_rooms, fits_beside, is_pressed_at, level_at, load, press, press_overloaded,
};

/// A lane, by the places of its site and its customer.
#[derive(Clone, Copy)]
pub struct LanePlace {
    /// The place of the site.
    pub site: usize,
    /// The place of the customer.
    pub cust: usize,
}

// A lane to split on, and by how much its level is below that of what the customer takes.
#[derive(Clone, Copy)]
struct Link {
    place: LanePlace,
    lack: f64,
}

/// The lane to split on next, where steps show that the box closes. The prices are those of the best bound,
/// and evaluated. `missing` is by how much the bound over all allowed lanes is too small, and `is_possible`
/// says whether the kept lanes leave a plan.
pub(crate) fn next_link(
    guests: &[Guest],
    lanes: &mut [RoomLane],
    rooms: &mut [Room],
    missing: f64,
    is_possible: bool,
) -> Option<LanePlace>
    ensures lanes { length lanes.new ≡ length lanes.old }
    ensures rooms { length rooms.new ≡ length rooms.old }
{
    load_pinned(guests, lanes, rooms);
    press_overloaded(rooms, !is_possible);
    claim_wanted(guests, lanes, rooms, is_possible);
    load_forced(guests, lanes, rooms);
    for _pass in 0..guests.len() {
        press_all(guests, lanes, rooms, missing);
        if !claim_pressed(guests, lanes, rooms) {
            break;
        }
    }
    let link = greatest_link(guests, lanes, rooms, missing)?;
    Some(link.place)
}

/// The first lane that is left out and that a split takes away at once: no room is left for it beside the
/// customers to which the box allows a single lane.
pub(crate) fn first_unfit(
    guests: &[Guest],
    lanes: &[RoomLane],
    rooms: &mut [Room],
) -> Option<LanePlace>
    ensures { length rooms.new ≡ length rooms.old }
{
    load_forced(guests, lanes, rooms);
    for cust in 0..guests.len() {
        let guest = guests[cust];
        if guest.allowed() > 1 {
            if let Some(site) = unfit_site(guest, lanes, rooms) {
                return Some(LanePlace { site, cust });
            }
        }
    }
    None
}

fn unfit_site(guest: Guest, lanes: &[RoomLane], rooms: &[Room]) -> Option<usize> {
    for lane in lanes_of(lanes, guest) {
        if lane.lane_use == LaneUse::LeftOut && !fits_beside(rooms, lane.site(), guest.weight) {
            return Some(lane.site());
        }
    }
    None
}

/// By how much the levels that customers take are above the least of all their allowed lanes, in all.
pub(crate) fn lack_of_all(guests: &[Guest], lanes: &[RoomLane], rooms: &[Room]) -> f64 {
    let mut sum = 0.0;
    for guest in guests {
        let least = least_level(*guest, lanes, rooms, guest.end);
        if least < guest.level {
            sum += guest.level - least;
        }
    }
    sum
}

// The least level of the customer's allowed lanes but for the one at a place.
fn least_level(guest: Guest, lanes: &[RoomLane], rooms: &[Room], but: usize) -> f64 {
    let mut least = f64::MAX;
    for k in guest.start..guest.end.min(lanes.len()) {
        if k != but {
            least = least.min(level_at(lanes[k], guest.weight, rooms));
        }
    }
    least
}

// Due are at first the lanes that are left out and cost less than what their customers take, or, where no
// plan is left, those of customers without a lane.
fn claim_wanted(guests: &[Guest], lanes: &mut [RoomLane], rooms: &[Room], is_possible: bool)
    ensures { length lanes.new ≡ length lanes.old }
{
    for guest in guests {
        let level = if guest.kept == 0 {
            f64::MAX
        } else if is_possible {
            guest.level
        } else {
            0.0
        };
        claim_below(*guest, level, lanes, rooms);
    }
}

fn claim_below(guest: Guest, level: f64, lanes: &mut [RoomLane], rooms: &[Room])
    ensures { length lanes.new ≡ length lanes.old }
{
    for k in guest.start..guest.end.min(lanes.len()) {
        lanes[k].is_due = lanes[k].lane_use == LaneUse::LeftOut
            && level_at(lanes[k], guest.weight, rooms) < level;
    }
}

// Loads the customers to which the box allows a single lane.
fn load_forced(guests: &[Guest], lanes: &[RoomLane], rooms: &mut [Room])
    ensures { length rooms.new ≡ length rooms.old }
{
    empty_rooms(rooms);
    for guest in guests {
        if guest.allowed() == 1 {
            load(rooms, site_of(lanes, guest.start), guest.weight);
        }
    }
}

// Presses the sites of due lanes that a split can't take away at once.
fn press_all(guests: &[Guest], lanes: &[RoomLane], rooms: &mut [Room], missing: f64)
    ensures { length rooms.new ≡ length rooms.old }
{
    for guest in guests {
        let dear = least_level(*guest, lanes, rooms, guest.end) + missing;
        for lane in lanes_of(lanes, *guest) {
            if lane.is_due && !is_losable(*lane, guest.weight, dear, rooms) {
                press(rooms, lane.site());
            }
        }
    }
}

// Whether the box in which the lane is decided for closes at once: its level is as great as `dear`, or too
// little room is left beside the customers that are forced to its site.
fn is_losable(lane: RoomLane, weight: f64, dear: f64, rooms: &[Room]) -> bool {
    level_at(lane, weight, rooms) >= dear || !fits_beside(rooms, lane.site(), weight)
}

// Claims all lanes of customers that are pinned to a pressed site, but the one to it. Whether any is new.
fn claim_pressed(guests: &[Guest], lanes: &mut [RoomLane], rooms: &[Room]) -> bool
    ensures { length lanes.new ≡ length lanes.old }
{
    let mut changed = false;
    for guest in guests {
        let site = site_of(lanes, first_kept(*guest, lanes));
        if guest.is_pinned() && is_pressed_at(rooms, site) {
            changed |= claim_left_out(*guest, lanes);
        }
    }
    changed
}

fn claim_left_out(guest: Guest, lanes: &mut [RoomLane]) -> bool
    ensures { length lanes.new ≡ length lanes.old }
{
    let mut changed = false;
    for k in guest.start..guest.end.min(lanes.len()) {
        if lanes[k].lane_use == LaneUse::LeftOut {
            changed |= !lanes[k].is_due;
            lanes[k].is_due = true;
        }
    }
    changed
}

fn greatest_link(
    guests: &[Guest],
    lanes: &[RoomLane],
    rooms: &[Room],
    missing: f64,
) -> Option<Link> {
    let mut best = None;
    for cust in 0..guests.len() {
        best = greater(best, link_of(cust, guests[cust], lanes, rooms, missing));
    }
    best
}

fn greater(one: Option<Link>, other: Option<Link>) -> Option<Link> {
    match (one, other) {
        (None, other) => other,
        (one, None) => one,
        (Some(one), Some(other)) => Some(if other.lack > one.lack { other } else { one }),
    }
}

// Of the customer's due lanes that a split takes away at once that of the least level; the lane that is kept,
// where a split takes all others away at once.
fn link_of(
    cust: usize,
    guest: Guest,
    lanes: &[RoomLane],
    rooms: &[Room],
    missing: f64,
) -> Option<Link> {
    let dear = least_level(guest, lanes, rooms, guest.end) + missing;
    let mut best = None;
    let mut lack = f64::MIN;
    for lane in lanes_of(lanes, guest) {
        if lane.is_due {
            let own = guest.level - level_at(*lane, guest.weight, rooms);
            lack = lack.max(own);
            if guest.allowed() > 1 && is_losable(*lane, guest.weight, dear, rooms) {
                let place = LanePlace {
                    site: lane.site(),
                    cust,
                };
                best = greater(best, Some(Link { place, lack: own }));
            }
        }
    }
    if lack > f64::MIN && is_forced(guest, lanes, rooms, missing) {
        return forced_link(cust, guest, lanes, lack);
    }
    best
}

// Whether the customer is pinned to a lane without which the box closes at once.
fn is_forced(guest: Guest, lanes: &[RoomLane], rooms: &[Room], missing: f64) -> bool {
    if !guest.is_pinned() {
        return false;
    }
    let others = least_level(guest, lanes, rooms, first_kept(guest, lanes));
    others >= least_level(guest, lanes, rooms, guest.end) + missing
}

fn forced_link(cust: usize, guest: Guest, lanes: &[RoomLane], lack: f64) -> Option<Link> {
    let lane = lanes.get(first_kept(guest, lanes))?;
    let place = LanePlace {
        site: lane.site(),
        cust,
    };
    Some(Link { place, lack })
}
