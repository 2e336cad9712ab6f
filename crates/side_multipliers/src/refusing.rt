//! Lanes that no plan of a box without free sites uses: too little room is left at their sites beside the
//! customers that have a single lane.
ghost use Rattle.std.specs.Prelude.{◌≡◌, length};

use crate::room_lanes::{Guest, LaneUse, RoomLane, first_kept, site_of};
use crate::rooms::{Room, empty_rooms, fits_beside, is_overloaded, load};

/// Leaves out lanes that no plan uses until none is left to leave out. Whether a plan may be left: each
/// customer has a lane, and no site is too small for the customers that have no other.
pub(crate) fn leave_out_unfit(
    guests: &mut [Guest],
    lanes: &mut [RoomLane],
    rooms: &mut [Room],
) -> bool
    ensures guests { length guests.new ≡ length guests.old }
    ensures lanes { length lanes.new ≡ length lanes.old }
    ensures rooms { length rooms.new ≡ length rooms.old }
{
    load_pinned(guests, lanes, rooms);
    for _pass in 0..guests.len() {
        if !leave_out_beside(guests, lanes, rooms) {
            break;
        }
        load_pinned(guests, lanes, rooms);
    }
    is_served(guests) && !is_overloaded(rooms)
}

// Leaves out the lanes of customers with several for which no room is left. Whether there were any.
fn leave_out_beside(guests: &mut [Guest], lanes: &mut [RoomLane], rooms: &[Room]) -> bool
    ensures guests { length guests.new ≡ length guests.old }
    ensures lanes { length lanes.new ≡ length lanes.old }
{
    let mut changed = false;
    for j in 0..guests.len() {
        let guest = guests[j];
        if guest.kept > 1 {
            let kept = leave_out_full(guest, lanes, rooms);
            changed |= kept < guest.kept;
            guests[j].kept = kept;
        }
    }
    changed
}

// Leaves out the customer's lanes for which no room is left. The answer is how many are kept.
fn leave_out_full(guest: Guest, lanes: &mut [RoomLane], rooms: &[Room]) -> usize
    ensures { length lanes.new ≡ length lanes.old }
{
    let mut kept = 0usize;
    for k in guest.start..guest.end.min(lanes.len()) {
        if lanes[k].lane_use == LaneUse::Kept {
            if fits_beside(rooms, lanes[k].site(), guest.weight) {
                kept = kept.saturating_add(1);
            } else {
                lanes[k].lane_use = LaneUse::LeftOut;
            }
        }
    }
    kept
}

/// Loads the customers of which a single lane is kept, and nothing else.
pub(crate) fn load_pinned(guests: &[Guest], lanes: &[RoomLane], rooms: &mut [Room])
    ensures { length rooms.new ≡ length rooms.old }
{
    empty_rooms(rooms);
    for guest in guests {
        if guest.kept == 1 {
            load(
                rooms,
                site_of(lanes, first_kept(*guest, lanes)),
                guest.weight,
            );
        }
    }
}

fn is_served(guests: &[Guest]) -> bool {
    for guest in guests {
        if guest.kept == 0 {
            return false;
        }
    }
    true
}
