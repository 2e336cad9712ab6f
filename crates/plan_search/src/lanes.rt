//! The lanes that the customers take, one customer after the other.
ghost use Rattle.std.specs.Prelude.{◌≡◌, ◌-◌, ◌<◌, [], length, slice_set, IfOk, IsTrue, option_map};
ghost use Rattle.location_terms.specs.Instance.{IsValid};
ghost use Rattle.location_terms.specs.Box.{holds_demand};
ghost use Rattle.lane_order.specs.Order.{IsOrderOf};
ghost use Rattle.plan_search.specs.Packed.{cheapest, all_taken};
ghost use Rattle.plan_search.specs.Flags.{flagged};
ghost use Rattle.plan_search.specs.Packing.{room_at, AreRooms, roomy};
ghost use Rattle.plan_search.specs.Turns.{AreTurns};

use crate::turns::{Turn, turns};
use dual_value::PreparedBox;
use instance_store::{Instance, NoMemory};
use lane_order::LaneOrder;
use std::alloc::Global;

/// The lane that each customer takes from the open sites, as the places of the customer and the site,
/// and `None` where a customer finds none. It fails only where memory runs out.
pub(crate) fn take_lanes(
    alloc: Global,
    boxed: &PreparedBox,
    order: &LaneOrder,
    flags: &[bool],
) -> Result<Option<Vec<(usize, usize)>>, NoMemory>
    requires order { IsOrderOf order.now boxed.now.instance }
    requires long { length flags.now ≡ length boxed.now.instance.sites }
    ensures { IfOk result (λ taken. option_map (λ v. v.items) taken ≡ all_taken boxed.now.instance boxed.now.path (flagged flags.now)) }
{
    let turns = turns(alloc, boxed.instance())?;
    let mut rooms = whole_rooms(alloc, boxed.instance())?;
    take_in_turn(alloc, boxed, order, flags, &turns, &mut rooms)
}

// The same, where these are the turns of all customers and no room is taken.
fn take_in_turn(
    alloc: Global,
    boxed: &PreparedBox,
    order: &LaneOrder,
    flags: &[bool],
    turns: &[Turn],
    rooms: &mut [Option<u64>],
) -> Result<Option<Vec<(usize, usize)>>, NoMemory>
    requires order { IsOrderOf order.now boxed.now.instance }
    requires long { length flags.now ≡ length boxed.now.instance.sites }
    requires turns { AreTurns boxed.now.instance turns.now }
    requires rooms { AreRooms boxed.now.instance [] rooms.old }
    requires valid { IsValid boxed.now.instance }
    ensures { IfOk result (λ taken. option_map (λ v. v.items) taken ≡ all_taken boxed.now.instance boxed.now.path (flagged flags.now)) }
{
    let inst = boxed.instance();
    let mut taken = Vec::with_capacity(alloc, inst.custs())?;
    for turn in turns {
        let cust = turn.cust as usize;
        match cheapest_site(boxed, order, flags, rooms, cust) {
            None => return Ok(None),
            Some(site) => {
                fill(rooms, site, inst.demand(cust));
                taken.push((cust, site))?;
            }
        }
    }
    Ok(Some(taken))
}

// The room at each site while no lane is taken.
fn whole_rooms(alloc: Global, inst: &Instance) -> Result<Vec<Option<u64>>, NoMemory>
    ensures exact { IfOk result (λ rooms. AreRooms inst.now [] rooms.items) }
    ensures valid { IsValid inst.now }
{
    let mut rooms = Vec::with_capacity(alloc, inst.sites())?;
    for site in 0..inst.sites() {
        rooms.push(inst.cap(site))?;
    }
    Ok(rooms)
}

// The open site of the customer's cheapest lane, of those that the box lets serve it and that have room
// for it.
fn cheapest_site(
    boxed: &PreparedBox,
    order: &LaneOrder,
    flags: &[bool],
    rooms: &[Option<u64>],
    cust: usize,
) -> Option<usize>
    requires order { IsOrderOf order.now boxed.now.instance }
    requires customer { cust < length boxed.now.instance.customers }
    requires long { length flags.now ≡ length boxed.now.instance.sites }
    requires rooms { length rooms.now ≡ length boxed.now.instance.sites }
    requires valid { IsValid boxed.now.instance }
    ensures { result ≡ cheapest boxed.now.instance cust (roomy boxed.now.instance boxed.now.path (flagged flags.now) rooms.now cust) }
{
    let demand = boxed.instance().demand(cust);
    for lane in order.lanes(cust) {
        let site = lane.site as usize;
        if flags[site] && holds(rooms[site], demand) && boxed.admits(site, cust, demand) {
            return Some(site);
        }
    }
    None
}

fn holds(room: Option<u64>, demand: u64) -> bool
    ensures { result ≡ holds_demand room demand }
{
    match room {
        None => true,
        Some(left) => demand <= left,
    }
}

// The site has so much less room.
fn fill(rooms: &mut [Option<u64>], site: usize, demand: u64)
    requires site { site < length rooms.old }
    requires holds { IsTrue (holds_demand (room_at rooms.old site) demand) }
    ensures { rooms.new ≡ slice_set rooms.old site (option_map (λ left. left - demand) (room_at rooms.old site)) }
{
    if let Some(left) = rooms[site] {
        rooms[site] = Some(left - demand);
    }
}
