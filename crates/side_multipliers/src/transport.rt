//! The best prices of capacities in boxes without free sites.
ghost use Rattle.std.specs.Prelude.{◌≡◌, ◌<◌, length, IfOk};
ghost use Rattle.dual_steps.specs.Sizes.{sizes_of};
ghost use Rattle.lane_order.specs.Order.{IsOrderOf};

use crate::box_lanes::BoxLanes;
use crate::flows::{Shifted, balance, find_levels, find_prices, reseat, seat_all};
use crate::links::{LanePlace, first_unfit, lack_of_all, next_link};
use crate::payments::{Demand, demands_of};
use crate::refusing::leave_out_unfit;
use crate::room_lanes::{
    Guest, NO_GUEST, NO_LANE, RoomLane, lane_count, lanes_of, site_of, take_lanes,
};
use crate::rooms::{NO_ROOM, Room, fill_rooms, open_rooms, opened_cost};
use crate::trials::{NO_TRIAL, Trial, greatest_flow, promise, put_back, set_aside, trials};
use dual_steps::rounding::nearest_whole;
use dual_value::PreparedBox;
use instance_store::{Instance, NoMemory};
use lane_order::LaneOrder;
use std::alloc::Global;
use std::marker::Model;

// Which part of what plans cost is much to gain.
const MUCH: f64 = 0.002;

/// A box without free sites whose customers' demands may be split is a transportation problem: its solution
/// has the best prices of the capacities, from which an ascent finds the best duals. Lanes for which no room
/// is left beside customers that have no other are left out. Numbers are floats, in millionths.
#[derive(Drop)]
pub struct Transport {
    rooms: Vec<Room>,
    guests: Vec<Guest>,
    lanes: Vec<RoomLane>,
    // How much of its customer's demand each lane carries.
    flows: Vec<f64>,
    // Rooms and flows before a trial.
    saved_rooms: Vec<Room>,
    saved_flows: Vec<f64>,
    demands: Vec<Demand>,
    allowed: BoxLanes,
    // Whether the kept lanes leave a plan, as far as is known.
    is_possible: bool,
    bound: f64,
    rounded_prices: Vec<u64>,
    // By customer, the place of the site from which most of its demand comes.
    suppliers: Vec<usize>,
}

impl Model for Transport {
    ghost use Rattle.dual_steps.specs.Sizes.{Sizes};

    ghost Value = { Sizes };

    ghost use Rattle.side_multipliers.specs.Transports.{transport_sizes, AreRooms};

    ghost view = { transport_sizes };

    ghost invariant = { AreRooms };
}

impl Transport {
    /// For boxes of the instance. It fails only where memory runs out.
    pub fn of(alloc: Global, inst: &Instance, order: &LaneOrder) -> Result<Transport, NoMemory>
        ensures { IfOk result (λ t. t ≡ sizes_of inst.now) }
    {
        let demands = demands_of(alloc, inst)?;
        let rooms = rooms_of(alloc, inst, total(&demands))?;
        let guests = vec![in alloc; NO_GUEST; inst.custs()]?;
        let allowed = BoxLanes::of(alloc, order)?;
        let count = allowed.room();
        let lanes = vec![in alloc; NO_LANE; count]?;
        let flows = vec![in alloc; 0.0; count]?;
        let saved_rooms = vec![in alloc; NO_ROOM; inst.sites()]?;
        let saved_flows = vec![in alloc; 0.0; count]?;
        let rounded_prices = vec![in alloc; 0; inst.sites()]?;
        let suppliers = vec![in alloc; 0; inst.custs()]?;
        Ok(Transport {
            rooms,
            guests,
            lanes,
            flows,
            saved_rooms,
            saved_flows,
            demands,
            allowed,
            is_possible: true,
            bound: 0.0,
            rounded_prices,
            suppliers,
        })
    }

    /// Goes into a box of the instance, none of whose sites is free.
    pub fn enter(&mut self, boxed: &PreparedBox<'_>, order: &LaneOrder)
        requires order { IsOrderOf order.now boxed.now.instance }
        requires sizes { self.old ≡ sizes_of boxed.now.instance }
        ensures { self.new ≡ self.old }
    {
        open_rooms(boxed, &mut self.rooms);
        self.allowed.enter(boxed, order);
        take_lanes(
            &self.allowed,
            &self.demands,
            &mut self.guests,
            &mut self.lanes,
        );
        let is_possible = leave_out_unfit(&mut self.guests, &mut self.lanes, &mut self.rooms);
        self.is_possible = is_possible;
    }

    /// Solves the box, where plans are sought that cost less than `target` millionths, from the prices of the
    /// last one.
    pub fn solve(&mut self, target: f64)
        ensures { self.new ≡ self.old }
    {
        self.seat();
        self.improve(target, f64::MAX);
    }

    /// What the box costs with split demands, in millionths, where that is less than `target` and a plan may be
    /// left.
    pub fn cost_below(&mut self, target: f64) -> Option<f64>
        ensures { self.new ≡ self.old }
    {
        if !self.is_possible {
            return None;
        }
        self.seat();
        self.improve(target, target);
        if self.shows(target) {
            None
        } else {
            Some(self.bound)
        }
    }

    // Lets each customer flow along its lane of the least level at the prices.
    fn seat(&mut self)
        ensures { self.new ≡ self.old }
    {
        let _levels = find_levels(&mut self.guests, &self.lanes, &self.rooms);
        seat_all(&self.guests, &self.lanes, &mut self.rooms, &mut self.flows);
    }

    /// The bound at the prices, in millionths.
    pub fn bound(&self) -> f64 {
        self.bound
    }

    /// Whether no plan of the box is left that costs less than `target` millionths, as far as floats show it:
    /// over the kept lanes more is shown than over all that the box allows.
    pub fn shows(&self, target: f64) -> bool {
        !self.is_possible || target <= self.bound
    }

    /// The lane to split on. Where no plan is left that costs less than `target` millionths, it is one that
    /// stands in the way of duals that show it; else that of which a trial promises most. None where no
    /// customer's demand is split. Where much is left to gain, lanes that are left out go first: many boxes
    /// below would have to lose them one by one.
    pub fn split(&mut self, target: f64) -> Option<LanePlace>
        ensures { self.new ≡ self.old }
    {
        if self.shows(target) {
            return self.link(target);
        }
        if target - self.bound < MUCH * target {
            return self.best_trial(target);
        }
        match self.lost_lane() {
            None => self.best_trial(target),
            Some(place) => Some(place),
        }
    }

    /// Rounds the prices to whole numbers, of which `scale` are a millionth.
    pub fn round(&mut self, scale: u32)
        ensures { self.new ≡ self.old }
    {
        fill_prices(&self.rooms, scale, &mut self.rounded_prices);
    }

    /// The prices of the capacities for each millionth of demand, as they were rounded last, by the places
    /// of the sites: 0 where there is no capacity.
    pub fn prices(&self) -> &[u64]
        ensures { length result.now ≡ self.now.sites }
    {
        &self.rounded_prices
    }

    /// Names for each customer, by place, the site from which most of its demand comes.
    pub fn name_suppliers(&mut self)
        ensures { self.new ≡ self.old }
    {
        fill_suppliers(&self.guests, &self.lanes, &self.flows, &mut self.suppliers);
    }

    /// The places of the sites that were named last, by the places of the customers.
    pub fn suppliers(&self) -> &[usize] {
        &self.suppliers
    }

    // Shifts flows to the least cost, and finds prices and the bound. Where they are shown to cost at least
    // `most` millionths, that is the bound, and prices stay as they are.
    fn improve(&mut self, target: f64, most: f64)
        ensures { self.new ≡ self.old }
    {
        let shifted = balance(
            &self.guests,
            &self.lanes,
            most,
            &mut self.rooms,
            &mut self.flows,
        );
        match shifted {
            Shifted::Balanced => self.take_prices(0.0),
            Shifted::TooDear => self.bound = most,
            Shifted::Stuck => {
                // At prices so great the bound shows that no plan costs less than the target: at least a
                // millionth is too much.
                self.take_prices(target.abs());
                self.is_possible = false;
            }
        }
    }

    // Finds the prices at the flows, and the bound. What no way leads away from costs so much at least.
    fn take_prices(&mut self, least: f64)
        ensures { self.new ≡ self.old }
    {
        let most = greatest_price(&self.guests, &self.lanes, least);
        find_prices(
            &self.guests,
            &self.lanes,
            &self.flows,
            most,
            &mut self.rooms,
        );
        let levels = find_levels(&mut self.guests, &self.lanes, &self.rooms);
        self.bound = levels + opened_cost(&self.rooms);
    }

    fn link(&mut self, target: f64) -> Option<LanePlace>
        ensures { self.new ≡ self.old }
    {
        let lack = lack_of_all(&self.guests, &self.lanes, &self.rooms);
        let missing = target - self.bound + lack;
        next_link(
            &self.guests,
            &mut self.lanes,
            &mut self.rooms,
            missing,
            self.is_possible,
        )
    }

    // A lane that is left out and that a split takes away at once.
    fn lost_lane(&mut self) -> Option<LanePlace>
        ensures { self.new ≡ self.old }
    {
        self.saved_rooms.copy_from_slice(&self.rooms);
        first_unfit(&self.guests, &self.lanes, &mut self.saved_rooms)
    }

    // The lane of the trial that promises most.
    fn best_trial(&mut self, target: f64) -> Option<LanePlace>
        ensures { self.new ≡ self.old }
    {
        let tried = trials(&self.guests, &self.flows);
        self.saved_rooms.copy_from_slice(&self.rooms);
        copy_first(lane_count(&self.guests), &self.flows, &mut self.saved_flows);
        let mut best = NO_TRIAL;
        let mut greatest = -1.0;
        for trial in tried {
            let promised = self.promised(trial, target);
            if promised > greatest {
                greatest = promised;
                best = trial;
            }
        }
        self.place_of(best)
    }

    fn place_of(&self, trial: Trial) -> Option<LanePlace> {
        let lane = self.lanes.get(trial.place)?;
        if trial.cust >= self.guests.len() {
            return None;
        }
        Some(LanePlace {
            site: lane.site(),
            cust: trial.cust,
        })
    }

    // What a split on the lane promises; less than nothing where there is none.
    fn promised(&mut self, trial: Trial, target: f64) -> f64
        ensures { self.new ≡ self.old }
    {
        if trial.cust >= self.guests.len() {
            return -1.0;
        }
        let guest = self.guests[trial.cust];
        let left = target - self.bound;
        let one = self.gain(guest, trial.place, true, target);
        let other = self.gain(guest, trial.place, false, target);
        promise(one, other, left)
    }

    // By how much the bound rises where the customer's lane at the place is decided for or against.
    fn gain(&mut self, guest: Guest, place: usize, is_decided: bool, target: f64) -> f64
        ensures { self.new ≡ self.old }
    {
        let before = self.bound;
        set_aside(guest, place, is_decided, &mut self.lanes);
        reseat(guest, &self.lanes, &mut self.rooms, &mut self.flows);
        self.improve(target, target);
        let gain = if self.is_possible {
            self.bound - before
        } else {
            target - before
        };
        put_back(guest, &mut self.lanes);
        self.rooms.copy_from_slice(&self.saved_rooms);
        copy_first(lane_count(&self.guests), &self.saved_flows, &mut self.flows);
        self.bound = before;
        self.is_possible = true;
        gain
    }
}

fn rooms_of(alloc: Global, inst: &Instance, demand: f64) -> Result<Vec<Room>, NoMemory>
    ensures { IfOk result (λ rooms. length rooms.items ≡ length inst.now.sites) }
{
    let mut rooms = vec![in alloc; NO_ROOM; inst.sites()]?;
    fill_rooms(inst, demand, &mut rooms);
    Ok(rooms)
}

fn fill_suppliers(guests: &[Guest], lanes: &[RoomLane], flows: &[f64], suppliers: &mut [usize])
    ensures { length suppliers.new ≡ length suppliers.old }
{
    for j in 0..suppliers.len().min(guests.len()) {
        suppliers[j] = site_of(lanes, greatest_flow(guests[j], flows));
    }
}

// Copies so many flows from the first on: those of the box at work.
fn copy_first(count: usize, from: &[f64], to: &mut [f64])
    ensures { length to.new ≡ length to.old }
{
    for k in 0..count.min(from.len()).min(to.len()) {
        to[k] = from[k];
    }
}

fn total(demands: &[Demand]) -> f64 {
    let mut sum = 0.0;
    for demand in demands {
        sum += demand.weight;
    }
    sum
}

// No price has to be greater where flows are balanced.
fn greatest_price(guests: &[Guest], lanes: &[RoomLane], least: f64) -> f64 {
    let mut most = least;
    for guest in guests {
        if guest.weight > 0.0 {
            most = most.max(dearest(*guest, lanes));
        }
    }
    4.0 * most
}

// What a unit of the customer's demand costs on its dearest lane.
fn dearest(guest: Guest, lanes: &[RoomLane]) -> f64 {
    match lanes_of(lanes, guest).last() {
        None => 0.0,
        Some(lane) => guest.ratio(*lane),
    }
}

fn fill_prices(rooms: &[Room], scale: u32, prices: &mut [u64])
    requires { length rooms.now ≡ length prices.old }
    ensures { length prices.new ≡ length prices.old }
{
    for i in 0..prices.len() {
        prices[i] = nearest_whole(rooms[i].price, scale).unsigned_abs();
    }
}
