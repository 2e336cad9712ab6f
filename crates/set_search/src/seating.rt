//! Customers that are seated whole at a set of open sites. Each makes moves in no order, of which those are
//! taken that cost no more than a threshold, which falls (Dueck and Scheuer, Journal of Computational Physics
//! 90, 1990). A site may serve more than it can at a price, which rises while one does and falls while none
//! does.

use crate::moves::{Guest, Move, Room};
use instance_store::{Instance, NoMemory};
use rand_core::Rng;
use rand_xoshiro::SplitMix64;
use std::alloc::Global;
use std::num::nearest_u64_to_f64;

// How often the threshold falls, and how many moves are tried each time: so many for each lane of an open
// site, and no more than these in all.
const ROUNDS: u32 = 200;

const MOVES_A_LANE: usize = 3;

const MOST_MOVES: usize = 20_000;

// The threshold at first, in parts of what a lane costs in the mean, and by which factor it falls.
const FIRST: f64 = 0.3;

const FALLS: f64 = 0.9885;

// The price of demand that no room is left for, at first in parts of what the lanes cost for each unit, and
// by which factors it rises and falls.
const PRICE: f64 = 2.0;

const DEARER: f64 = 1.05;

const CHEAPER: f64 = 0.95;

// What is as good as no demand at all, in millionths.
const NOTHING: f64 = 0.5;

// More than any lane costs: there is none.
const NO_LANE: f64 = 1e30;

/// Customers at open sites.
#[derive(Drop)]
pub(crate) struct Seating {
    rooms: Vec<Room>,
    guests: Vec<Guest>,
    // What a lane costs, the lanes of the first customer by room, then those of the second one, and so on.
    costs: Vec<f64>,
    // What the lanes of the customers cost, and how much demand is served more than the rooms can.
    cost: f64,
    over: f64,
    price: f64,
    threshold: f64,
    // The cheapest seats that fit all rooms: the place of the site by customer, and what their lanes cost.
    best: Vec<usize>,
    least: f64,
}

impl Seating {
    /// The customers at the sites that are flagged, each at the one that is named for it, by place, or else at
    /// the one with the cheapest lane. It fails only where memory runs out.
    pub(crate) fn of(
        alloc: Global,
        inst: &Instance,
        open: &[bool],
        named: &[usize],
    ) -> Result<Seating, NoMemory> {
        let rooms = rooms_of(alloc, inst, open)?;
        let costs = costs_of(alloc, inst, &rooms)?;
        let guests = guests_of(alloc, inst, &rooms, &costs, named)?;
        let mut seating = Seating {
            rooms,
            guests,
            costs,
            cost: 0.0,
            over: 0.0,
            price: 0.0,
            threshold: 0.0,
            best: Vec::new(alloc),
            least: NO_LANE,
        };
        seating.start();
        Ok(seating)
    }

    /// Moves the customers. What is found is the place of the site for each customer, by place, and nothing
    /// where no seats are found that fit. It fails only where memory runs out.
    pub(crate) fn settle(&mut self, rng: &mut SplitMix64) -> Result<&[usize], NoMemory> {
        let lanes = self.guests.len().saturating_mul(self.rooms.len());
        let moves = lanes.saturating_mul(MOVES_A_LANE).min(MOST_MOVES);
        for _round in 0..ROUNDS {
            for _ in 0..moves {
                self.try_move(rng)?;
            }
            self.threshold *= FALLS;
            self.price *= if self.over > NOTHING { DEARER } else { CHEAPER };
        }
        Ok(&self.best)
    }

    // Takes up what the first seats cost.
    fn start(&mut self) {
        let mut demand = 0.0;
        for guest in 0..self.guests.len() {
            let seat = self.guests[guest];
            self.cost += self.cost_at(guest, seat.room);
            demand += seat.demand;
            if seat.room < self.rooms.len() {
                self.rooms[seat.room].load += seat.demand;
            }
        }
        for room in &self.rooms {
            self.over += room.over_with(0.0);
        }
        self.threshold = FIRST * self.cost / nearest_u64_to_f64(self.guests.len().max(1) as u64);
        self.price = PRICE * self.cost / demand.max(1.0);
    }

    // Tries one move, and keeps the seats where they are the cheapest that fit.
    fn try_move(&mut self, rng: &mut SplitMix64) -> Result<(), NoMemory> {
        let Some(tried) = self.any_move(rng) else {
            return Ok(());
        };
        if tried.cost + self.price * tried.over > self.threshold {
            return Ok(());
        }
        self.make(&tried);
        if self.over < NOTHING && self.cost < self.least {
            self.keep()?;
        }
        Ok(())
    }

    // A move of a customer to another room, or an exchange of two customers: one as often as the other.
    fn any_move(&self, rng: &mut SplitMix64) -> Option<Move> {
        let guest = any_place(rng, self.guests.len());
        if rng.next_u64() % 2 == 0 {
            return self.shift(guest, any_place(rng, self.rooms.len()));
        }
        self.exchange(guest, any_place(rng, self.guests.len()))
    }

    // The move of a customer to a room.
    fn shift(&self, guest: usize, to: usize) -> Option<Move> {
        let seat = *self.guests.get(guest)?;
        let cost = self.cost_at(guest, to) - self.cost_at(guest, seat.room);
        self.move_of(guest, to, None, seat.demand, cost)
    }

    // The exchange of two customers.
    fn exchange(&self, guest: usize, other: usize) -> Option<Move> {
        let seat = *self.guests.get(guest)?;
        let other_seat = *self.guests.get(other)?;
        let there = self.cost_at(guest, other_seat.room) + self.cost_at(other, seat.room);
        let here = self.cost_at(guest, seat.room) + self.cost_at(other, other_seat.room);
        let more = seat.demand - other_seat.demand;
        self.move_of(guest, other_seat.room, Some(other), more, there - here)
    }

    fn move_of(
        &self,
        guest: usize,
        to: usize,
        other: Option<usize>,
        more: f64,
        cost: f64,
    ) -> Option<Move> {
        let from = self.guests.get(guest)?.room;
        if from == to {
            return None;
        }
        let over = self.rooms.get(to)?.rise(more) + self.rooms.get(from)?.rise(-more);
        Some(Move {
            guest,
            from,
            to,
            other,
            more,
            cost,
            over,
        })
    }

    fn make(&mut self, made: &Move) {
        self.cost += made.cost;
        self.over += made.over;
        self.serve(made.to, made.more);
        self.serve(made.from, -made.more);
        self.seat(made.guest, made.to);
        if let Some(other) = made.other {
            self.seat(other, made.from);
        }
    }

    fn serve(&mut self, room: usize, more: f64) {
        if room < self.rooms.len() {
            self.rooms[room].load += more;
        }
    }

    fn seat(&mut self, guest: usize, room: usize) {
        if guest < self.guests.len() {
            self.guests[guest].room = room;
        }
    }

    fn keep(&mut self) -> Result<(), NoMemory> {
        self.least = self.cost;
        self.best.clear();
        for guest in &self.guests {
            let site = match self.rooms.get(guest.room) {
                Some(room) => room.site,
                None => 0,
            };
            self.best.push(site)?;
        }
        Ok(())
    }

    #[inline(always)]
    fn cost_at(&self, guest: usize, room: usize) -> f64 {
        cost_in(&self.costs, self.rooms.len(), guest, room)
    }
}

#[inline(always)]
fn cost_in(costs: &[f64], rooms: usize, guest: usize, room: usize) -> f64 {
    let place = guest.wrapping_mul(rooms).wrapping_add(room);
    if room < rooms && place < costs.len() {
        costs[place]
    } else {
        NO_LANE
    }
}

// One of so many places, and 0 where there is none.
fn any_place(rng: &mut SplitMix64, count: usize) -> usize {
    if count == 0 {
        return 0;
    }
    (rng.next_u64() % count as u64) as usize
}

fn rooms_of(alloc: Global, inst: &Instance, open: &[bool]) -> Result<Vec<Room>, NoMemory> {
    let mut rooms = Vec::new(alloc);
    for site in 0..inst.sites().min(open.len()) {
        if open[site] {
            let cap = match inst.cap(site) {
                Some(cap) => nearest_u64_to_f64(cap),
                None => NO_LANE,
            };
            rooms.push(Room {
                site,
                cap,
                load: 0.0,
            })?;
        }
    }
    Ok(rooms)
}

fn costs_of(alloc: Global, inst: &Instance, rooms: &[Room]) -> Result<Vec<f64>, NoMemory> {
    let mut costs = Vec::new(alloc);
    for cust in 0..inst.custs() {
        push_costs(inst, rooms, cust, &mut costs)?;
    }
    Ok(costs)
}

fn push_costs(
    inst: &Instance,
    rooms: &[Room],
    cust: usize,
    costs: &mut Vec<f64>,
) -> Result<(), NoMemory> {
    for room in rooms {
        costs.push(lane_cost(inst, room.site, cust))?;
    }
    Ok(())
}

fn lane_cost(inst: &Instance, site: usize, cust: usize) -> f64 {
    if site >= inst.sites() || cust >= inst.custs() {
        return NO_LANE;
    }
    match inst.lane(site, cust) {
        Some(cost) => nearest_u64_to_f64(cost),
        None => NO_LANE,
    }
}

fn guests_of(
    alloc: Global,
    inst: &Instance,
    rooms: &[Room],
    costs: &[f64],
    named: &[usize],
) -> Result<Vec<Guest>, NoMemory> {
    let mut guests = Vec::new(alloc);
    for cust in 0..inst.custs() {
        let wanted = named.get(cust).copied();
        guests.push(Guest {
            demand: nearest_u64_to_f64(inst.demand(cust)),
            room: first_room(rooms, costs, cust, wanted),
        })?;
    }
    Ok(guests)
}

// The room that is wanted for the customer by the place of its site, where there is a lane, or else the one
// with the cheapest lane.
fn first_room(rooms: &[Room], costs: &[f64], cust: usize, wanted: Option<usize>) -> usize {
    let mut best = 0;
    let mut least = NO_LANE;
    for room in 0..rooms.len() {
        let mut cost = cost_in(costs, rooms.len(), cust, room);
        if wanted == Some(rooms[room].site) && cost < NO_LANE {
            cost = -1.0;
        }
        if cost < least {
            least = cost;
            best = room;
        }
    }
    best
}
