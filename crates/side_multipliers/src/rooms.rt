//! The rooms of the sites in a box without free ones, and what is loaded into them.
ghost use Rattle.std.specs.Prelude.{◌≡◌, ◌<◌, length};

use crate::room_lanes::RoomLane;
use dual_value::{PreparedBox, SiteState};
use instance_store::Instance;
use std::num::nearest_u64_to_f64;

/// The room of a site, by its place.
#[derive(Clone, Copy)]
pub(crate) struct Room {
    pub(crate) is_opened: bool,
    has_cap: bool,
    /// The capacity; where there is none, what all customers demand.
    pub(crate) cap: f64,
    pub(crate) fixed: f64,
    /// What is loaded, and how much of the room is left empty.
    pub(crate) load: f64,
    pub(crate) spare: f64,
    /// The price of a unit of the capacity.
    pub(crate) price: f64,
    /// What it costs to bring a unit of demand here from an overfull room, and by which move it comes.
    pub(crate) way: f64,
    pub(crate) last: Move,
    /// Whether some lane can be lost only where other customers are forced to the site.
    pub(crate) is_pressed: bool,
}

/// How a unit of demand comes to a room.
#[derive(Clone, Copy)]
pub(crate) struct Move {
    /// The place of the site from which it comes; behind all sites where the way begins.
    pub(crate) from: usize,
    /// The places of the lanes that lose and gain it; none where empty room is moved instead.
    pub(crate) lanes: Option<(usize, usize)>,
}

/// The way begins here.
pub(crate) const NO_MOVE: Move = Move {
    from: usize::MAX,
    lanes: None,
};

/// No site in particular.
pub(crate) const NO_ROOM: Room = Room {
    is_opened: false,
    has_cap: false,
    cap: 0.0,
    fixed: 0.0,
    load: 0.0,
    spare: 0.0,
    price: 0.0,
    way: f64::MAX,
    last: NO_MOVE,
    is_pressed: false,
};

impl Room {
    /// By how much more is loaded and left empty than there is room for; below 0 where it is less.
    pub(crate) fn excess(self) -> f64 {
        self.load + self.spare - self.cap
    }

    /// Whether more is loaded than the capacity.
    pub(crate) fn is_overloaded(self) -> bool {
        self.has_cap && self.load > self.cap
    }

    fn fits_beside(self, weight: f64) -> bool {
        !self.has_cap || self.load + weight <= self.cap
    }
}

/// Fills in what the sites cost and hold. All customers together demand `demand`.
pub(crate) fn fill_rooms(inst: &Instance, demand: f64, rooms: &mut [Room])
    requires { length rooms.old ≡ length inst.now.sites }
    ensures { length rooms.new ≡ length rooms.old }
{
    for i in 0..rooms.len() {
        rooms[i].fixed = nearest_u64_to_f64(inst.fixed(i));
        rooms[i].cap = demand;
        if let Some(cap) = inst.cap(i) {
            rooms[i].has_cap = true;
            rooms[i].cap = nearest_u64_to_f64(cap);
        }
    }
}

/// Takes from the box which sites are opened.
pub(crate) fn open_rooms(boxed: &PreparedBox<'_>, rooms: &mut [Room])
    requires { length rooms.old ≡ length boxed.now.instance.sites }
    ensures { length rooms.new ≡ length rooms.old }
{
    for i in 0..rooms.len() {
        rooms[i].is_opened = match boxed.state(i) {
            SiteState::Opened => true,
            SiteState::Closed | SiteState::Free => false,
        };
    }
}

/// Nothing is loaded any more.
pub(crate) fn empty_rooms(rooms: &mut [Room])
    ensures { length rooms.new ≡ length rooms.old }
{
    for i in 0..rooms.len() {
        rooms[i].load = 0.0;
    }
}

/// Loads so much more into the room of a site.
pub(crate) fn load(rooms: &mut [Room], site: usize, weight: f64)
    ensures { length rooms.new ≡ length rooms.old }
{
    if site < rooms.len() {
        rooms[site].load += weight;
    }
}

/// Whether so much demand fits into the site's room beside what is loaded.
pub(crate) fn fits_beside(rooms: &[Room], site: usize, weight: f64) -> bool {
    match rooms.get(site) {
        None => false,
        Some(room) => room.fits_beside(weight),
    }
}

/// Whether more is loaded into some room than it holds.
pub(crate) fn is_overloaded(rooms: &[Room]) -> bool {
    for room in rooms {
        if room.is_overloaded() {
            return true;
        }
    }
    false
}

/// No site is pressed any more, or those that are overloaded are.
pub(crate) fn press_overloaded(rooms: &mut [Room], may_press: bool)
    ensures { length rooms.new ≡ length rooms.old }
{
    for i in 0..rooms.len() {
        rooms[i].is_pressed = may_press && rooms[i].is_overloaded();
    }
}

/// Presses the site.
pub(crate) fn press(rooms: &mut [Room], site: usize)
    ensures { length rooms.new ≡ length rooms.old }
{
    if site < rooms.len() {
        rooms[site].is_pressed = true;
    }
}

/// Whether the site is pressed.
pub(crate) fn is_pressed_at(rooms: &[Room], site: usize) -> bool {
    match rooms.get(site) {
        None => false,
        Some(room) => room.is_pressed,
    }
}

/// The price of a unit of demand at the site.
pub(crate) fn price_at(rooms: &[Room], site: usize) -> f64 {
    match rooms.get(site) {
        None => 0.0,
        Some(room) => room.price,
    }
}

/// The level of the lane at the prices, for a customer of this demand.
pub(crate) fn level_at(lane: RoomLane, weight: f64, rooms: &[Room]) -> f64 {
    lane.cost + weight * price_at(rooms, lane.site())
}

/// What the opened sites cost.
pub(crate) fn fixed_cost(rooms: &[Room]) -> f64 {
    let mut sum = 0.0;
    for room in rooms {
        if room.is_opened {
            sum += room.fixed;
        }
    }
    sum
}

/// What the opened sites cost, less what their capacities do at the prices.
pub(crate) fn opened_cost(rooms: &[Room]) -> f64 {
    let mut sum = 0.0;
    for room in rooms {
        if room.is_opened {
            sum += room.fixed - room.price * room.cap;
        }
    }
    sum
}
