//! Moves of customers between open sites, and what they change.

/// An open site.
#[derive(Clone, Copy)]
pub(crate) struct Room {
    /// Its place among all sites.
    pub(crate) site: usize,
    /// How much demand it can serve, and how much it serves, in millionths.
    pub(crate) cap: f64,
    pub(crate) load: f64,
}

/// A customer.
#[derive(Clone, Copy)]
pub(crate) struct Guest {
    /// In millionths.
    pub(crate) demand: f64,
    /// The place of its room among the rooms.
    pub(crate) room: usize,
}

/// A move of customers.
#[derive(Clone, Copy)]
pub(crate) struct Move {
    /// The customer that moves, the room that it leaves, and the one to which it goes.
    pub(crate) guest: usize,
    pub(crate) from: usize,
    pub(crate) to: usize,
    /// The customer that goes the other way, if one does.
    pub(crate) other: Option<usize>,
    /// By how much more demand is then served from the room to which the first one goes.
    pub(crate) more: f64,
    /// By how much the lanes then cost more, in millionths.
    pub(crate) cost: f64,
    /// By how much more demand is then served than the rooms can, in millionths.
    pub(crate) over: f64,
}

impl Room {
    /// By how much more it serves than it can, with so much more demand than now.
    pub(crate) fn over_with(&self, more: f64) -> f64 {
        (self.load + more - self.cap).max(0.0)
    }

    /// By how much that rises with so much more demand.
    pub(crate) fn rise(&self, more: f64) -> f64 {
        self.over_with(more) - self.over_with(0.0)
    }
}
