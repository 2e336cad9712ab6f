//! What a strategy proposes.
use dual_value::Duals;
use plan_meaning::Plan;

/// What a search tries next in the box of an open leaf.
#[derive(Drop)]
pub enum Move {
    /// Duals by prices, whose ascent becomes the leaf's where it is in range and has a greater bound.
    Duals(Duals),
    /// Duals for whole knapsacks, or of scale 0, which become the leaf's where they are in range and close its box.
    Closing(Duals),
    /// A plan, which becomes the best one where it is feasible and costs less.
    Plan(Plan),
    /// Nothing this time: the strategy goes on when it is asked again.
    Nothing,
    /// Nothing more in this box.
    Done,
}

/// How a strategy would split a box, by places, which count from 0.
#[derive(Clone, Copy)]
pub enum Wish {
    /// On the site at this place, which is to be free in the box.
    Site(usize),
    /// Where no site is free, on the lane from this site to this customer, which the box is to allow, and another
    /// one to the customer.
    Lane { site: usize, cust: usize },
}
