//! An open leaf of a search, as a strategy sees it.
use dual_value::{Duals, PreparedBox};
use lane_order::LaneOrder;
use plan_meaning::Plan;
use std::alloc::Global;

/// An open leaf at work, and what the search knows. Costs are in millionths; bound and slacks are in millionths
/// times the scale of the duals. Sites and customers are known by their places, which count from 0.
#[derive(Clone, Copy)]
pub struct Scene<'a, 'b> {
    /// Where memory comes from.
    pub alloc: Global,
    /// The box of the leaf, with its instance and path.
    pub boxed: &'b PreparedBox<'b>,
    /// The instance's lanes by cost.
    pub order: &'a LaneOrder,
    /// The best duals of the leaf so far.
    pub duals: &'a Duals,
    /// Their bound.
    pub bound: i128,
    /// Their slacks, by site.
    pub slacks: &'a [i128],
    /// The best plan that the search knows.
    pub plan: Option<&'a Plan>,
    /// What it costs.
    pub cost: Option<u64>,
    /// Whether this is the first box of the search in which the strategy is asked.
    pub is_first: bool,
}
