//! An instance with the order of its lanes.
use instance_store::Instance;
use lane_order::LaneOrder;
use std::alloc::Global;

/// The instance in which sets of sites are sought, with the order of its lanes, and where memory comes from.
#[derive(Clone, Copy)]
pub struct Ordered<'a> {
    pub alloc: Global,
    pub inst: &'a Instance,
    pub order: &'a LaneOrder,
}
