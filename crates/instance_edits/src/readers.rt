//! What an inverse tells of its edit.
ghost use Rattle.std.specs.Prelude.{◌≡◌, ◌<◌, None, length, slice_index_or};
ghost use Rattle.instance_store.specs.Small.{IsSmall};
ghost use Rattle.instance_edits.specs.Undo.{touch_of, former_amount, former_lanes};

use crate::{Inverse, Touch};

impl Inverse {
    /// The kind and the ids of the edit.
    pub fn touch(&self) -> Touch
        ensures { result ≡ touch_of self.now }
    {
        match self {
            Inverse::FormerFixed { site, .. } => Touch::Site(*site),
            Inverse::FormerLane { site, cust, .. } => Touch::Lane(*site, *cust),
            Inverse::FormerDemand { cust, .. } => Touch::Cust(*cust),
            Inverse::FormerCap { site, .. } => Touch::Site(*site),
            Inverse::FormerCount { .. } => Touch::Count,
            Inverse::AddedSite { site } => Touch::SiteIn(*site),
            Inverse::AddedCust { cust } => Touch::CustIn(*cust),
            Inverse::DroppedSite { row, .. } => Touch::SiteOut(row.id),
            Inverse::DroppedCust { row, .. } => Touch::CustOut(row.id),
            Inverse::FormerStatus { site, .. } => Touch::Site(*site),
        }
    }

    /// The former fixed cost, lane cost, demand or capacity, or the fixed cost of the site or the
    /// demand of the customer that went, in millionths. `None` where there was none, or where the edit
    /// replaced something else.
    pub fn former_amount(&self) -> Option<u64>
        ensures { result ≡ former_amount self.now }
    {
        match self {
            Inverse::FormerFixed { cost, .. } => Some(*cost),
            Inverse::FormerLane { cost, .. } => *cost,
            Inverse::FormerDemand { demand, .. } => Some(*demand),
            Inverse::FormerCap { cap, .. } => *cap,
            Inverse::DroppedSite { row, .. } => Some(row.fixed),
            Inverse::DroppedCust { row, .. } => Some(row.demand),
            Inverse::FormerCount { .. }
            | Inverse::AddedSite { .. }
            | Inverse::AddedCust { .. }
            | Inverse::FormerStatus { .. } => None,
        }
    }

    /// What it cost to serve the customer at place `k` from the site that went, or the customer that
    /// went from the site at place `k`, in millionths, and `None` where there was no lane. A site or a
    /// customer has to have gone, and `k` to be in range.
    pub fn former_lane(&self, k: usize) -> Option<u64>
        requires { k < length (former_lanes self.now) }
        ensures exact { result ≡ slice_index_or (former_lanes self.now) k None }
        ensures small { IsSmall result }
    {
        match self {
            Inverse::DroppedSite { row, .. } => row.lanes.get(k),
            Inverse::DroppedCust { lanes, .. } => lanes.get(k),
            _ => None,
        }
    }
}
