/// A thing that is packed whole or left out.
#[derive(Clone, Copy, Debug, PartialEq, Eq)]
pub struct Item {
    /// What it takes of the capacity.
    pub weight: u64,
    /// What it adds to the worth of a set; below 0 where it takes away.
    pub worth: i128,
}

// An item that may pay: it weighs at most the capacity, and its worth is above 0.
#[derive(Clone, Copy, Debug, PartialEq, Eq)]
pub(crate) struct Load {
    pub(crate) weight: u64,
    pub(crate) worth: u128,
}

// A choice among the loads that were looked at: what it leaves of the capacity, and its worth.
#[derive(Clone, Copy, Debug, PartialEq, Eq)]
pub(crate) struct Choice {
    pub(crate) room: u64,
    pub(crate) worth: u128,
}
