//! The limits within which every sum of the suite fits its type.

/// The greatest cost, demand or capacity, in millionths.
pub const MAX_AMOUNT: u64 = 999_999_999_999_999;

/// A number above the cost of every plan, in millionths.
pub const MAX_COST: u64 = 8_000_000_000_000_000_000;

/// The greatest number of sites.
pub const MAX_SITES: usize = 3_000;

/// The greatest number of customers.
pub const MAX_CUSTOMERS: usize = 5_000;

/// The greatest number of sites times customers.
pub const MAX_LANES: usize = 10_000_000;

/// The greatest id of a site or a customer.
pub const MAX_ID: u32 = 4_294_967_294;

/// The greatest scale of a leaf's duals.
pub const MAX_SCALE: u32 = 1_000_000;

/// The greatest size of a customer's dual and of the price on the number of sites, either sign.
pub const MAX_VALUE: u128 = 1_000_000_000_000_000_000_000_000;

/// The greatest price of a site's capacity.
pub const MAX_MULTIPLIER: u64 = 1_000_000_000_000_000_000;

/// The greatest size of the price on the number of sites, and of the price of a customer's demand at a
/// site, from which an ascent stays within the limits.
pub const MAX_TAME: u128 = 100_000_000_000_000_000_000_000;

/// The greatest number of units of demand, their greatest common divisor, that a capacity holds where
/// a leaf takes whole knapsacks.
pub const MAX_UNITS: u64 = 1_000_000;
