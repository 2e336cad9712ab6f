//! Whether duals suit a leaf of their form.
use dual_value::RangeFault;
use thiserror::Error;

/// Why duals are not those of a leaf: the first of these that is the case, in this order.
#[derive(Clone, Copy, Debug, PartialEq, Eq, Error)]
pub enum LeafFault {
    /// A number isn't within its limits, or a site without capacity has a price of it.
    #[error("{0}")]
    Range(RangeFault),
    /// Whole knapsacks have a price of a capacity.
    #[error("whole knapsacks have a price of a capacity")]
    Priced,
    /// The knapsacks of the instance aren't small.
    #[error("the knapsacks aren't small")]
    LargeKnapsacks,
}
