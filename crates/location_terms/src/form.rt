//! The form of a leaf's duals.

/// How the duals of a leaf count what a site collects from the customers that it may serve.
#[derive(Clone, Copy, Debug, PartialEq, Eq)]
pub enum LeafForm {
    /// Customers may be served in part, and a price on each capacity says what that costs.
    Prices,
    /// Customers are served whole: the best set of them that fits into the capacity counts.
    Whole,
}
