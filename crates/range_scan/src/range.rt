/// Amounts from the least to the greatest, both of them among these, in millionths.
#[derive(Clone, Copy, Debug, PartialEq, Eq)]
pub struct Range {
    /// The least amount.
    pub least: u64,
    /// The greatest amount.
    pub greatest: u64,
}
