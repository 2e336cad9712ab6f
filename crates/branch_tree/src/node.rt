use location_terms::Split;

/// A node of a tree without its duals.
#[derive(Clone, Copy, Debug, PartialEq, Eq)]
pub enum NodeKind {
    /// A leaf.
    Leaf,
    /// A split, whose children follow.
    Split(Split),
}
