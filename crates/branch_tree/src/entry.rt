use dual_value::Duals;
use location_terms::Split;

/// A node of a tree that is kept as a list in preorder: the end of a path, or a split, whose two
/// children follow it.
#[derive(Debug, Drop)]
pub enum Entry {
    End(Duals),
    Branch(Split),
}
