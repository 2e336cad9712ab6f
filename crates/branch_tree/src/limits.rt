/// The greatest product of two numbers, a tree's nodes and the sites and customers counted together, with
/// which a checker reads each certificate on the tree. So a search starts from a tree of half as many nodes
/// at most, and its budget is as much again.
pub const MAX_TREE_NUMBERS: u64 = 40_000_000;
