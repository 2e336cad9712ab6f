//! The limit on files beside those of instances.

/// The greatest number of edges in a file.
pub const MAX_EDGES: usize = 10_000_000;
