//! The limits of a session.

/// The most edits that a session holds.
pub const MAX_EDITS: usize = 10_000;

/// How many of its last solves a session keeps.
pub const KEPT_SOLVES: usize = 4;

/// The most bytes of an input.
pub const MAX_INPUT_BYTES: u64 = 67_108_864;

/// The most bytes of a line of an input, its line feed not counted.
pub const MAX_LINE_BYTES: u64 = 1_048_576;
