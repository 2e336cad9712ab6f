use number_words::MAX_TEXT_BYTES;

/// The most bytes of an instance file, 2^28, so that its lines and the words of a line can be counted.
pub const MAX_INSTANCE_BYTES: u64 = MAX_TEXT_BYTES;
