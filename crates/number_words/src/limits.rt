/// The most bytes of a text whose words are numbered, 2^28, so that its lines and the words of a line can
/// be counted.
pub const MAX_TEXT_BYTES: u64 = 268_435_456;
