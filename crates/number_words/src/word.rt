//! A word of a text.

ghost use Rattle.std.specs.Prelude.{◌<◌, ◌≤◌, length};
ghost use Rattle.number_words.specs.declared.limits.TheConstants.{MAX_TEXT_BYTES};

/// A word of a text of at most `MAX_TEXT_BYTES`: a longest run of bytes without space, tab, carriage
/// return and line feed.
#[derive(Clone, Copy, Debug)]
pub struct Word<'a> {
    pub text: &'a [u8],
    /// The number of its line, from 1. A line ends at a line feed.
    pub line: u32,
    /// Its place among the words of its line, from 1.
    pub place: u32,
    pub ghost nonempty: { 0 < length text.now },
    pub ghost line_counts: { 1 ≤ line },
    pub ghost place_counts: { 1 ≤ place },
    pub ghost line_fits: { line ≤ MAX_TEXT_BYTES },
    pub ghost place_fits: { place ≤ MAX_TEXT_BYTES },
}
