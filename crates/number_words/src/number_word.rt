//! Whole numbers: which words spell one, its value, and its text.

ghost use Rattle.std.specs.Prelude.{◌≡◌, ◌↔◌, ◌<◌, ◌<ℤ◌, ◌++◌, true, IsTrue, OnOk};
ghost use Rattle.std.specs.Str.Parse.{digits_value, without_leading_sign};
ghost use Rattle.number_words.specs.Number.{is_plain_digits, is_number, number_of, is_plain_number, digits_text, number_text, clamped};

use crate::digit_run::{is_digits, is_plain_digits, wide_value};
use itoa::Buffer;
use std::alloc::AllocError;

/// Whether a word spells a whole number: a sign or none, and digits.
pub fn is_number(word: &[u8]) -> bool
    ensures { result ≡ is_number word.now }
{
    is_digits(without_sign(word))
}

/// Whether a word is a number in its one spelling, as it is printed: no `+`, no leading zero but in `0`
/// itself, and no `-0`.
pub fn is_plain_number(word: &[u8]) -> bool
    ensures { result ≡ is_plain_number word.now }
{
    match word {
        [b'-', digits @ ..] => is_plain_digits(digits) && digits[0] != b'0',
        _ => is_plain_digits(word),
    }
}

/// The value of a number where its size is below 10^30, and otherwise 10^30 with its sign.
pub fn number(word: &[u8]) -> i128
    requires { IsTrue (is_number word.now) }
    ensures { result ≡ clamped (number_of word.now) }
{
    let size = wide_value(without_sign(word)) as i128;
    if word[0] == b'-' { -size } else { size }
}

/// Whether the second of two numbers, each in its plain spelling, is greater than the first. They may be
/// of any length.
pub fn rises(a: &[u8], b: &[u8]) -> bool
    requires a_number { IsTrue (is_number a.now) }
    requires a_plain { IsTrue (is_plain_number a.now) }
    requires b_number { IsTrue (is_number b.now) }
    requires b_plain { IsTrue (is_plain_number b.now) }
    ensures { IsTrue result ↔ (number_of a.now <ℤ number_of b.now) }
{
    let x = without_sign(a);
    let y = without_sign(b);
    match (a[0] == b'-', b[0] == b'-') {
        (true, true) => is_below(y, x),
        (true, false) => true,
        (false, true) => false,
        (false, false) => is_below(x, y),
    }
}

/// Appends a number to a text, in its plain spelling.
pub fn push_number(text: &mut Vec<u8>, value: i128) -> Result<(), AllocError>
    ensures { OnOk result (text.new.items ≡ text.old.items ++ number_text value) }
{
    text.extend_from_slice(Buffer::new().format(value).as_bytes())
}

/// Appends a natural number to a text, in its plain spelling.
pub fn push_count(text: &mut Vec<u8>, n: u64) -> Result<(), AllocError>
    ensures { OnOk result (text.new.items ≡ text.old.items ++ digits_text n) }
{
    text.extend_from_slice(Buffer::new().format(n).as_bytes())
}

/// A word without a leading sign.
fn without_sign(word: &[u8]) -> &[u8]
    ensures { result.now ≡ without_leading_sign word.now }
{
    match word {
        [b'-' | b'+', rest @ ..] => rest,
        _ => word,
    }
}

/// Whether the value of plain digits is below that of others: fewer digits are worth less, and as many
/// are told apart by the first in which they differ.
fn is_below(a: &[u8], b: &[u8]) -> bool
    requires a { is_plain_digits a.now ≡ true }
    requires b { is_plain_digits b.now ≡ true }
    ensures { IsTrue result ↔ (digits_value 10 a.now < digits_value 10 b.now) }
{
    if a.len() == b.len() {
        a.cmp(b).is_lt()
    } else {
        a.len() < b.len()
    }
}
