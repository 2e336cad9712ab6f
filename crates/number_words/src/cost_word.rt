//! Costs: which words spell one, and its value.

ghost use Rattle.std.specs.Prelude.{◌≡◌, ◌^◌, min, IsTrue};
ghost use Rattle.number_words.specs.Cost.{units_of, decimals_of, is_cost, spelled_cost, is_plain_cost};

use crate::digit_run::{is_digits, is_plain_digits, push_wide_digits};

/// Whether a word spells a cost: one digit or more, a point, and one digit or more.
pub fn is_cost(word: &[u8]) -> bool
    ensures { result ≡ is_cost word.now }
{
    let (units, decimals) = parts(word);
    is_digits(units) && is_digits(decimals)
}

/// Whether a word is a cost in its one spelling, as it is printed: six decimals, and no leading zero in
/// the whole part but `0` itself.
pub fn is_plain_cost(word: &[u8]) -> bool
    ensures { result ≡ is_plain_cost word.now }
{
    let (units, decimals) = parts(word);
    is_plain_digits(units) && is_digits(decimals) && decimals.len() == 6
}

/// The value of a cost's digits without the point, or 10^30 past it: its millionths where it has six
/// decimals.
pub fn cost(word: &[u8]) -> u128
    requires { IsTrue (is_cost word.now) }
    ensures { result ≡ min (spelled_cost word.now) (10 ^ 30) }
{
    let (units, decimals) = parts(word);
    push_wide_digits(push_wide_digits(0, units), decimals)
}

/// The bytes of a word before its first point, and those after it.
pub fn parts(word: &[u8]) -> (&[u8], &[u8])
    ensures units { result.0.now ≡ units_of word.now }
    ensures decimals { result.1.now ≡ decimals_of word.now }
{
    match word.iter().position(|b| *b == b'.') {
        Some(i) => (&word[..i], &word[i + 1..]),
        None => (word, &[]),
    }
}
