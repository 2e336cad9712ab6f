//! Runs of digits, and what they are worth.

ghost use Rattle.std.specs.Prelude.{◌≡◌, ◌+◌, ◌*◌, ◌≤◌, ◌^◌, true, min};
ghost use Rattle.std.specs.Char.{is_ascii_digit};
ghost use Rattle.std.specs.List.{list_all};
ghost use Rattle.std.specs.Str.{all_ascii_digits};
ghost use Rattle.std.specs.Str.Parse.{digits_value, digits_value_after};
ghost use Rattle.number_words.specs.Number.{is_digits, is_plain_digits};

/// Values stop here, so that words of any length can be read: 10^18, which fits 64 bits with one more
/// digit behind it.
const CAP: u64 = 1_000_000_000_000_000_000;

/// Wide values stop here: 10^30.
const WIDE_CAP: u128 = 1_000_000_000_000_000_000_000_000_000_000;

/// Whether a word is one digit or more, and nothing else.
pub fn is_digits(word: &[u8]) -> bool
    ensures { result ≡ is_digits word.now }
{
    !word.is_empty() && has_digits_alone(word)
}

/// Whether each byte is a digit.
pub fn has_digits_alone(word: &[u8]) -> bool
    ensures { result ≡ list_all is_ascii_digit word.now }
{
    word.iter().all(|b| b.is_ascii_digit())
}

/// Whether a word is digits without a leading zero, or `0` itself.
pub(crate) fn is_plain_digits(word: &[u8]) -> bool
    ensures { result ≡ is_plain_digits word.now }
{
    is_digits(word) && (word[0] != b'0' || word.len() == 1)
}

/// The value with one more digit behind it, or `CAP` past it.
fn push_digit(value: u64, digit: u8) -> u64
    requires value { value ≤ CAP }
    requires digit { digit ≤ 9 }
    ensures { result ≡ min (value * 10 + digit) CAP }
{
    (value * 10 + u64::from(digit)).min(CAP)
}

/// A value with more digits behind it, or 10^18 past it.
pub fn push_digits(value: u64, digits: &[u8]) -> u64
    requires value { value ≤ 10 ^ 18 }
    requires digits { all_ascii_digits digits.now ≡ true }
    ensures { result ≡ min (digits_value_after 10 value digits.now) (10 ^ 18) }
{
    let mut whole = value;
    for b in digits {
        whole = push_digit(whole, *b - b'0');
    }
    whole
}

/// The wide value with one more digit behind it, or `WIDE_CAP` past it.
fn push_wide_digit(value: u128, digit: u8) -> u128
    requires value { value ≤ WIDE_CAP }
    requires digit { digit ≤ 9 }
    ensures { result ≡ min (value * 10 + digit) WIDE_CAP }
{
    (value * 10 + u128::from(digit)).min(WIDE_CAP)
}

/// A wide value with more digits behind it, or 10^30 past it.
pub(crate) fn push_wide_digits(value: u128, digits: &[u8]) -> u128
    requires value { value ≤ 10 ^ 30 }
    requires digits { all_ascii_digits digits.now ≡ true }
    ensures { result ≡ min (digits_value_after 10 value digits.now) (10 ^ 30) }
{
    let mut whole = value;
    for b in digits {
        whole = push_wide_digit(whole, *b - b'0');
    }
    whole
}

/// The value of digits, or 10^30 past it. In 64 bits where those hold it, which is faster.
pub(crate) fn wide_value(digits: &[u8]) -> u128
    requires digits { all_ascii_digits digits.now ≡ true }
    ensures { result ≡ min (digits_value 10 digits.now) (10 ^ 30) }
{
    let value = push_digits(0, digits);
    if value < CAP {
        u128::from(value)
    } else {
        push_wide_digits(0, digits)
    }
}
