//! Numbers within their limits.

ghost use Rattle.std.specs.Prelude.{◌≡◌, true, Some, None, unsigned_abs, if◌then◌else◌};
ghost use Rattle.location_terms.specs.declared.limits.TheConstants.{MAX_SCALE, MAX_VALUE, MAX_MULTIPLIER};
ghost use Rattle.number_words.specs.Number.{is_number, number_of};
ghost use Rattle.certificate_lines.specs.Lines.{is_up_to, is_of_size};

use location_terms::{MAX_MULTIPLIER, MAX_SCALE, MAX_VALUE};
use number_words::number;

/// The scale of duals that a number is, where it is within its limit.
pub(crate) fn scale_in(word: &[u8]) -> Option<u32>
    requires { is_number word.now ≡ true }
    ensures { result ≡ (if is_up_to MAX_SCALE (number_of word.now) then Some (unsigned_abs (number_of word.now)) else None) }
{
    match u32::try_from(number(word)) {
        Ok(scale) if scale <= MAX_SCALE => Some(scale),
        _ => None,
    }
}

/// The dual that a number is, where its size is within the limit.
pub(crate) fn value_in(word: &[u8]) -> Option<i128>
    requires { is_number word.now ≡ true }
    ensures { result ≡ (if is_of_size MAX_VALUE (number_of word.now) then Some (number_of word.now) else None) }
{
    let value = number(word);
    if value.unsigned_abs() <= MAX_VALUE {
        Some(value)
    } else {
        None
    }
}

/// The price of a capacity that a number is, where it is within its limit.
pub(crate) fn price_in(word: &[u8]) -> Option<u64>
    requires { is_number word.now ≡ true }
    ensures { result ≡ (if is_up_to MAX_MULTIPLIER (number_of word.now) then Some (unsigned_abs (number_of word.now)) else None) }
{
    match u64::try_from(number(word)) {
        Ok(price) if price <= MAX_MULTIPLIER => Some(price),
        _ => None,
    }
}
