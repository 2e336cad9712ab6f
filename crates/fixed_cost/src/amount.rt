//! Amounts and counts, and the words that spell them.

ghost use Rattle.std.specs.Prelude.{◌≡◌, ◌==◌, ◌/◌, ◌%◌, ◌≤◌, ◌++◌, true, min, drop};
ghost use Rattle.std.specs.List.{list_all};
ghost use Rattle.std.specs.Option.{SomeIff};
ghost use Rattle.std.specs.Str.{all_ascii_digits};
ghost use Rattle.std.specs.Str.Parse.{digits_value, without_leading_plus};
ghost use Rattle.fixed_cost.specs.Amount.{amount_of, count_of, six_places};
ghost use Rattle.number_words.specs.Number.{is_digits};

use location_terms::MAX_AMOUNT;
use number_words::{has_digits_alone, is_digits, parts, push_digits};
use std::marker::Model;
use thiserror::Error;

/// How many millionths make a unit.
const UNIT: u64 = 1_000_000;

/// Values are read up to here, which is past every amount and every count.
const CAP: u64 = 1_000_000_000_000_000_000;

/// A cost, a demand or a capacity: a whole number of millionths of a unit, at most `MAX_AMOUNT`.
#[derive(Clone, Copy, Debug, PartialEq, Eq, PartialOrd, Ord)]
pub struct Amount {
    micro: u64,
}

impl Model for Amount {
    ghost use Rattle.std.specs.Prelude.{ℕ, ◌≤◌};
    ghost use Rattle.location_terms.specs.declared.limits.TheConstants.{MAX_AMOUNT};

    ghost Value = { ℕ };

    ghost view = { λ a. a.micro };

    ghost invariant = { λ a. a.micro ≤ MAX_AMOUNT };

    ghost inverse = { λ n. record { micro = n } };
}

/// Why a word is no amount, or no count. Where two causes hold, the first of them is told.
#[derive(Clone, Copy, Debug, PartialEq, Eq, Error)]
pub enum AmountFault {
    /// The word is spelled like no number.
    #[error("not a number")]
    NotANumber,
    /// A digit after the sixth decimal isn't zero.
    #[error("finer than a millionth")]
    TooFine,
    /// The value passes the limit.
    #[error("too big")]
    TooBig,
}

impl Amount {
    /// The amount of so many millionths; None past `MAX_AMOUNT`.
    pub fn new(micro: u64) -> Option<Amount>
        ensures { SomeIff result (micro ≤ MAX_AMOUNT) micro }
    {
        if micro <= MAX_AMOUNT {
            Some(Amount { micro })
        } else {
            None
        }
    }

    /// The amount in millionths.
    pub fn micro(self) -> u64
        ensures value { result ≡ self }
        ensures bounded { result ≤ MAX_AMOUNT }
    {
        self.micro
    }

    /// The amount in units; None where it isn't a whole number of them.
    pub fn units(self) -> Option<u64>
        ensures { SomeIff result (self % 1000000 ≡ 0) (self / 1000000) }
    {
        if self.micro % UNIT == 0 {
            Some(self.micro / UNIT)
        } else {
            None
        }
    }

    /// The amount that a word spells, in units: a `+` or none, then digits with at most one point and
    /// at least one digit, as `12.`, `.5`, `+3` and `007`. Digits after the sixth decimal must be zeros.
    /// The word may have any length.
    pub fn read(word: &[u8]) -> Result<Amount, AmountFault>
        ensures { result ≡ amount_of word.now }
    {
        let (whole, decimals) = parts(without_plus(word));
        if !has_digits(whole, decimals) {
            return Err(AmountFault::NotANumber);
        }
        if !is_whole_tail(decimals) {
            return Err(AmountFault::TooFine);
        }
        let micro = millionths(whole, decimals);
        if micro <= MAX_AMOUNT {
            Ok(Amount { micro })
        } else {
            Err(AmountFault::TooBig)
        }
    }
}

/// A word without a leading `+`.
fn without_plus(word: &[u8]) -> &[u8]
    ensures { result.now ≡ without_leading_plus word.now }
{
    match word {
        [b'+', rest @ ..] => rest,
        _ => word,
    }
}

/// Whether two parts have one digit or more together, and nothing else.
fn has_digits(whole: &[u8], decimals: &[u8]) -> bool
    ensures { result ≡ is_digits (whole.now ++ decimals.now) }
{
    if whole.is_empty() {
        is_digits(decimals)
    } else {
        has_digits_alone(whole) && has_digits_alone(decimals)
    }
}

/// Whether the digits after the sixth are zeros.
fn is_whole_tail(decimals: &[u8]) -> bool
    ensures { result ≡ list_all (λ b. b == 48) (drop 6 decimals.now) }
{
    decimals.iter().skip(6).all(|b| *b == b'0')
}

/// The value of digits and the first six decimals behind them, with zeros for those that aren't there,
/// or `CAP` past it.
fn millionths(whole: &[u8], decimals: &[u8]) -> u64
    requires whole { all_ascii_digits whole.now ≡ true }
    requires decimals { all_ascii_digits decimals.now ≡ true }
    ensures { result ≡ min (digits_value 10 (whole.now ++ six_places decimals.now)) CAP }
{
    let units = push_digits(0, whole);
    if decimals.is_empty() {
        return units.saturating_mul(UNIT).min(CAP);
    }
    let zeros = b"000000";
    let len = decimals.len().min(6);
    push_digits(push_digits(units, &decimals[..len]), &zeros[len..])
}

/// The count that a word spells: one or more digits alone, at most 4,294,967,295.
pub fn read_count(word: &[u8]) -> Result<u32, AmountFault>
    ensures { result ≡ count_of word.now }
{
    if !is_digits(word) {
        return Err(AmountFault::NotANumber);
    }
    let value = push_digits(0, word);
    if value <= u64::from(u32::MAX) {
        Ok(value as u32)
    } else {
        Err(AmountFault::TooBig)
    }
}
