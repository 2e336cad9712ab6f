//! Amounts and claims as text.

ghost use Rattle.std.specs.Prelude.{◌≡◌, ◌+◌, ◌%◌, ◌≤◌, ◌++◌, OnOk, Ok};
ghost use Rattle.fixed_cost.specs.Amount.{amount_of};
ghost use Rattle.fixed_cost.specs.Claim.{high_text, claim_text};
ghost use Rattle.number_words.specs.Cost.{micro_text, decimals_text};

use location_terms::{Claim, MAX_AMOUNT};
use number_words::push_count;
use std::alloc::AllocError;

/// Appends millionths to a text, in units: the whole part without leading zeros, a point, and six
/// digits. So 22,000,000 is `22.000000`.
pub fn push_micro(text: &mut Vec<u8>, micro: u64) -> Result<(), AllocError>
    ensures written { OnOk result (text.new.items ≡ text.old.items ++ micro_text micro) }

    // What is printed of an amount is read back as that amount.
    ensures read_back { micro ≤ MAX_AMOUNT → amount_of (micro_text micro) ≡ Ok micro }
{
    push_count(text, micro / 1_000_000)?;
    text.extend_from_slice(&decimals(micro % 1_000_000))
}

/// Appends a claim to a text: `optimal COST`, `infeasible`, or `bracket LOW HIGH`.
pub fn push_claim(text: &mut Vec<u8>, claim: Claim) -> Result<(), AllocError>
    ensures { OnOk result (text.new.items ≡ text.old.items ++ claim_text claim) }
{
    match claim {
        Claim::Optimal(cost) => {
            text.extend_from_slice(b"optimal ")?;
            push_micro(text, cost)
        }
        Claim::Infeasible => text.extend_from_slice(b"infeasible"),
        Claim::Bracket { low, high } => {
            text.extend_from_slice(b"bracket ")?;
            push_micro(text, low)?;
            text.extend_from_slice(b" ")?;
            push_high(text, high)
        }
    }
}

/// Appends the high end of a bracket to a text, which is `none` where no plan is known.
pub fn push_high(text: &mut Vec<u8>, high: Option<u64>) -> Result<(), AllocError>
    ensures { OnOk result (text.new.items ≡ text.old.items ++ high_text high) }
{
    match high {
        Some(cost) => push_micro(text, cost),
        None => text.extend_from_slice(b"none"),
    }
}

/// A point, and six digits of a number below a million.
fn decimals(n: u64) -> [u8; 7]
    ensures { result ≡ decimals_text n }
{
    [
        b'.',
        digit(n / 100_000),
        digit(n / 10_000),
        digit(n / 1_000),
        digit(n / 100),
        digit(n / 10),
        digit(n),
    ]
}

/// The last digit of a number, as text.
fn digit(n: u64) -> u8
    ensures { result ≡ 48 + n % 10 }
{
    b'0' + (n % 10) as u8
}
