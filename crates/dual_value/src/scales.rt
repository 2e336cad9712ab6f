//! Bounds at two scales, compared.
ghost use Rattle.std.specs.Prelude.{◌≡◌, ◌+◌, ◌*◌, ◌^◌, ◌<◌, ◌≤◌, ◌↔◌, IsTrue, unsigned_abs};
ghost use Rattle.location_terms.specs.declared.limits.TheConstants.{MAX_SCALE};
ghost use Rattle.dual_value.specs.Scales.{IsAtLeast, IsGreater};

use crate::bounds::MAX_BOUND;

/// Whether `b / q` is at least `c / r`: a bound at scale `q` against one at scale `r`.
pub fn is_at_least(b: i128, q: u32, c: i128, r: u32) -> bool
    requires first { unsigned_abs b ≤ MAX_BOUND }
    requires first_scaled { 1 ≤ q }
    requires first_scale { q ≤ MAX_SCALE }
    requires second { unsigned_abs c ≤ MAX_BOUND }
    requires second_scaled { 1 ≤ r }
    requires second_scale { r ≤ MAX_SCALE }
    ensures { IsTrue result ↔ IsAtLeast b q c r }
{
    if (b < 0) != (c < 0) {
        return c < 0;
    }
    let first = scaled(b.unsigned_abs(), r);
    let second = scaled(c.unsigned_abs(), q);
    if b < 0 {
        is_within(first, second)
    } else {
        is_within(second, first)
    }
}

/// Whether `b / q` is greater than `c / r`: a bound at scale `q` against one at scale `r`.
pub fn is_greater(b: i128, q: u32, c: i128, r: u32) -> bool
    requires first { unsigned_abs b ≤ MAX_BOUND }
    requires first_scaled { 1 ≤ q }
    requires first_scale { q ≤ MAX_SCALE }
    requires second { unsigned_abs c ≤ MAX_BOUND }
    requires second_scaled { 1 ≤ r }
    requires second_scale { r ≤ MAX_SCALE }
    ensures { IsTrue result ↔ IsGreater b q c r }
{
    !is_at_least(c, r, b, q)
}

// A number of more than 128 bits.
#[derive(Clone, Copy)]
struct Wide {
    // In units of 2^64.
    high: u128,
    // Less than 2^64.
    low: u128,
}

fn scaled(size: u128, scale: u32) -> Wide
    requires size { size ≤ MAX_BOUND }
    requires scale { scale ≤ MAX_SCALE }
    ensures product { result.high * 2 ^ 64 + result.low ≡ scale * size }
    ensures low { result.low < 2 ^ 64 }
{
    let unit = 1 << 64;
    let scale = u128::from(scale);
    let low = size % unit * scale;
    Wide {
        high: size / unit * scale + low / unit,
        low: low % unit,
    }
}

fn is_within(a: Wide, b: Wide) -> bool
    requires first { a.low < 2 ^ 64 }
    requires second { b.low < 2 ^ 64 }
    ensures { IsTrue result ↔ (a.high * 2 ^ 64 + a.low ≤ b.high * 2 ^ 64 + b.low) }
{
    a.high < b.high || (a.high == b.high && a.low <= b.low)
}
