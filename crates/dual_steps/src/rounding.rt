//! Duals as whole numbers, and back.
ghost use Rattle.std.specs.Prelude.{◌≡◌, ◌<◌, length};

use crate::customer::Customer;
use std::num::{nearest_i64_to_f64, nearest_u64_to_f64, saturating_f64_to_i64};

/// Takes these numbers, of which `scale` are a millionth, as the duals that are evaluated.
pub fn take_values(values: &[i128], scale: u32, customers: &mut [Customer])
    ensures { length customers.new ≡ length customers.old }
{
    for j in 0..customers.len() {
        if j < values.len() {
            customers[j].value = in_millionths(values[j], scale);
        }
    }
}

fn in_millionths(value: i128, scale: u32) -> f64 {
    if scale == 0 {
        return 0.0;
    }
    let scale = i128::from(scale);
    let whole = whole_float(value / scale);
    let rest = whole_float(value % scale);
    whole + rest / whole_float(scale)
}

fn whole_float(value: i128) -> f64 {
    nearest_i64_to_f64(i64::try_from(value).unwrap_or(0))
}

/// Rounds the best duals to whole numbers, of which `scale` are a millionth.
pub fn fill_rounded(customers: &[Customer], scale: u32, rounded: &mut [i64])
    requires { length customers.now ≡ length rounded.old }
    ensures { length rounded.new ≡ length rounded.old }
{
    for j in 0..rounded.len() {
        rounded[j] = nearest_whole(customers[j].best, scale);
    }
}

/// Takes rounded duals, of which `scale` are a millionth, as those that are evaluated.
pub(crate) fn take_rounded(rounded: &[i64], scale: u32, customers: &mut [Customer])
    requires { length customers.old ≡ length rounded.now }
    ensures { length customers.new ≡ length customers.old }
{
    let parts = nearest_u64_to_f64(u64::from(scale.max(1)));
    for j in 0..customers.len() {
        customers[j].value = nearest_i64_to_f64(rounded[j]) / parts;
    }
}

/// The whole number nearest to a number of millionths, where `scale` of them are a millionth.
pub fn nearest_whole(x: f64, scale: u32) -> i64 {
    saturating_f64_to_i64((x * nearest_u64_to_f64(u64::from(scale))).round())
}
