//! Duals that are near fractions of a unit, put onto them.
ghost use Rattle.std.specs.Prelude.{◌≡◌, ◌<◌, length};

use crate::customer::Customer;

/// Keeps the best duals aside.
pub(crate) fn set_aside(customers: &mut [Customer])
    ensures { length customers.new ≡ length customers.old }
{
    for j in 0..customers.len() {
        customers[j].kept = customers[j].best;
    }
}

/// Lets the duals be those set aside, each put onto the nearest multiple of `unit` where that is at most
/// `reach` away. The unit is above 0.
pub(crate) fn snap_to(customers: &mut [Customer], unit: f64, reach: f64)
    ensures { length customers.new ≡ length customers.old }
{
    for j in 0..customers.len() {
        customers[j].value = snapped(customers[j].kept, unit, reach);
    }
}

fn snapped(x: f64, unit: f64, reach: f64) -> f64 {
    let near = (x / unit).round() * unit;
    if (near - x).abs() <= reach { near } else { x }
}
