//! Which items may pay.
ghost use Rattle.std.specs.Prelude.{◌≡◌, OnOk};
ghost use Rattle.location_terms.specs.Box.{holds_demand};
ghost use Rattle.binary_knapsack.specs.Loads.{may_pay, as_load, kept};

use crate::item::{Item, Load};
use instance_store::NoMemory;

// The items that may pay, in the place of what `loads` held.
pub(crate) fn keep(items: &[Item], cap: Option<u64>, loads: &mut Vec<Load>) -> Result<(), NoMemory>
    ensures { OnOk result (loads.new.items ≡ kept cap items.now) }
{
    loads.clear();
    for item in items {
        if may_pay(item, cap) {
            loads.push(as_load(item))?;
        }
    }
    Ok(())
}

fn as_load(item: &Item) -> Load
    ensures { result ≡ as_load item.now }
{
    Load {
        weight: item.weight,
        worth: item.worth.unsigned_abs(),
    }
}

fn may_pay(item: &Item, cap: Option<u64>) -> bool
    ensures { result ≡ may_pay cap item.now }
{
    item.worth > 0 && holds(cap, item.weight)
}

fn holds(cap: Option<u64>, weight: u64) -> bool
    ensures { result ≡ holds_demand cap weight }
{
    match cap {
        None => true,
        Some(cap) => weight <= cap,
    }
}
