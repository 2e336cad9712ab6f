//! The customers that a site may serve, as items of a knapsack.
ghost use Rattle.std.specs.Prelude.{◌≡◌, ◌+◌, ◌<◌, ◌≤◌, ◌*◌, ◌++◌, All, IsSome, OnOk, length, pos, ◌≤ℤ◌};
ghost use Rattle.location_terms.specs.Instance.{site_at, customer_at, lane};
ghost use Rattle.location_terms.specs.Fit.{DualsFit};
ghost use Rattle.location_terms.specs.declared.limits.TheConstants.{MAX_AMOUNT, MAX_CUSTOMERS};
ghost use Rattle.location_terms.specs.Knapsack.{surplus_at};
ghost use Rattle.binary_knapsack.specs.Loads.{kept};
ghost use Rattle.binary_knapsack.specs.Site.{items_of};
ghost use Rattle.binary_knapsack.specs.declared.room.TheConstants.{MAX_WORTH};
ghost use Rattle.instance_store.specs.Small.{IsSmall};
ghost use Rattle.leaf_bounds.specs.Gathered.{item_where_allowed};

use binary_knapsack::Item;
use dual_value::{Duals, PreparedBox};
use instance_store::NoMemory;

// Fills in the customers that the box lets the site serve and that pay, as items, in the place of what
// `items` held.
pub(crate) fn gather(
    boxed: &PreparedBox<'_>,
    duals: &Duals,
    site: usize,
    items: &mut Vec<Item>,
) -> Result<(), NoMemory>
    requires fit { DualsFit boxed.now.instance duals.now }
    requires site { site < length boxed.now.instance.sites }
    ensures exact { OnOk result (kept (site_at boxed.now.instance site).cap items.new.items ≡ kept (site_at boxed.now.instance site).cap (items_of boxed.now.instance boxed.now.path duals.now site)) }
    ensures count { OnOk result (length items.new.items ≤ MAX_CUSTOMERS) }
    ensures worths { OnOk result (All (λ x. x.worth ≤ℤ MAX_WORTH) items.new.items) }
{
    let inst = boxed.instance();
    let lanes = inst.lanes(site);
    items.clear();
    for cust in 0..inst.custs() {
        add(boxed, duals, site, cust, lanes.get(cust), items)?;
    }
    Ok(())
}

// Adds a customer, by the lane to it, where it pays and the box lets the site serve it.
#[inline(always)]
fn add(
    boxed: &PreparedBox<'_>,
    duals: &Duals,
    site: usize,
    cust: usize,
    cost: Option<u64>,
    items: &mut Vec<Item>,
) -> Result<(), NoMemory>
    requires fit { DualsFit boxed.now.instance duals.now }
    requires site { site < length boxed.now.instance.sites }
    requires customer { cust < length boxed.now.instance.customers }
    requires lane { cost ≡ lane boxed.now.instance (site_at boxed.now.instance site).id (customer_at boxed.now.instance cust).id }
    requires small { IsSmall cost }
    requires worths { All (λ x. x.worth ≤ℤ MAX_WORTH) items.old.items }
    ensures exact { OnOk result (kept (site_at boxed.now.instance site).cap items.new.items ≡ kept (site_at boxed.now.instance site).cap (items.old.items ++ item_where_allowed boxed.now.instance boxed.now.path site cust (surplus_at boxed.now.instance duals.now site cust))) }
    ensures count { OnOk result (length items.new.items ≤ length items.old.items + 1) }
    ensures worths { OnOk result (All (λ x. x.worth ≤ℤ MAX_WORTH) items.new.items) }
{
    let Some(cost) = cost else {
        return Ok(());
    };
    let worth = duals.v(cust) - times(u64::from(duals.q()), cost);
    if worth <= 0 {
        return Ok(());
    }
    add_paying(boxed, site, cust, worth, items)?;
    Ok(())
}

// Adds a customer of this worth, where the box lets the site serve it.
#[inline(never)]
fn add_paying(
    boxed: &PreparedBox<'_>,
    site: usize,
    cust: usize,
    worth: i128,
    items: &mut Vec<Item>,
) -> Result<(), NoMemory>
    requires site { site < length boxed.now.instance.sites }
    requires customer { cust < length boxed.now.instance.customers }
    requires lane { IsSome (lane boxed.now.instance (site_at boxed.now.instance site).id (customer_at boxed.now.instance cust).id) }
    ensures { OnOk result (items.new.items ≡ items.old.items ++ item_where_allowed boxed.now.instance boxed.now.path site cust worth) }
{
    let weight = boxed.instance().demand(cust);
    if boxed.admits(site, cust, weight) {
        items.push(Item { weight, worth })?;
    }
    Ok(())
}

#[inline(always)]
pub(crate) fn times(factor: u64, amount: u64) -> i128
    requires { amount ≤ MAX_AMOUNT }
    ensures { result ≡ pos (factor * amount) }
{
    i128::from(factor) * i128::from(amount)
}
