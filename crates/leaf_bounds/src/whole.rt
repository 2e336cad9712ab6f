//! The slacks of sites by whole knapsacks, and what they add to the bound of a box.
ghost use Rattle.std.specs.Prelude.{◌≡◌, ◌<◌, ◌≤◌, ◌*◌, IfOk, length, pos, ◌+ℤ◌, ◌≤ℤ◌, unsigned_abs};
ghost use Rattle.std.specs.Int.{int_max, int_min};
ghost use Rattle.location_terms.specs.Instance.{site_at};
ghost use Rattle.location_terms.specs.Bound.{total};
ghost use Rattle.location_terms.specs.Fit.{DualsFit};
ghost use Rattle.location_terms.specs.Knapsack.{best_set};
ghost use Rattle.location_terms.specs.Leaf.{slack_in, share_in, bound_in};
ghost use Rattle.location_terms.specs.declared.form.LeafForm.TheVariants.{Whole};
ghost use Rattle.location_terms.specs.declared.limits.TheConstants.{MAX_SITES, MAX_VALUE};
ghost use Rattle.dual_value.specs.declared.bounds.TheConstants.{MAX_BOUND, MAX_SLACK};
ghost use Rattle.binary_knapsack.specs.declared.room.TheConstants.{MAX_TOTAL};

use crate::gathering::{gather, times};
use binary_knapsack::{Item, KnapsackRoom};
use dual_value::{Duals, PreparedBox, SiteState, count_price, value_total};
use instance_store::NoMemory;
use std::alloc::Global;

// Room for the customers that a site may serve, and for the search of the best set of them.
#[derive(Drop)]
pub(crate) struct WholeRoom {
    items: Vec<Item>,
    knapsack: KnapsackRoom,
}

impl WholeRoom {
    // Room that holds nothing yet.
    pub(crate) fn new(alloc: Global) -> WholeRoom {
        WholeRoom {
            items: Vec::new(alloc),
            knapsack: KnapsackRoom::new(alloc),
        }
    }
}

// The bound of the box by whole knapsacks.
pub(crate) fn whole_bound(
    boxed: &PreparedBox<'_>,
    duals: &Duals,
    room: &mut WholeRoom,
) -> Result<i128, NoMemory>
    requires { DualsFit boxed.now.instance duals.now }
    ensures exact { IfOk result (λ bound. bound ≡ bound_in Whole boxed.now.instance boxed.now.path duals.now) }
    ensures small { IfOk result (λ bound. unsigned_abs bound ≤ MAX_BOUND) }
{
    let inst = boxed.instance();
    let _valid = inst.sites();
    let shares = share_total(boxed, duals, room)?;
    Ok(value_total(inst, duals) - count_price(inst, duals.nu()) + shares)
}

// What all sites add to the bound.
fn share_total(
    boxed: &PreparedBox<'_>,
    duals: &Duals,
    room: &mut WholeRoom,
) -> Result<i128, NoMemory>
    requires { DualsFit boxed.now.instance duals.now }
    ensures exact { IfOk result (λ sum. sum ≡ total (share_in Whole boxed.now.instance boxed.now.path duals.now) (length boxed.now.instance.sites)) }
    ensures small { IfOk result (λ sum. unsigned_abs sum ≤ MAX_SITES * MAX_SLACK) }
{
    let mut sum = 0;
    for site in 0..boxed.instance().sites() {
        sum += share(boxed, duals, site, room)?;
    }
    Ok(sum)
}

fn share(
    boxed: &PreparedBox<'_>,
    duals: &Duals,
    site: usize,
    room: &mut WholeRoom,
) -> Result<i128, NoMemory>
    requires fit { DualsFit boxed.now.instance duals.now }
    requires site { site < length boxed.now.instance.sites }
    ensures exact { IfOk result (λ share. share ≡ share_in Whole boxed.now.instance boxed.now.path duals.now site) }
    ensures small { IfOk result (λ share. unsigned_abs share ≤ MAX_SLACK) }
{
    match boxed.state(site) {
        SiteState::Closed => Ok(0),
        SiteState::Opened => slack(boxed, duals, site, room),
        SiteState::Free => slack_below_zero(boxed, duals, site, room),
    }
}

// What is left of the site's scaled fixed cost.
fn slack(
    boxed: &PreparedBox<'_>,
    duals: &Duals,
    site: usize,
    room: &mut WholeRoom,
) -> Result<i128, NoMemory>
    requires fit { DualsFit boxed.now.instance duals.now }
    requires site { site < length boxed.now.instance.sites }
    ensures exact { IfOk result (λ slack. slack ≡ slack_in Whole boxed.now.instance boxed.now.path duals.now site) }
    ensures small { IfOk result (λ slack. unsigned_abs slack ≤ MAX_SLACK) }
{
    let best = best_set(boxed, duals, site, 0, room)?;
    Ok(scaled_cost(boxed, duals, site) - best)
}

// The same, or 0 where it is above that.
fn slack_below_zero(
    boxed: &PreparedBox<'_>,
    duals: &Duals,
    site: usize,
    room: &mut WholeRoom,
) -> Result<i128, NoMemory>
    requires fit { DualsFit boxed.now.instance duals.now }
    requires site { site < length boxed.now.instance.sites }
    ensures exact { IfOk result (λ slack. slack ≡ int_min (pos 0) (slack_in Whole boxed.now.instance boxed.now.path duals.now site)) }
    ensures small { IfOk result (λ slack. unsigned_abs slack ≤ MAX_SLACK) }
{
    let cost = scaled_cost(boxed, duals, site);
    let best = best_set(boxed, duals, site, cost, room)?;
    Ok(cost - best)
}

// The scaled fixed cost of the site with the price on the number of sites.
fn scaled_cost(boxed: &PreparedBox<'_>, duals: &Duals, site: usize) -> i128
    requires fit { DualsFit boxed.now.instance duals.now }
    requires site { site < length boxed.now.instance.sites }
    ensures exact { result ≡ pos (duals.now.q * (site_at boxed.now.instance site).fixed) +ℤ duals.now.nu }
    ensures small { unsigned_abs result ≤ 2 * MAX_VALUE }
{
    let fixed = boxed.instance().fixed(site);
    times(u64::from(duals.q()), fixed) + duals.nu()
}

// The greatest worth of a set of customers that the site may serve together, or `least` where that is
// greater.
fn best_set(
    boxed: &PreparedBox<'_>,
    duals: &Duals,
    site: usize,
    least: i128,
    room: &mut WholeRoom,
) -> Result<i128, NoMemory>
    requires fit { DualsFit boxed.now.instance duals.now }
    requires site { site < length boxed.now.instance.sites }
    requires least { least ≤ℤ MAX_TOTAL }
    ensures exact { IfOk result (λ best. best ≡ int_max least (best_set boxed.now.instance boxed.now.path duals.now site)) }
    ensures some { pos 0 ≤ℤ best_set boxed.now.instance boxed.now.path duals.now site }
    ensures low { IfOk result (λ best. pos 0 ≤ℤ best) }
    ensures high { IfOk result (λ best. best ≤ℤ MAX_TOTAL) }
{
    gather(boxed, duals, site, &mut room.items)?;
    let cap = boxed.instance().cap(site);
    let best = room.knapsack.best_worth_from(&room.items, cap, least)?;
    Ok(best)
}
