//! The sums of one leaf, which are made anew.
ghost use Rattle.std.specs.Prelude.{◌≡◌, ◌*◌, ◌<◌, ◌≤◌, All, length, map, pos, unsigned_abs, vec_capacity, slice_index_or};
ghost use Rattle.std.specs.List.{range_with_len};
ghost use Rattle.location_terms.specs.Instance.{IsValid, site_at};
ghost use Rattle.location_terms.specs.Bound.{total, slack_of, bound_of};
ghost use Rattle.location_terms.specs.Fit.{DualsFit};
ghost use Rattle.location_terms.specs.declared.limits.TheConstants.{MAX_SITES, MAX_VALUE};
ghost use Rattle.dual_value.specs.Paid.{share_with};
ghost use Rattle.dual_value.specs.declared.bounds.TheConstants.{MAX_SLACK, MAX_BOUND};
ghost use Rattle.leaf_book.specs.Counts.{price_of};

use dual_value::{Decision, DualsByPlace, SiteState, count_price, site_state, slack, value_total};
use instance_store::Instance;

// The slack of each site, in the room that there is.
pub(crate) fn fill_slacks<D: DualsByPlace>(
    inst: &Instance,
    path: &[Decision],
    duals: &D,
    slacks: &mut Vec<i128>,
)
    requires fit { DualsFit inst.now (D.numbers duals.now) }
    requires room { length inst.now.sites ≤ vec_capacity slacks.old }
    ensures exact { slacks.new.items ≡ map (slack_of inst.now path.now (D.numbers duals.now)) (range_with_len 0 (length inst.now.sites)) }
    ensures small { All (λ slack. unsigned_abs slack ≤ MAX_SLACK) slacks.new.items }
    ensures room { vec_capacity slacks.new ≡ vec_capacity slacks.old }
{
    slacks.clear();
    for site in 0..inst.sites() {
        slacks.push_reserved(slack(inst, path, duals, site));
    }
}

// The bound of the box, from the slacks of its sites.
pub(crate) fn bound_from<D: DualsByPlace>(
    inst: &Instance,
    path: &[Decision],
    duals: &D,
    slacks: &[i128],
) -> i128
    requires fit { DualsFit inst.now (D.numbers duals.now) }
    requires slacks { slacks.now ≡ map (slack_of inst.now path.now (D.numbers duals.now)) (range_with_len 0 (length inst.now.sites)) }
    requires small { All (λ slack. unsigned_abs slack ≤ MAX_SLACK) slacks.now }
    ensures exact { result ≡ bound_of inst.now path.now (D.numbers duals.now) }
    ensures small { unsigned_abs result ≤ MAX_BOUND }
{
    let _valid = inst.sites();
    value_total(inst, duals) - count_price(inst, duals.nu()) + share_sum(inst, path, slacks)
}

// What all sites add to the bound.
fn share_sum(inst: &Instance, path: &[Decision], slacks: &[i128]) -> i128
    requires long { length slacks.now ≡ length inst.now.sites }
    requires small { All (λ slack. unsigned_abs slack ≤ MAX_SLACK) slacks.now }
    requires few { length slacks.now ≤ MAX_SITES }
    ensures exact { result ≡ total (λ i. share_with path.now (site_at inst.now i) (slice_index_or slacks.now i (pos 0))) (length slacks.now) }
    ensures small { unsigned_abs result ≤ MAX_SITES * MAX_SLACK }
{
    let mut sum = 0;
    for site in 0..slacks.len() {
        sum += share(inst, path, site, slacks[site]);
    }
    sum
}

// What a site with this slack adds to the bound.
pub(crate) fn share(inst: &Instance, path: &[Decision], site: usize, slack: i128) -> i128
    requires site { site < length inst.now.sites }
    requires small { unsigned_abs slack ≤ MAX_SLACK }
    ensures exact { result ≡ share_with path.now (site_at inst.now site) slack }
    ensures small { unsigned_abs result ≤ MAX_SLACK }
{
    match site_state(inst, path, site) {
        SiteState::Closed => 0,
        SiteState::Opened => slack,
        SiteState::Free => slack.min(0),
    }
}

// What the price on the number of open sites comes to, where that is from `count.0` to `count.1`.
pub(crate) fn price_of(count: (u32, u32), nu: i128) -> i128
    requires low { count.0 ≤ MAX_SITES }
    requires high { count.1 ≤ MAX_SITES }
    requires nu { unsigned_abs nu ≤ MAX_VALUE }
    ensures exact { result ≡ price_of count.0 count.1 nu }
    ensures small { unsigned_abs result ≤ MAX_SITES * MAX_VALUE }
{
    let (lo, hi) = count;
    if nu < 0 {
        nu * i128::from(lo)
    } else {
        nu * i128::from(hi)
    }
}
