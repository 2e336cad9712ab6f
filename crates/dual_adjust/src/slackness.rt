//! Complementary slackness: the tight sites, and the customers that pay more than one of some sites.
ghost use Rattle.std.specs.Prelude.{◌≡◌, ◌≢◌, ℕ, ◌<◌, ◌≤◌, ◌||◌, ◌&&◌, List, All, AllPairs, IfOk, length, pos, int_le};
ghost use Rattle.std.specs.List.Sorted.{IsStrictlyIncreasing};
ghost use Rattle.location_terms.specs.Instance.{site_at, customer_at, lane};
ghost use Rattle.location_terms.specs.Box.{is_opened, is_free};
ghost use Rattle.location_terms.specs.Fit.{DualsFit};
ghost use Rattle.location_terms.specs.declared.limits.TheConstants.{MAX_AMOUNT};
ghost use Rattle.dual_adjust.specs.Slackness.{tight_sites, is_violating, violations};
ghost use Rattle.dual_adjust.specs.Paid.{is_paid, paid_level, ArePlacesOf};

use dual_value::{Duals, Path, PreparedBox, SiteState, level, slack};
use instance_store::{Instance, NoMemory};
use location_terms::{CustId, SiteId};
use std::alloc::Global;

/// The customers that pay more than one of these sites, in the order of the instance: those whose dual
/// is above the levels of allowed lanes from more than one. Sites that the instance hasn't are passed
/// over. It fails only where memory runs out.
pub fn violations(
    alloc: Global,
    inst: &Instance,
    path: &Path,
    duals: &Duals,
    sites: &[SiteId],
) -> Result<Vec<CustId>, NoMemory>
    requires fit { DualsFit inst.now duals.now }
    requires rising { IsStrictlyIncreasing sites.now }
    ensures { IfOk result (λ custs. custs.items ≡ violations inst.now path.now duals.now sites.now) }
{
    let boxed = PreparedBox::of(alloc, inst, path)?;
    let places = places_of(alloc, inst, sites)?;
    violating(alloc, &boxed, duals, &places)
}

/// The sites that are opened in the box, and those that are free with nothing left of their slack, in
/// the order of the instance. It fails only where memory runs out.
pub fn tight_sites(
    alloc: Global,
    inst: &Instance,
    path: &Path,
    duals: &Duals,
) -> Result<Vec<SiteId>, NoMemory>
    requires { DualsFit inst.now duals.now }
    ensures exact { IfOk result (λ sites. sites.items ≡ tight_sites inst.now path.now duals.now) }
    ensures rising { IfOk result (λ sites. IsStrictlyIncreasing sites.items) }
{
    let boxed = PreparedBox::of(alloc, inst, path)?;
    tight(alloc, &boxed, duals)
}

/// Whether the site at place `site` is tight, where this is its slack.
#[inline(always)]
pub(crate) fn is_tight(boxed: &PreparedBox<'_>, site: usize, slack: i128) -> bool
    requires { site < length boxed.now.instance.sites }
    ensures { result ≡ (is_opened boxed.now.path (site_at boxed.now.instance site) || (is_free boxed.now.path (site_at boxed.now.instance site) && int_le slack (pos 0))) }
{
    match boxed.state(site) {
        SiteState::Opened => true,
        SiteState::Closed => false,
        SiteState::Free => slack <= 0,
    }
}

/// The level of the lane of this cost, where the box allows it and the customer's dual is above.
#[inline(always)]
pub(crate) fn paid_level(
    boxed: &PreparedBox<'_>,
    duals: &Duals,
    site: usize,
    cust: usize,
    cost: u64,
) -> Option<i128>
    requires fit { DualsFit boxed.now.instance duals.now }
    requires site { site < length boxed.now.instance.sites }
    requires customer { cust < length boxed.now.instance.customers }
    requires lane { lane boxed.now.instance (site_at boxed.now.instance site).id (customer_at boxed.now.instance cust).id ≡ Some cost }
    requires small { cost ≤ MAX_AMOUNT }
    ensures { result ≡ paid_level boxed.now.instance boxed.now.path duals.now site cust }
{
    let demand = boxed.instance().demand(cust);
    let level = level(duals.q(), cost, duals.u(site), demand);
    if level >= duals.v(cust) || !boxed.admits(site, cust, demand) {
        return None;
    }
    Some(level)
}

// The customers that pay more than one of the sites at these places.
fn violating(
    alloc: Global,
    boxed: &PreparedBox<'_>,
    duals: &Duals,
    places: &[usize],
) -> Result<Vec<CustId>, NoMemory>
    requires fit { DualsFit boxed.now.instance duals.now }
    requires known { All (λ i. i < length boxed.now.instance.sites) places.now }
    ensures { IfOk result (λ custs. (ids : List ℕ) → ArePlacesOf boxed.now.instance ids places.now → custs.items ≡ violations boxed.now.instance boxed.now.path duals.now ids) }
{
    let inst = boxed.instance();
    let mut custs = Vec::new(alloc);
    for cust in 0..inst.custs() {
        if pays_two(boxed, duals, places, cust) {
            custs.push(inst.cust_id(cust))?;
        }
    }
    Ok(custs)
}

// The tight sites of the box.
fn tight(alloc: Global, boxed: &PreparedBox<'_>, duals: &Duals) -> Result<Vec<SiteId>, NoMemory>
    requires { DualsFit boxed.now.instance duals.now }
    ensures exact { IfOk result (λ sites. sites.items ≡ tight_sites boxed.now.instance boxed.now.path duals.now) }
    ensures rising { IfOk result (λ sites. IsStrictlyIncreasing sites.items) }
{
    let inst = boxed.instance();
    let mut sites = Vec::new(alloc);
    for site in 0..inst.sites() {
        if is_tight(boxed, site, slack(inst, boxed.path(), duals, site)) {
            sites.push(inst.site_id(site))?;
        }
    }
    Ok(sites)
}

// The places of those of the sites that the instance has.
fn places_of(alloc: Global, inst: &Instance, sites: &[SiteId]) -> Result<Vec<usize>, NoMemory>
    requires { IsStrictlyIncreasing sites.now }
    ensures { IfOk result (λ places. ArePlacesOf inst.now sites.now places.items) }
{
    let mut places = Vec::with_capacity(alloc, sites.len().min(inst.sites()))?;
    for site in sites {
        if let Some(place) = inst.site_at(*site) {
            places.push(place)?;
        }
    }
    Ok(places)
}

// Whether the customer pays more than one of the sites at these places.
fn pays_two(boxed: &PreparedBox<'_>, duals: &Duals, places: &[usize], cust: usize) -> bool
    requires fit { DualsFit boxed.now.instance duals.now }
    requires known { All (λ i. i < length boxed.now.instance.sites) places.now }
    requires customer { cust < length boxed.now.instance.customers }
    ensures { (ids : List ℕ) → ArePlacesOf boxed.now.instance ids places.now → result ≡ is_violating boxed.now.instance boxed.now.path duals.now ids cust }
{
    let mut paid = false;
    for site in places {
        if pays(boxed, duals, *site, cust) {
            if paid {
                return true;
            }
            paid = true;
        }
    }
    false
}

// Whether the customer pays the site at place `site`.
fn pays(boxed: &PreparedBox<'_>, duals: &Duals, site: usize, cust: usize) -> bool
    requires fit { DualsFit boxed.now.instance duals.now }
    requires site { site < length boxed.now.instance.sites }
    requires customer { cust < length boxed.now.instance.customers }
    ensures { result ≡ is_paid boxed.now.instance boxed.now.path duals.now site cust }
{
    match boxed.instance().lane(site, cust) {
        None => false,
        Some(cost) => paid_level(boxed, duals, site, cust, cost).is_some(),
    }
}
