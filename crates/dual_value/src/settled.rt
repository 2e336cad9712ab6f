//! What a path settles of the sites and lanes of an instance.
ghost use Rattle.std.specs.Prelude.{◌≡◌, ℕ, ◌<◌, ◌&&◌, not, false, length, IsTrue};
ghost use Rattle.std.specs.Bool.{OnFalse};
ghost use Rattle.std.specs.List.{list_any};
ghost use Rattle.location_terms.specs.Instance.{IsValid, site_at, customer_at};
ghost use Rattle.location_terms.specs.Box.{closes_site, opens_site, bars_lane, is_closed, is_called_for, is_torn, is_allowed, holds_demand};
ghost use Rattle.dual_value.specs.SiteState.{IsState, LeavesWhole};
ghost use Rattle.dual_value.specs.Lanes.{named_site};

use instance_store::{CustId, Instance, SiteId};
use location_terms::Decision;

/// What a path and the status of a site settle of it.
#[derive(Clone, Copy, Debug, PartialEq, Eq)]
pub enum SiteState {
    /// The site is called for, by its status or by a step, and not closed.
    Opened,
    /// The site is closed, by its status or by a step.
    Closed,
    /// Nothing is settled.
    Free,
}

/// What the path settles of the site at place `site`.
pub fn site_state(inst: &Instance, path: &[Decision], site: usize) -> SiteState
    requires { site < length inst.now.sites }
    ensures { IsState path.now (site_at inst.now site) result }
{
    if is_closed(inst, path, site) {
        SiteState::Closed
    } else if is_called_for(inst, path, site) {
        SiteState::Opened
    } else {
        SiteState::Free
    }
}

/// Whether the path lets the site at place `site` serve the customer at place `cust`.
pub fn allowed(inst: &Instance, path: &[Decision], site: usize, cust: usize) -> bool
    requires site { site < length inst.now.sites }
    requires customer { cust < length inst.now.customers }
    ensures { result ≡ is_allowed inst.now path.now (site_at inst.now site) (customer_at inst.now cust) }
{
    inst.lane(site, cust).is_some()
        && !is_torn(inst, path)
        && !is_closed(inst, path, site)
        && is_unbarred(inst, path, site, cust)
}

/// Whether some site is both called for and closed, so that no feasible plan keeps to the path.
pub fn is_torn(inst: &Instance, path: &[Decision]) -> bool
    ensures exact { result ≡ is_torn inst.now path.now }
    ensures valid { IsValid inst.now }
{
    // An instance is valid, so that an id stands at one place.
    let _sites = inst.sites();
    for step in path {
        if is_torn_by(inst, path, step) {
            return true;
        }
    }
    false
}

// Whether the site that the step names is in the instance, called for and closed.
fn is_torn_by(inst: &Instance, path: &[Decision], step: &Decision) -> bool
    requires { IsValid inst.now }
    ensures torn { IsTrue result → IsTrue (is_torn inst.now path.now) }
    ensures whole { OnFalse result (LeavesWhole inst.now path.now step.now) }
{
    let Some(site) = named_site(step) else {
        return false;
    };
    match inst.site_at(site) {
        None => false,
        Some(i) => is_called_for(inst, path, i) && is_closed(inst, path, i),
    }
}

// The site that the step opens or closes.
pub(crate) fn named_site(step: &Decision) -> Option<SiteId>
    ensures { result ≡ named_site step.now }
{
    match step {
        Decision::Opened(site) | Decision::Closed(site) | Decision::Yes(site, _) => Some(*site),
        Decision::No(_, _) => None,
    }
}

// Whether the lane, if there is one, is left by the steps on lanes and carries the customer's
// demand.
pub(crate) fn is_unbarred(inst: &Instance, path: &[Decision], site: usize, cust: usize) -> bool
    requires site { site < length inst.now.sites }
    requires customer { cust < length inst.now.customers }
    ensures { result ≡ (not (list_any (bars_lane (site_at inst.now site).id (customer_at inst.now cust).id) path.now) && holds_demand (site_at inst.now site).cap (customer_at inst.now cust).demand) }
{
    if is_barred(path, inst.site_id(site), inst.cust_id(cust)) {
        return false;
    }
    match inst.cap(site) {
        None => true,
        Some(cap) => inst.demand(cust) <= cap,
    }
}

fn is_barred(path: &[Decision], site: SiteId, cust: CustId) -> bool
    ensures { result ≡ list_any (bars_lane site cust) path.now }
{
    path.iter().any(|step| bars_lane(site, cust, step))
}

pub(crate) fn is_closed(inst: &Instance, path: &[Decision], site: usize) -> bool
    requires { site < length inst.now.sites }
    ensures { result ≡ is_closed path.now (site_at inst.now site) }
{
    inst.status(site).must_close() || has_closed(path, inst.site_id(site))
}

fn is_called_for(inst: &Instance, path: &[Decision], site: usize) -> bool
    requires { site < length inst.now.sites }
    ensures { result ≡ is_called_for path.now (site_at inst.now site) }
{
    inst.status(site).must_open() || has_opened(path, inst.site_id(site))
}

fn has_closed(path: &[Decision], site: SiteId) -> bool
    ensures { result ≡ list_any (closes_site site) path.now }
{
    path.iter().any(|step| closes_site(site, step))
}

fn has_opened(path: &[Decision], site: SiteId) -> bool
    ensures { result ≡ list_any (opens_site site) path.now }
{
    path.iter().any(|step| opens_site(site, step))
}

fn closes_site(site: SiteId, step: &Decision) -> bool
    ensures { result ≡ closes_site site step.now }
{
    match step {
        Decision::Closed(other) => site == *other,
        _ => false,
    }
}

fn opens_site(site: SiteId, step: &Decision) -> bool
    ensures { result ≡ opens_site site step.now }
{
    match step {
        Decision::Opened(other) | Decision::Yes(other, _) => site == *other,
        _ => false,
    }
}

pub(crate) fn bars_lane(site: SiteId, cust: CustId, step: &Decision) -> bool
    ensures { result ≡ bars_lane site cust step.now }
{
    match step {
        Decision::No(other, barred) => site == *other && cust == *barred,
        Decision::Yes(other, served) => site != *other && cust == *served,
        _ => false,
    }
}
