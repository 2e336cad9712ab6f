//! The instances that the walk takes.
ghost use Rattle.std.specs.Prelude.{◌<◌, ◌↔◌, length, All, IsTrue, IsSome};
ghost use Rattle.location_terms.specs.Instance.{site_at, lane};
ghost use Rattle.location_terms.specs.Plain.{IsPlain, IsOpenToAll};

use instance_store::{Instance, SiteStatus};

/// Whether each site may be opened and serve every customer, and any number of sites may be open.
pub fn is_plain(inst: &Instance) -> bool
    ensures { IsTrue result ↔ IsPlain inst.now }
{
    let (least, most) = inst.count();
    if least != 0 || inst.sites() > most as usize {
        return false;
    }
    for site in 0..inst.sites() {
        if !is_open_to_all(inst, site) {
            return false;
        }
    }
    true
}

// Whether the site at this place has no capacity, is free and has a lane to each customer.
fn is_open_to_all(inst: &Instance, site: usize) -> bool
    requires { site < length inst.now.sites }
    ensures { IsTrue result ↔ IsOpenToAll inst.now (site_at inst.now site) }
{
    inst.cap(site).is_none() && inst.status(site) == SiteStatus::Free && has_all_lanes(inst, site)
}

// Whether the site at this place has a lane to each customer.
fn has_all_lanes(inst: &Instance, site: usize) -> bool
    requires { site < length inst.now.sites }
    ensures { IsTrue result ↔ All (λ c. IsSome (lane inst.now (site_at inst.now site).id c.id)) inst.now.customers }
{
    let lanes = inst.lanes(site);
    for cust in 0..lanes.len() {
        if lanes.get(cust).is_none() {
            return false;
        }
    }
    true
}
