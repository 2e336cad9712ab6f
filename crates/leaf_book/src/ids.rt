//! Where the sites and customers of an instance stand among the ids of a tree.
ghost use Rattle.std.specs.Prelude.{◌≡◌, ◌≤◌, length, vec_capacity};
ghost use Rattle.location_terms.specs.Instance.{site_ids, customer_ids};
ghost use Rattle.instance_store.specs.Places.{place_of};
ghost use Rattle.leaf_repair.specs.Placed.{places_of};

use instance_store::{CustId, Instance, SiteId};

// The places of the sites among these ids, in the room that there is.
pub(crate) fn place_sites(places: &mut Vec<Option<usize>>, ids: &[SiteId], inst: &Instance)
    requires { length inst.now.sites ≤ vec_capacity places.old }
    ensures places { places.new.items ≡ places_of ids.now (site_ids inst.now) }
    ensures room { vec_capacity places.new ≡ vec_capacity places.old }
{
    places.clear();
    for site in 0..inst.sites() {
        places.push_reserved(place_of_site(ids, inst.site_id(site)));
    }
}

// The places of the customers among these ids, in the room that there is.
pub(crate) fn place_custs(places: &mut Vec<Option<usize>>, ids: &[CustId], inst: &Instance)
    requires { length inst.now.customers ≤ vec_capacity places.old }
    ensures places { places.new.items ≡ places_of ids.now (customer_ids inst.now) }
    ensures room { vec_capacity places.new ≡ vec_capacity places.old }
{
    places.clear();
    for cust in 0..inst.custs() {
        places.push_reserved(place_of_cust(ids, inst.cust_id(cust)));
    }
}

fn place_of_site(ids: &[SiteId], id: SiteId) -> Option<usize>
    ensures { result ≡ place_of id ids.now }
{
    ids.iter().position(|other| *other == id)
}

fn place_of_cust(ids: &[CustId], id: CustId) -> Option<usize>
    ensures { result ≡ place_of id ids.now }
{
    ids.iter().position(|other| *other == id)
}
