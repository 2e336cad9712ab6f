//! Which leaves of a tree are left when it is carried over to an instance.
ghost use Rattle.std.specs.Prelude.{◌≡◌, cond, filter, length};
ghost use Rattle.location_terms.specs.Instance.{site_ids, customer_ids};
ghost use Rattle.location_terms.specs.Carried.{is_listed};
ghost use Rattle.leaf_book.specs.Kept.{keeps, keeps_step, are_too_many_leaves};

use crate::places::LeafPlace;
use branch_tree::{Decision, MAX_TREE_NUMBERS};
use instance_store::{CustId, Instance, SiteId};

// Whether the carried tree has the leaf to which the path leads.
pub(crate) fn keeps(inst: &Instance, path: &[Decision]) -> bool
    ensures { result ≡ keeps inst.now path.now }
{
    path.iter().all(|step| keeps_step(inst, step))
}

fn keeps_step(inst: &Instance, step: &Decision) -> bool
    ensures { result ≡ keeps_step inst.now step.now }
{
    match step {
        Decision::Opened(site) => has_site(inst, *site),
        Decision::Closed(_) => true,
        Decision::Yes(site, cust) => has_site(inst, *site) && has_cust(inst, *cust),
        Decision::No(_, _) => true,
    }
}

fn has_site(inst: &Instance, site: SiteId) -> bool
    ensures { result ≡ is_listed (site_ids inst.now) site }
{
    inst.site_at(site).is_some()
}

fn has_cust(inst: &Instance, cust: CustId) -> bool
    ensures { result ≡ is_listed (customer_ids inst.now) cust }
{
    inst.cust_at(cust).is_some()
}

// How many of the leaves the carried tree has, before its size is looked at.
pub(crate) fn count_kept(inst: &Instance, places: &[LeafPlace]) -> usize
    ensures { result ≡ length (filter (λ p. keeps inst.now p.path) places.now) }
{
    let mut kept = 0;
    for k in 0..places.len() {
        kept += one_if(keeps(inst, &places[k].path));
    }
    kept
}

fn one_if(yes: bool) -> usize
    ensures { result ≡ cond yes 1 0 }
{
    if yes { 1 } else { 0 }
}

// Whether a tree of so many leaves is too large to be carried over.
pub(crate) fn are_too_many(inst: &Instance, leaves: usize) -> bool
    ensures { result ≡ are_too_many_leaves inst.now leaves }
{
    let numbers = inst.sites() as u64 + inst.custs() as u64;
    let twice = (4 * leaves as u128).saturating_sub(2);
    u128::from(MAX_TREE_NUMBERS / numbers) < twice
}
