//! Whether a path is one of an instance.
ghost use Rattle.std.specs.Prelude.{◌↔◌, Contains, IsTrue};
ghost use Rattle.location_terms.specs.Instance.{site_ids, customer_ids};
ghost use Rattle.plan_search.specs.InBox.{NamesKnown, IsPathOf};

use dual_value::{Decision, Path};
use instance_store::{CustId, Instance, SiteId};

/// Whether the path names ids of the instance alone.
pub fn is_path_of(inst: &Instance, path: &Path) -> bool
    ensures { IsTrue result ↔ IsPathOf inst.now path.now }
{
    path.as_slice().iter().all(|step| names_known(inst, step))
}

fn names_known(inst: &Instance, step: &Decision) -> bool
    ensures { IsTrue result ↔ NamesKnown inst.now step.now }
{
    match step {
        Decision::Opened(site) | Decision::Closed(site) => knows_site(inst, *site),
        Decision::Yes(site, cust) | Decision::No(site, cust) => {
            knows_site(inst, *site) && knows_customer(inst, *cust)
        }
    }
}

fn knows_site(inst: &Instance, site: SiteId) -> bool
    ensures { IsTrue result ↔ Contains (site_ids inst.now) site }
{
    inst.site_at(site).is_some()
}

fn knows_customer(inst: &Instance, cust: CustId) -> bool
    ensures { IsTrue result ↔ Contains (customer_ids inst.now) cust }
{
    inst.cust_at(cust).is_some()
}
