//! Whether an instance accepts an edit.
ghost use Rattle.std.specs.Prelude.{◌≡◌, ◌≢◌, ◌≤◌, ◌||◌, find, length, nat_lt, IfErr};
ghost use Rattle.location_terms.specs.Instance.{IsValid};
ghost use Rattle.instance_edits.specs.declared.edit.EditFault.TheVariants.{NoSite, NoCustomer, NoMemory as is_out_of_memory};
ghost use Rattle.instance_edits.specs.Edits.{lacks_site, lacks_customer, are_too_many, are_ids_spent, faults_of, answer_to, allowed};

use crate::{CustId, Edit, EditFault, Instance, SiteId};
use location_terms::{MAX_CUSTOMERS, MAX_ID, MAX_LANES, MAX_SITES};

/// Whether the instance accepts the edit, or the first fault for which it is refused. It takes no
/// memory, and never answers `NoMemory`.
pub fn allows(inst: &Instance, edit: &Edit) -> Result<(), EditFault>
    ensures answer { result ≡ allowed inst.now edit.now }
    ensures memory { IfErr result (λ fault. fault ≢ is_out_of_memory) }
    ensures valid { IsValid inst.now }
{
    let (sites, custs) = (inst.sites(), inst.custs());
    refusal(inst, sites, custs, edit)
}

// The first fault of the edit of an instance with so many sites and customers.
fn refusal(inst: &Instance, sites: usize, custs: usize, edit: &Edit) -> Result<(), EditFault>
    requires sites { sites ≡ length inst.now.sites }
    requires customers { custs ≡ length inst.now.customers }
    requires valid { IsValid inst.now }
    ensures { result ≡ answer_to (find (λ fault. fault.0) (faults_of inst.now edit.now)) }
{
    match edit {
        Edit::SetFixed { site, .. } => first_of(&[no_site(inst, *site)]),
        Edit::SetLane { site, cust, .. } => first_of(&[no_site(inst, *site), no_cust(inst, *cust)]),
        Edit::SetDemand { cust, .. } => first_of(&[no_cust(inst, *cust)]),
        Edit::SetCap { site, .. } => first_of(&[no_site(inst, *site)]),
        Edit::SetCount { lo, hi } => first_of(&[(is_bad_count(*lo, *hi), EditFault::BadCount)]),
        Edit::AddSite { lanes, .. } => first_of(&[
            (lanes.len() != custs, EditFault::LaneCount),
            (are_too_many(sites + 1, custs), EditFault::TooMany),
            (are_ids_spent(inst.next_ids().0), EditFault::IdsSpent),
        ]),
        Edit::AddCust { lanes, .. } => first_of(&[
            (lanes.len() != sites, EditFault::LaneCount),
            (are_too_many(sites, custs + 1), EditFault::TooMany),
            (are_ids_spent(inst.next_ids().1), EditFault::IdsSpent),
        ]),
        Edit::DropSite { site } => {
            first_of(&[no_site(inst, *site), (sites == 1, EditFault::LastOne)])
        }
        Edit::DropCust { cust } => {
            first_of(&[no_cust(inst, *cust), (custs == 1, EditFault::LastOne)])
        }
        Edit::SetStatus { site, .. } => first_of(&[no_site(inst, *site)]),
    }
}

// The first of the faults that is there.
fn first_of(faults: &[(bool, EditFault)]) -> Result<(), EditFault>
    ensures { result ≡ answer_to (find (λ fault. fault.0) faults.now) }
{
    for fault in faults {
        if fault.0 {
            return Err(fault.1);
        }
    }
    Ok(())
}

fn no_site(inst: &Instance, site: SiteId) -> (bool, EditFault)
    ensures { result ≡ (lacks_site inst.now site, NoSite) }
{
    (inst.site_at(site).is_none(), EditFault::NoSite)
}

fn no_cust(inst: &Instance, cust: CustId) -> (bool, EditFault)
    ensures { result ≡ (lacks_customer inst.now cust, NoCustomer) }
{
    (inst.cust_at(cust).is_none(), EditFault::NoCustomer)
}

fn is_bad_count(lo: u32, hi: u32) -> bool
    ensures { result ≡ (nat_lt hi lo || nat_lt MAX_SITES hi) }
{
    hi < lo || hi as usize > MAX_SITES
}

// Whether a limit is passed by so many sites and customers.
fn are_too_many(sites: usize, custs: usize) -> bool
    ensures { result ≡ are_too_many sites custs }
{
    sites > MAX_SITES || custs > MAX_CUSTOMERS || sites * custs > MAX_LANES
}

// Whether no id is left, since the next one is past the last.
fn are_ids_spent(next: u32) -> bool
    ensures { result ≡ are_ids_spent next }
{
    next == MAX_ID + 1
}
