//! The edits by which a site or a customer comes or goes, and what takes each one back.
ghost use Rattle.std.specs.Prelude.{◌≡◌, ◌≢◌, ◌≤◌, ◌<◌, ◌+◌, false, length, IfOk, OnOk, OnErr};
ghost use Rattle.location_terms.specs.Instance.{IsValid, site_at, customer_at};
ghost use Rattle.instance_store.specs.Small.{IsSmall, AreSmall};
ghost use Rattle.instance_store.specs.Changes.{without_site, without_customer};
ghost use Rattle.instance_edits.specs.declared.edit.Edit.TheVariants.{DropSite, DropCust};
ghost use Rattle.instance_edits.specs.declared.edit.Inverse.TheVariants.{AddedSite, AddedCust};
ghost use Rattle.instance_edits.specs.Edits.{lacks_site, lacks_customer, with_new_site, with_new_customer, are_too_many, are_ids_spent};
ghost use Rattle.instance_edits.specs.Ready.{CanLoseSite, CanLoseCustomer};
ghost use Rattle.instance_edits.specs.Undo.{inverse_of, put_back};

use crate::values::{place_of_cust, place_of_site};
use crate::{CustId, CustRow, Instance, Inverse, LaneRow, NoMemory, SiteId, SiteRow, SiteStatus};
use location_terms::MAX_AMOUNT;
use std::alloc::Global;

pub fn add_site(
    alloc: Global,
    inst: &mut Instance,
    cost: u64,
    cap: Option<u64>,
    lanes: &LaneRow,
) -> Result<Inverse, NoMemory>
    requires valid { IsValid inst.old }
    requires cost { cost ≤ MAX_AMOUNT }
    requires cap { IsSmall cap }
    requires small { AreSmall lanes.now }
    requires lanes { length lanes.now ≡ length inst.old.customers }
    requires room { are_too_many (length inst.old.sites + 1) (length inst.old.customers) ≡ false }
    requires ids { are_ids_spent inst.old.next_site ≡ false }
    ensures changed { OnOk result (inst.new ≡ with_new_site inst.old cost cap lanes.now) }
    ensures inverse { IfOk result (λ back. back ≡ AddedSite inst.old.next_site) }
    ensures kept { OnErr result (inst.new ≡ inst.old) }
{
    let lanes = lanes.copied(alloc)?;
    let (id, next_cust) = inst.next_ids();
    let row = SiteRow {
        id: SiteId::new(id),
        fixed: cost,
        cap,
        lanes,
    };
    let place = inst.sites();
    inst.set_next_ids(id + 1, next_cust);
    if inst.insert_site(place, row, SiteStatus::Free).is_err() {
        inst.set_next_ids(id, next_cust);
        return Err(NoMemory);
    }
    Ok(Inverse::AddedSite {
        site: SiteId::new(id),
    })
}

pub fn add_cust(inst: &mut Instance, demand: u64, lanes: &LaneRow) -> Result<Inverse, NoMemory>
    requires valid { IsValid inst.old }
    requires demand { demand ≤ MAX_AMOUNT }
    requires small { AreSmall lanes.now }
    requires lanes { length lanes.now ≡ length inst.old.sites }
    requires room { are_too_many (length inst.old.sites) (length inst.old.customers + 1) ≡ false }
    requires ids { are_ids_spent inst.old.next_customer ≡ false }
    ensures changed { OnOk result (inst.new ≡ with_new_customer inst.old demand lanes.now) }
    ensures inverse { IfOk result (λ back. back ≡ AddedCust inst.old.next_customer) }
    ensures kept { OnErr result (inst.new ≡ inst.old) }
{
    let (next_site, id) = inst.next_ids();
    let row = CustRow {
        id: CustId::new(id),
        demand,
    };
    let place = inst.custs();
    inst.set_next_ids(next_site, id + 1);
    if inst.insert_cust(place, row, lanes).is_err() {
        inst.set_next_ids(next_site, id);
        return Err(NoMemory);
    }
    Ok(Inverse::AddedCust {
        cust: CustId::new(id),
    })
}

pub fn drop_site(inst: &mut Instance, site: SiteId) -> Inverse
    requires valid { IsValid inst.old }
    requires known { lacks_site inst.old site ≡ false }
    requires others { length inst.old.sites ≢ 1 }
    ensures changed { inst.new ≡ without_site inst.old site }
    ensures inverse { result ≡ inverse_of inst.old (DropSite site) }
{
    let place = place_of_site(inst, site);
    let (row, status) = inst.remove_site(place);
    Inverse::DroppedSite { place, row, status }
}

pub fn drop_cust(alloc: Global, inst: &mut Instance, cust: CustId) -> Result<Inverse, NoMemory>
    requires valid { IsValid inst.old }
    requires known { lacks_customer inst.old cust ≡ false }
    requires others { length inst.old.customers ≢ 1 }
    ensures changed { OnOk result (inst.new ≡ without_customer inst.old cust) }
    ensures inverse { IfOk result (λ back. back ≡ inverse_of inst.old (DropCust cust)) }
    ensures kept { OnErr result (inst.new ≡ inst.old) }
{
    let place = place_of_cust(inst, cust);
    let (row, lanes) = inst.remove_cust(alloc, place)?;
    Ok(Inverse::DroppedCust { place, row, lanes })
}

/// Takes the site at place `last` out for good, where it came last and got the id before the next one.
pub fn remove_last_site(inst: &mut Instance, last: usize)
    requires valid { IsValid inst.old }
    requires place { last < length inst.old.sites }
    requires lose { CanLoseSite inst.old (site_at inst.old last).id }
    ensures { inst.new ≡ put_back inst.old (AddedSite (site_at inst.old last).id) }
{
    inst.remove_site(last);
    let (next_site, next_cust) = inst.next_ids();
    inst.set_next_ids(next_site - 1, next_cust);
}

/// Takes the customer at place `last` out for good, who came last and got the id before the next one.
pub fn remove_last_cust(inst: &mut Instance, last: usize)
    requires valid { IsValid inst.old }
    requires place { last < length inst.old.customers }
    requires lose { CanLoseCustomer inst.old (customer_at inst.old last).id }
    ensures { inst.new ≡ put_back inst.old (AddedCust (customer_at inst.old last).id) }
{
    inst.take_cust(last);
    let (next_site, next_cust) = inst.next_ids();
    inst.set_next_ids(next_site, next_cust - 1);
}
