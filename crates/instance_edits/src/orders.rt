//! The order of an instance's lanes, while edits change the instance and are taken back.
ghost use Rattle.std.specs.Prelude.{◌≡◌, ◌⊎◌, ◌+◌, ◌-◌, ◌<◌, ◌≤◌, false, length, Some, Ok, Err, IfOk, IfErr, OnOk, OnErr};
ghost use Rattle.location_terms.specs.Instance.{Instance as Meaning, IsValid, site_at, customer_at};
ghost use Rattle.instance_store.specs.Changes.{with_lane_cost, with_site_in, with_customer_in};
ghost use Rattle.lane_order.specs.Order.{IsOrderOf};
ghost use Rattle.instance_edits.specs.declared.edit.EditFault.TheVariants.{NoMemory as is_out_of_memory};
ghost use Rattle.instance_edits.specs.declared.edit.Inverse.TheVariants.{AddedSite, AddedCust};
ghost use Rattle.instance_edits.specs.Edits.{Accepts, HasAmounts, TakesMemory, lacks_site, lacks_customer, edited};
ghost use Rattle.instance_edits.specs.Ready.{IsReadyFor};
ghost use Rattle.instance_edits.specs.Undo.{inverse_of, put_back, undone, LeadsBack, BringsBack};

use crate::applying::apply;
use crate::undoing::{UndoFault, undo};
use crate::values::{place_of_cust, place_of_site};
use crate::{
    CustId, CustRow, Edit, EditFault, Instance, Inverse, LaneRow, NoMemory, SiteId, SiteRow,
    SiteStatus,
};
use lane_order::LaneOrder;
use std::alloc::Global;

/// Makes room in an order for one more edit, or for taking one back: the order follows it without
/// memory. It stays the order of the same instance. It fails only where memory runs out.
pub fn make_room(order: &mut LaneOrder) -> Result<(), NoMemory>
    ensures same { (I : Meaning) → IsOrderOf order.old I → IsOrderOf order.new I }
    ensures room { OnOk result (0 < order.new.spare) }
{
    order.reserve(1)
}

/// Changes the instance by the edit as `apply` does, and the order of its lanes with it. Room has to be
/// made in the order before. Where the edit is refused, or memory runs out, both are as before.
pub fn apply_in_order(
    alloc: Global,
    order: &mut LaneOrder,
    inst: &mut Instance,
    edit: &Edit,
) -> Result<Inverse, EditFault>
    requires amounts { HasAmounts edit.now }
    requires order { IsOrderOf order.old inst.old }
    requires room { 0 < order.old.spare }
    ensures made { OnOk result (edited inst.old edit.now ≡ Ok inst.new) }
    ensures inverse { IfOk result (λ back. back ≡ inverse_of inst.old edit.now) }
    ensures back { IfOk result (λ back. undone inst.new back ≡ Some inst.old) }
    ensures kept { OnErr result (inst.new ≡ inst.old) }
    ensures cause { IfErr result (λ fault. (edited inst.old edit.now ≡ Err fault) ⊎ (Accepts inst.old edit.now × TakesMemory edit.now × (fault ≡ is_out_of_memory))) }
    ensures order { IsOrderOf order.new inst.new }
    ensures same { OnErr result (order.new ≡ order.old) }
{
    // An instance is valid, so that taking the edit back leads to a valid one.
    let _sites = inst.sites();
    let back = apply(alloc, inst, edit)?;
    lead_on(order, inst, edit, &back);
    Ok(back)
}

/// Takes an edit back as `undo` does, and leads the order of the instance's lanes back with it. Room has
/// to be made in the order before. Where memory runs out, the instance is as before, and it is still
/// its order.
pub fn undo_in_order(
    order: &mut LaneOrder,
    inst: &mut Instance,
    back: Inverse,
) -> Result<(), UndoFault>
    requires leads { LeadsBack inst.old back }
    requires order { IsOrderOf order.old inst.old }
    requires room { 0 < order.old.spare }
    ensures undone { OnOk result (undone inst.old back ≡ Some inst.new) }
    ensures kept { OnErr result (inst.new ≡ inst.old) }
    ensures handed_back { IfErr result (λ fault. fault.back ≡ back) }
    ensures room { OnErr result (BringsBack back) }
    ensures order { IsOrderOf order.new inst.new }
{
    lead_back(order, inst, &back);
    match undo(inst, back) {
        Ok(()) => Ok(()),
        Err(fault) => {
            stay(order, inst, &fault.back);
            Err(fault)
        }
    }
}

// The order of the instance to which `back` leads, where what went would come again, becomes that of the
// instance.
fn stay(order: &mut LaneOrder, inst: &Instance, back: &Inverse)
    requires leads { LeadsBack inst.now back.now }
    requires brings { BringsBack back.now }
    requires order { IsOrderOf order.old (put_back inst.now back.now) }
    ensures { IsOrderOf order.new inst.now }
{
    // An instance is valid.
    let _sites = inst.sites();
    without_it(order, inst, back);
}

// The same, where the instance is ready for it.
fn without_it(order: &mut LaneOrder, inst: &Instance, back: &Inverse)
    requires valid { IsValid inst.now }
    requires ready { IsReadyFor inst.now back.now }
    requires before { IsValid (put_back inst.now back.now) }
    requires brings { BringsBack back.now }
    requires order { IsOrderOf order.old (put_back inst.now back.now) }
    ensures { IsOrderOf order.new inst.now }
{
    match back {
        Inverse::DroppedSite { place, row, status } => {
            site_went(order, inst, *place, row, *status)
        }
        Inverse::DroppedCust { place, row, lanes } => cust_went(order, inst, *place, row, lanes),
        _ => {}
    }
}

/// Leads the order of an instance on to the instance to which `back` leads, before `undo` takes the
/// edit back. It takes no memory.
pub fn lead_back(order: &mut LaneOrder, inst: &Instance, back: &Inverse)
    requires leads { LeadsBack inst.now back.now }
    requires order { IsOrderOf order.old inst.now }
    requires room { 0 < order.old.spare }
    ensures { IsOrderOf order.new (put_back inst.now back.now) }
{
    let (sites, custs) = (inst.sites(), inst.custs());
    follow_back(order, inst, sites - 1, custs - 1, back)
}

// The order of the instance becomes that of the one before. The places are those of the last site and
// the last customer.
fn follow_back(
    order: &mut LaneOrder,
    inst: &Instance,
    last_site: usize,
    last_cust: usize,
    back: &Inverse,
)
    requires valid { IsValid inst.now }
    requires site { last_site ≡ length inst.now.sites - 1 }
    requires customer { last_cust ≡ length inst.now.customers - 1 }
    requires ready { IsReadyFor inst.now back.now }
    requires before { IsValid (put_back inst.now back.now) }
    requires order { IsOrderOf order.old inst.now }
    requires room { 0 < order.old.spare }
    ensures { IsOrderOf order.new (put_back inst.now back.now) }
{
    match back {
        Inverse::FormerLane { site, cust, cost } => lane_back(order, inst, *site, *cust, *cost),
        Inverse::AddedSite { .. } => site_goes(order, inst, last_site),
        Inverse::AddedCust { .. } => cust_goes(order, inst, last_cust),
        Inverse::DroppedSite { place, row, status } => {
            site_returns(order, inst, *place, row, *status)
        }
        Inverse::DroppedCust { place, row, lanes } => cust_returns(order, inst, *place, row, lanes),
        Inverse::FormerFixed { .. } => {}
        Inverse::FormerDemand { .. } => {}
        Inverse::FormerCap { .. } => {}
        Inverse::FormerCount { .. } => {}
        Inverse::FormerStatus { .. } => {}
    }
}

fn lane_back(order: &mut LaneOrder, inst: &Instance, site: SiteId, cust: CustId, cost: Option<u64>)
    requires valid { IsValid inst.now }
    requires site { lacks_site inst.now site ≡ false }
    requires customer { lacks_customer inst.now cust ≡ false }
    requires order { IsOrderOf order.old inst.now }
    requires room { 0 < order.old.spare }
    ensures { IsOrderOf order.new (with_lane_cost inst.now site cust cost) }
{
    let from = place_of_site(inst, site);
    let to = place_of_cust(inst, cust);
    let old = inst.lane(from, to);
    order.set_lane(to, from as u32, old, cost);
}

fn site_goes(order: &mut LaneOrder, inst: &Instance, last: usize)
    requires valid { IsValid inst.now }
    requires place { last < length inst.now.sites }
    requires before { IsValid (put_back inst.now (AddedSite (site_at inst.now last).id)) }
    requires order { IsOrderOf order.old inst.now }
    ensures { IsOrderOf order.new (put_back inst.now (AddedSite (site_at inst.now last).id)) }
{
    order.remove_site(last);
}

fn cust_goes(order: &mut LaneOrder, inst: &Instance, last: usize)
    requires valid { IsValid inst.now }
    requires place { last < length inst.now.customers }
    requires before { IsValid (put_back inst.now (AddedCust (customer_at inst.now last).id)) }
    requires order { IsOrderOf order.old inst.now }
    ensures { IsOrderOf order.new (put_back inst.now (AddedCust (customer_at inst.now last).id)) }
{
    order.remove_cust(last);
}

fn site_returns(
    order: &mut LaneOrder,
    inst: &Instance,
    place: usize,
    row: &SiteRow,
    status: SiteStatus,
)
    requires valid { IsValid inst.now }
    requires place { place ≤ length inst.now.sites }
    requires lanes { length row.now.lanes ≡ length inst.now.customers }
    requires before { IsValid (with_site_in inst.now place row.now status) }
    requires order { IsOrderOf order.old inst.now }
    requires room { 0 < order.old.spare }
    ensures { IsOrderOf order.new (with_site_in inst.now place row.now status) }
{
    order.insert_site(place, row.id, &row.lanes);
}

fn cust_returns(
    order: &mut LaneOrder,
    inst: &Instance,
    place: usize,
    row: &CustRow,
    lanes: &LaneRow,
)
    requires valid { IsValid inst.now }
    requires place { place ≤ length inst.now.customers }
    requires lanes { length lanes.now ≡ length inst.now.sites }
    requires before { IsValid (with_customer_in inst.now place row.now lanes.now) }
    requires order { IsOrderOf order.old inst.now }
    requires room { 0 < order.old.spare }
    ensures { IsOrderOf order.new (with_customer_in inst.now place row.now lanes.now) }
{
    order.insert_cust(place, lanes);
}

/// Leads the order of the instance before on to `inst`, after `apply` changed that by this edit and gave
/// what takes it back. It takes no memory.
pub fn lead_on(order: &mut LaneOrder, inst: &Instance, edit: &Edit, back: &Inverse)
    requires leads { LeadsBack inst.now back.now }
    requires made { edited (put_back inst.now back.now) edit.now ≡ Ok inst.now }
    requires inverse { back.now ≡ inverse_of (put_back inst.now back.now) edit.now }
    requires order { IsOrderOf order.old (put_back inst.now back.now) }
    requires room { 0 < order.old.spare }
    ensures { IsOrderOf order.new inst.now }
{
    let (sites, custs) = (inst.sites(), inst.custs());
    follow(order, inst, sites - 1, custs - 1, edit, back)
}

// The order of the instance before becomes that of the instance. The places are those of the last site
// and the last customer.
fn follow(
    order: &mut LaneOrder,
    inst: &Instance,
    last_site: usize,
    last_cust: usize,
    edit: &Edit,
    back: &Inverse,
)
    requires valid { IsValid inst.now }
    requires site { last_site ≡ length inst.now.sites - 1 }
    requires customer { last_cust ≡ length inst.now.customers - 1 }
    requires ready { IsReadyFor inst.now back.now }
    requires before { IsValid (put_back inst.now back.now) }
    requires made { edited (put_back inst.now back.now) edit.now ≡ Ok inst.now }
    requires inverse { back.now ≡ inverse_of (put_back inst.now back.now) edit.now }
    requires order { IsOrderOf order.old (put_back inst.now back.now) }
    requires room { 0 < order.old.spare }
    ensures { IsOrderOf order.new inst.now }
{
    match back {
        Inverse::FormerLane { site, cust, cost } => lane_on(order, inst, *site, *cust, *cost),
        Inverse::AddedSite { .. } => site_comes(order, inst, last_site),
        Inverse::AddedCust { .. } => cust_comes(order, inst, last_cust, edit),
        Inverse::DroppedSite { place, row, status } => {
            site_went(order, inst, *place, row, *status)
        }
        Inverse::DroppedCust { place, row, lanes } => cust_went(order, inst, *place, row, lanes),
        Inverse::FormerFixed { .. } => {}
        Inverse::FormerDemand { .. } => {}
        Inverse::FormerCap { .. } => {}
        Inverse::FormerCount { .. } => {}
        Inverse::FormerStatus { .. } => {}
    }
}

fn lane_on(order: &mut LaneOrder, inst: &Instance, site: SiteId, cust: CustId, former: Option<u64>)
    requires valid { IsValid inst.now }
    requires site { lacks_site inst.now site ≡ false }
    requires customer { lacks_customer inst.now cust ≡ false }
    requires before { IsValid (with_lane_cost inst.now site cust former) }
    requires order { IsOrderOf order.old (with_lane_cost inst.now site cust former) }
    requires room { 0 < order.old.spare }
    ensures { IsOrderOf order.new inst.now }
{
    let from = place_of_site(inst, site);
    let to = place_of_cust(inst, cust);
    let new = inst.lane(from, to);
    order.set_lane(to, from as u32, former, new);
}

fn site_comes(order: &mut LaneOrder, inst: &Instance, last: usize)
    requires valid { IsValid inst.now }
    requires place { last < length inst.now.sites }
    requires before { IsValid (put_back inst.now (AddedSite (site_at inst.now last).id)) }
    requires order { IsOrderOf order.old (put_back inst.now (AddedSite (site_at inst.now last).id)) }
    requires room { 0 < order.old.spare }
    ensures { IsOrderOf order.new inst.now }
{
    let id = inst.site_id(last);
    order.insert_site(last, id, inst.lanes(last));
}

fn cust_comes(order: &mut LaneOrder, inst: &Instance, last: usize, edit: &Edit)
    requires valid { IsValid inst.now }
    requires place { last + 1 ≡ length inst.now.customers }
    requires before { IsValid (put_back inst.now (AddedCust (customer_at inst.now last).id)) }
    requires made { edited (put_back inst.now (AddedCust (customer_at inst.now last).id)) edit.now ≡ Ok inst.now }
    requires inverse { AddedCust (customer_at inst.now last).id ≡ inverse_of (put_back inst.now (AddedCust (customer_at inst.now last).id)) edit.now }
    requires order { IsOrderOf order.old (put_back inst.now (AddedCust (customer_at inst.now last).id)) }
    requires room { 0 < order.old.spare }
    ensures { IsOrderOf order.new inst.now }
{
    if let Edit::AddCust { lanes, .. } = edit {
        order.insert_cust(last, lanes);
    }
}

fn site_went(
    order: &mut LaneOrder,
    inst: &Instance,
    place: usize,
    row: &SiteRow,
    status: SiteStatus,
)
    requires valid { IsValid inst.now }
    requires place { place ≤ length inst.now.sites }
    requires lanes { length row.now.lanes ≡ length inst.now.customers }
    requires before { IsValid (with_site_in inst.now place row.now status) }
    requires order { IsOrderOf order.old (with_site_in inst.now place row.now status) }
    ensures { IsOrderOf order.new inst.now }
{
    order.remove_site(place);
}

fn cust_went(order: &mut LaneOrder, inst: &Instance, place: usize, row: &CustRow, lanes: &LaneRow)
    requires valid { IsValid inst.now }
    requires place { place ≤ length inst.now.customers }
    requires lanes { length lanes.now ≡ length inst.now.sites }
    requires before { IsValid (with_customer_in inst.now place row.now lanes.now) }
    requires order { IsOrderOf order.old (with_customer_in inst.now place row.now lanes.now) }
    ensures { IsOrderOf order.new inst.now }
{
    order.remove_cust(place);
}
