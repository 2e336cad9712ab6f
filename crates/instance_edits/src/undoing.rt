//! How an edit is taken back.
ghost use Rattle.std.specs.Prelude.{◌≡◌, ◌-◌, ◌≤◌, length, Some, IfErr, OnOk, OnErr};
ghost use Rattle.location_terms.specs.Instance.{IsValid};
ghost use Rattle.instance_store.specs.Changes.{with_site_in, with_customer_in};
ghost use Rattle.instance_edits.specs.declared.edit.Inverse.TheVariants.{DroppedSite, DroppedCust};
ghost use Rattle.instance_edits.specs.Ready.{IsReadyFor};
ghost use Rattle.instance_edits.specs.Undo.{put_back, undone, LeadsBack, BringsBack};

use crate::comings::{remove_last_cust, remove_last_site};
use crate::values::{set_cap, set_count, set_demand, set_fixed, set_lane, set_status};
use crate::{CustRow, Instance, Inverse, LaneRow, SiteRow, SiteStatus};

/// Memory ran out while an edit was taken back: what takes it back is handed on, to be tried again.
#[derive(Debug, Drop)]
pub struct UndoFault {
    /// What was to be put back.
    pub back: Inverse,
}

/// Takes an edit back: the instance is again what it was before the edit, order and next ids
/// included. What is put back has to lead to a valid instance, as it does right behind its edit.
/// It fails only where memory runs out while a site or a customer comes back, and then leaves the
/// instance as it was. Where a value is put back, or what came goes, it takes no memory.
pub fn undo(inst: &mut Instance, back: Inverse) -> Result<(), UndoFault>
    requires { LeadsBack inst.old back }
    ensures undone { OnOk result (undone inst.old back ≡ Some inst.new) }
    ensures kept { OnErr result (inst.new ≡ inst.old) }
    ensures handed_back { IfErr result (λ fault. fault.back ≡ back) }
    ensures room { OnErr result (BringsBack back) }
{
    let (sites, custs) = (inst.sites(), inst.custs());
    put_back(inst, sites - 1, custs - 1, back)
}

// Puts back what an instance is ready for. The places are those of the last site and the last customer.
fn put_back(
    inst: &mut Instance,
    last_site: usize,
    last_cust: usize,
    back: Inverse,
) -> Result<(), UndoFault>
    requires valid { IsValid inst.old }
    requires site { last_site ≡ length inst.old.sites - 1 }
    requires customer { last_cust ≡ length inst.old.customers - 1 }
    requires ready { IsReadyFor inst.old back }
    ensures same { OnOk result (inst.new ≡ put_back inst.old back) }
    ensures kept { OnErr result (inst.new ≡ inst.old) }
    ensures handed_back { IfErr result (λ fault. fault.back ≡ back) }
    ensures room { OnErr result (BringsBack back) }
{
    match back {
        Inverse::FormerFixed { site, cost } => {
            set_fixed(inst, site, cost);
            Ok(())
        }
        Inverse::FormerLane { site, cust, cost } => {
            set_lane(inst, site, cust, cost);
            Ok(())
        }
        Inverse::FormerDemand { cust, demand } => {
            set_demand(inst, cust, demand);
            Ok(())
        }
        Inverse::FormerCap { site, cap } => {
            set_cap(inst, site, cap);
            Ok(())
        }
        Inverse::FormerCount { lo, hi } => {
            set_count(inst, lo, hi);
            Ok(())
        }
        Inverse::AddedSite { .. } => {
            remove_last_site(inst, last_site);
            Ok(())
        }
        Inverse::AddedCust { .. } => {
            remove_last_cust(inst, last_cust);
            Ok(())
        }
        Inverse::DroppedSite { place, row, status } => bring_site(inst, place, row, status),
        Inverse::DroppedCust { place, row, lanes } => bring_cust(inst, place, row, lanes),
        Inverse::FormerStatus { site, status } => {
            set_status(inst, site, status);
            Ok(())
        }
    }
}

// Brings a site back to its place.
fn bring_site(
    inst: &mut Instance,
    place: usize,
    row: SiteRow,
    status: SiteStatus,
) -> Result<(), UndoFault>
    requires place { place ≤ length inst.old.sites }
    requires lanes { length row.lanes ≡ length inst.old.customers }
    requires valid { IsValid (with_site_in inst.old place row status) }
    ensures same { OnOk result (inst.new ≡ with_site_in inst.old place row status) }
    ensures kept { OnErr result (inst.new ≡ inst.old) }
    ensures handed_back { IfErr result (λ fault. fault.back ≡ DroppedSite place row status) }
{
    match inst.insert_site(place, row, status) {
        Ok(()) => Ok(()),
        Err(row) => Err(UndoFault {
            back: Inverse::DroppedSite { place, row, status },
        }),
    }
}

// Brings a customer back to its place.
fn bring_cust(
    inst: &mut Instance,
    place: usize,
    row: CustRow,
    lanes: LaneRow,
) -> Result<(), UndoFault>
    requires place { place ≤ length inst.old.customers }
    requires lanes { length lanes ≡ length inst.old.sites }
    requires valid { IsValid (with_customer_in inst.old place row lanes) }
    ensures same { OnOk result (inst.new ≡ with_customer_in inst.old place row lanes) }
    ensures kept { OnErr result (inst.new ≡ inst.old) }
    ensures handed_back { IfErr result (λ fault. fault.back ≡ DroppedCust place row lanes) }
{
    let again = CustRow {
        id: row.id,
        demand: row.demand,
    };
    if inst.insert_cust(place, again, &lanes).is_err() {
        return Err(UndoFault {
            back: Inverse::DroppedCust { place, row, lanes },
        });
    }
    Ok(())
}
