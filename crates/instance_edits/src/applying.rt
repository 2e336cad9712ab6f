//! How an edit changes an instance.
ghost use Rattle.std.specs.Prelude.{◌≡◌, ◌⊎◌, Ok, Err, IfOk, IfErr, OnOk, OnErr, Some};
ghost use Rattle.location_terms.specs.Instance.{IsValid};
ghost use Rattle.instance_edits.specs.declared.edit.EditFault.TheVariants.{NoMemory as is_out_of_memory};
ghost use Rattle.instance_edits.specs.Edits.{HasAmounts, changed, faults_of, edited, Accepts, TakesMemory, IsNoneOf};
ghost use Rattle.instance_edits.specs.Undo.{inverse_of, undone};

use crate::comings::{add_cust, add_site, drop_cust, drop_site};
use crate::refusals::allows;
use crate::values::{set_cap, set_count, set_demand, set_fixed, set_lane, set_status};
use crate::{Edit, EditFault, Instance, Inverse, NoMemory};
use std::alloc::Global;

/// Changes the instance by the edit, and gives what takes it back, next ids included. The edit's
/// amounts are at most `MAX_AMOUNT`. Where it is refused, or memory runs out, the instance is as
/// before; memory is looked at last. An edit of one value takes no memory: it looks one or two ids
/// up, once to see whether it is refused and once to make it, and changes one number.
pub fn apply(alloc: Global, inst: &mut Instance, edit: &Edit) -> Result<Inverse, EditFault>
    requires { HasAmounts edit.now }
    ensures made { OnOk result (edited inst.old edit.now ≡ Ok inst.new) }
    ensures inverse { IfOk result (λ back. back ≡ inverse_of inst.old edit.now) }
    ensures back { IfOk result (λ back. undone inst.new back ≡ Some inst.old) }
    ensures kept { OnErr result (inst.new ≡ inst.old) }
    ensures cause { IfErr result (λ fault. (edited inst.old edit.now ≡ Err fault) ⊎ (Accepts inst.old edit.now × TakesMemory edit.now × (fault ≡ is_out_of_memory))) }
{
    allows(inst, edit)?;
    match change(alloc, inst, edit) {
        Ok(back) => Ok(back),
        Err(NoMemory) => Err(EditFault::NoMemory),
    }
}

// Changes the instance by an edit that it accepts.
fn change(alloc: Global, inst: &mut Instance, edit: &Edit) -> Result<Inverse, NoMemory>
    requires valid { IsValid inst.old }
    requires amounts { HasAmounts edit.now }
    requires accepted { IsNoneOf (faults_of inst.old edit.now) }
    ensures changed { OnOk result (inst.new ≡ changed inst.old edit.now) }
    ensures inverse { IfOk result (λ back. back ≡ inverse_of inst.old edit.now) }
    ensures kept { OnErr result (inst.new ≡ inst.old) }
    ensures room { OnErr result (TakesMemory edit.now) }
{
    match edit {
        Edit::SetFixed { site, cost } => Ok(set_fixed(inst, *site, *cost)),
        Edit::SetLane { site, cust, cost } => Ok(set_lane(inst, *site, *cust, *cost)),
        Edit::SetDemand { cust, demand } => Ok(set_demand(inst, *cust, *demand)),
        Edit::SetCap { site, cap } => Ok(set_cap(inst, *site, *cap)),
        Edit::SetCount { lo, hi } => Ok(set_count(inst, *lo, *hi)),
        Edit::AddSite { cost, cap, lanes } => add_site(alloc, inst, *cost, *cap, lanes),
        Edit::AddCust { demand, lanes } => add_cust(inst, *demand, lanes),
        Edit::DropSite { site } => Ok(drop_site(inst, *site)),
        Edit::DropCust { cust } => drop_cust(alloc, inst, *cust),
        Edit::SetStatus { site, status } => Ok(set_status(inst, *site, *status)),
    }
}
