//! An instance under edits.
ghost use Rattle.std.specs.Prelude.{◌≡◌, ◌⊎◌, ◌↔◌, ◌+◌, ◌<◌, ◌≤◌, [], ◌∷◌, ◌++◌, length, Ok, Err, Some, IfOk, IfErr, IfSome, IsSome, OnOk, OnErr};
ghost use Rattle.std.specs.Option.{option_copied};
ghost use Rattle.std.specs.Vec.{vec_len, vec_capacity};
ghost use Rattle.location_terms.specs.Instance.{Instance as Meaning, IsValid};
ghost use Rattle.lane_order.specs.Order.{IsOrderOf};
ghost use Rattle.instance_edits.specs.declared.edit.Edit.{Edit as Change};
ghost use Rattle.instance_edits.specs.declared.edit.EditFault.TheVariants.{NoMemory as is_out_of_memory};
ghost use Rattle.instance_edits.specs.Edits.{HasAmounts, Accepts, edited};
ghost use Rattle.instance_edits.specs.Undo.{put_back, undone, LeadsBack};

use instance_edits::{Edit, EditFault, Inverse, allows, apply_in_order, make_room, undo_in_order};
use instance_store::{Instance, NoMemory};
use lane_order::LaneOrder;
use std::alloc::Global;
use std::marker::Model;

// An edit that was accepted, what takes it back, and the serial number of what stood then.
#[derive(Drop)]
pub(crate) struct Held {
    pub(crate) edit: Edit,
    pub(crate) back: Inverse,
    pub(crate) serial: Option<u64>,
}

/// An instance with the order of its lanes, the edits in force that led to it, and what takes each of them
/// back. Beside each edit stands the serial number of what its owner had then, or none.
#[derive(Drop)]
pub struct EditedInstance {
    inst: Instance,
    order: LaneOrder,
    held: Vec<Held>,
}

impl Model for EditedInstance {
    ghost use Rattle.edit_history.specs.History.{History, history_code};

    ghost Value = { History };

    ghost coded = { history_code };

    ghost use Rattle.edit_history.specs.Chain.{history_of, IsKept};

    ghost view = { history_of };

    ghost invariant = { IsKept };
}

impl EditedInstance {
    ghost use Rattle.edit_history.specs.History.{begun, LeadsOn, IsBeforeLast};

    /// An instance before any edit. It fails only where memory runs out.
    pub fn begun(alloc: Global, inst: Instance) -> Result<EditedInstance, NoMemory>
        ensures { IfOk result (λ it. it ≡ begun inst) }
    {
        let order = LaneOrder::of(alloc, &inst)?;
        Ok(EditedInstance {
            inst,
            order,
            held: Vec::new(alloc),
        })
    }

    /// The present instance.
    pub fn instance(&self) -> &Instance
        ensures same { result.now ≡ self.now.instance }
        ensures leads { LeadsOn self.now }
    {
        &self.inst
    }

    /// The order of its lanes.
    pub fn order(&self) -> &LaneOrder
        ensures { IsOrderOf result.now self.now.instance }
    {
        &self.order
    }

    /// How many edits led to it.
    pub fn count(&self) -> usize
        ensures { result ≡ length self.now.edits }
    {
        self.held.len()
    }

    /// What takes the last edit back; none where no edit is held.
    pub fn last_back(&self) -> Option<&Inverse>
        ensures found { IsSome result ↔ (0 < length self.now.edits) }
        ensures leads { IfSome (option_copied result) (λ back. LeadsBack self.now.instance back) }
        ensures before { IfSome (option_copied result) (λ back. IsBeforeLast self.now (put_back self.now.instance back)) }
    {
        let last = self.held.last()?;
        Some(&last.back)
    }

    /// Changes the instance by an edit, whose amounts are at most `MAX_AMOUNT`, and holds it with this serial
    /// number. Where the edit is refused, or memory runs out, all is as before; memory is looked at last.
    pub fn change(
        &mut self,
        alloc: Global,
        edit: Edit,
        serial: Option<u64>,
    ) -> Result<(), EditFault>
        requires { HasAmounts edit }
        ensures made { OnOk result (edited self.old.instance edit ≡ Ok self.new.instance) }
        ensures edits { OnOk result (self.new.edits ≡ self.old.edits ++ record { edit = edit; serial = serial } ∷ []) }
        ensures base { self.new.base ≡ self.old.base }
        ensures kept { OnErr result (self.new ≡ self.old) }
        ensures cause { IfErr result (λ fault. (edited self.old.instance edit ≡ Err fault) ⊎ (Accepts self.old.instance edit × (fault ≡ is_out_of_memory))) }
    {
        allows(&self.inst, &edit)?;
        // Room is made before anything changes.
        if make_both_room(&mut self.order, &mut self.held).is_err() {
            return Err(EditFault::NoMemory);
        }
        let back = apply_in_order(alloc, &mut self.order, &mut self.inst, &edit)?;
        let Ok(()) = self.held.push(Held { edit, back, serial }) else {
            unreachable!();
        };
        Ok(())
    }

    /// Takes the last edit back: the instance is the one before it, and the serial number that stood beside the
    /// edit is handed on. Where memory runs out, all is as before.
    pub fn take_back(&mut self) -> Result<Option<u64>, NoMemory>
        requires { 0 < length self.old.edits }
        ensures taken { IfOk result (λ serial. (edit : Change) × (self.old.edits ≡ self.new.edits ++ record { edit = edit; serial = serial } ∷ [])) }
        ensures base { self.new.base ≡ self.old.base }
        ensures kept { OnErr result (self.new ≡ self.old) }
    {
        make_room(&mut self.order)?;
        let Some(last) = self.held.pop() else {
            unreachable!();
        };
        match led_back(&mut self.order, &mut self.inst, last) {
            Ok(serial) => Ok(serial),
            Err(last) => {
                let Ok(()) = self.held.push(last) else {
                    unreachable!();
                };
                Err(NoMemory)
            }
        }
    }
}

// Takes the last edit back, and gives its serial number. Where memory runs out, what was held is handed back.
fn led_back(order: &mut LaneOrder, inst: &mut Instance, last: Held) -> Result<Option<u64>, Held>
    requires leads { LeadsBack inst.old last.back }
    requires order { IsOrderOf order.old inst.old }
    requires room { 0 < order.old.spare }
    ensures undone { OnOk result (undone inst.old last.back ≡ Some inst.new) }
    ensures serial { IfOk result (λ serial. serial ≡ last.serial) }
    ensures kept { OnErr result (inst.new ≡ inst.old) }
    ensures handed_back { IfErr result (λ h. h ≡ last) }
    ensures order { IsOrderOf order.new inst.new }
{
    let Held { edit, back, serial } = last;
    match undo_in_order(order, inst, back) {
        Ok(()) => Ok(serial),
        Err(fault) => Err(Held {
            edit,
            back: fault.back,
            serial,
        }),
    }
}

// Makes room for one more edit in both.
fn make_both_room(order: &mut LaneOrder, held: &mut Vec<Held>) -> Result<(), NoMemory>
    ensures order { (I : Meaning) → IsOrderOf order.old I → IsOrderOf order.new I }
    ensures spare { OnOk result (0 < order.new.spare) }
    ensures held { held.new.items ≡ held.old.items }
    ensures room { OnOk result (vec_len held.new + 1 ≤ vec_capacity held.new) }
{
    held.reserve(1)?;
    make_room(order)
}
