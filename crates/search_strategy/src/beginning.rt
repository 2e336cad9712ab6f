//! Where a search begins.
ghost use Rattle.std.specs.Prelude.{◌≡◌, IfOk, length};

use crate::constants::LEAVES_BEFORE;
use crate::kept::{FirstBox, Kept, rescaled};
use crate::leaves::Leaves;
use dual_value::{Duals, Path};
use instance_store::{Instance, NoMemory};
use plan_meaning::Plan;
use std::alloc::Global;

/// What is known before a search.
#[derive(Drop)]
pub(crate) struct Beginning {
    pub(crate) regrowth: Regrowth,
    /// The numbers of a former search in its first box, where something was kept of one.
    pub(crate) first: FirstBox,
    pub(crate) is_known: bool,
}

/// How a search goes through the leaves of a tree that was carried over edits.
#[derive(Drop)]
pub(crate) struct Regrowth {
    leaves: Leaves,
    // The sites of the carried plan, by place, if there is one.
    near: Vec<bool>,
    is_near: bool,
    // Whether steps were taken in the box of the instance, and by how much they changed the duals, by the places of the
    // customers, in parts of a millionth.
    is_stepped: bool,
    change: Vec<i128>,
    scale: u32,
    // The duals of a leaf with that change.
    shifted: Vec<i128>,
}

impl Beginning {
    /// What a former search kept, if there was one. It fails only where memory runs out.
    pub(crate) fn of(
        alloc: Global,
        inst: &Instance,
        kept: Option<&Kept>,
    ) -> Result<Beginning, NoMemory> {
        let first = match kept {
            None => FirstBox::unknown(alloc, inst)?,
            Some(kept) => FirstBox::of(alloc, inst, kept)?,
        };
        Ok(Beginning {
            regrowth: Regrowth::of(alloc, inst)?,
            first,
            is_known: kept.is_some(),
        })
    }
}

impl Regrowth {
    fn of(alloc: Global, inst: &Instance) -> Result<Regrowth, NoMemory> {
        Ok(Regrowth {
            leaves: Leaves::none(),
            near: vec![in alloc; false; inst.sites()]?,
            is_near: false,
            is_stepped: false,
            change: Vec::new(alloc),
            scale: 1,
            shifted: Vec::new(alloc),
        })
    }

    /// Lets plans be sought first near this one.
    pub(crate) fn hint(&mut self, inst: &Instance, plan: &Plan) {
        flag_sites(inst, plan, &mut self.near);
        self.is_near = true;
    }

    /// The sites of the carried plan, by place, if there is one.
    pub(crate) fn near(&self) -> Option<&[bool]> {
        if self.is_near {
            Some(self.near.as_slice())
        } else {
            None
        }
    }

    /// Sees the box that is entered: whether it is that of another leaf of a tree of several. It fails only where memory
    /// runs out.
    pub(crate) fn begins(&mut self, path: &Path) -> Result<bool, NoMemory> {
        self.leaves.begins(path)
    }

    /// Whether the search began with a tree of several leaves.
    pub(crate) fn is_carried(&self) -> bool {
        self.leaves.are_several()
    }

    /// Whether it is time for steps in the box of the instance: once some leaves stayed open, or where no plan is known.
    pub(crate) fn is_due(&self, cost: Option<u64>) -> bool {
        !self.is_stepped && (cost.is_none() || self.leaves.asked() >= LEAVES_BEFORE)
    }

    /// Whether steps were taken there.
    pub(crate) fn is_stepped(&self) -> bool {
        self.is_stepped
    }

    /// Steps begin there from these numbers. It fails only where memory runs out.
    pub(crate) fn begin(&mut self, former: &FirstBox) -> Result<(), NoMemory> {
        self.is_stepped = true;
        self.scale = former.step_scale;
        self.change.resize(former.stepped.len(), 0)?;
        self.shifted.resize(former.stepped.len(), 0)?;
        copy_values(&former.stepped, &mut self.change);
        Ok(())
    }

    /// Steps ended there with these numbers.
    pub(crate) fn end(&mut self, now: &FirstBox) {
        fill_change(&now.stepped, self.scale, now.step_scale, &mut self.change);
        self.scale = now.step_scale;
    }

    /// The duals of a leaf, each with the change of the steps, at their scale.
    pub(crate) fn shifted(&mut self, duals: &Duals) -> &[i128] {
        fill_shifted(duals, &self.change, self.scale, &mut self.shifted);
        &self.shifted
    }
}

// Flags the sites that the plan opens, by place.
fn flag_sites(inst: &Instance, plan: &Plan, flags: &mut [bool])
    ensures { length flags.new ≡ length flags.old }
{
    for k in 0..plan.site_count() {
        if let Some(i) = inst.site_at(plan.site(k))
            && i < flags.len()
        {
            flags[i] = true;
        }
    }
}

fn copy_values(values: &[i128], copies: &mut [i128])
    ensures { length copies.new ≡ length copies.old }
{
    for j in 0..copies.len() {
        if j < values.len() {
            copies[j] = values[j];
        }
    }
}

// What was known becomes by how much that is less than what is known now; of what wasn't known nothing is said.
fn fill_change(now: &[i128], from: u32, to: u32, change: &mut [i128])
    ensures { length change.new ≡ length change.old }
{
    for j in 0..change.len() {
        if j < now.len() && change[j] != 0 {
            change[j] = now[j].saturating_sub(rescaled(change[j], from, to));
        }
    }
}

fn fill_shifted(duals: &Duals, change: &[i128], scale: u32, shifted: &mut [i128])
    ensures { length shifted.new ≡ length shifted.old }
{
    for j in 0..shifted.len() {
        if j < change.len() && j < duals.customers() {
            let more = rescaled(change[j], scale, duals.q());
            shifted[j] = duals.v(j).saturating_add(more);
        }
    }
}
