//! The best duals of a box, raised by ascents.
ghost use Rattle.std.specs.Prelude.{IsTrue, OnOk};
ghost use Rattle.location_terms.specs.Fit.{AreTame};
ghost use Rattle.lane_order.specs.Order.{IsOrderOf};
ghost use Rattle.dual_ascent.specs.Work.{IsWorkFor};

use crate::covering::SITE_COST;
use dual_ascent::{Workspace, ascend_in};
use dual_value::{Duals, PreparedBox, bound_from, tame};
use instance_store::NoMemory;
use lane_order::LaneOrder;
use std::alloc::Global;

/// The best duals of a box so far, with their bound and their slacks, in millionths.
#[derive(Drop)]
pub(crate) struct Raised {
    pub(crate) duals: Duals,
    pub(crate) bound: i128,
    pub(crate) slacks: Vec<i128>,
}

impl Raised {
    /// Zeros, and no bound yet. It fails only where memory runs out.
    pub(crate) fn none(alloc: Global, boxed: &PreparedBox<'_>) -> Result<Raised, NoMemory> {
        let inst = boxed.instance();
        Ok(Raised {
            duals: Duals::zeros(alloc, inst, 1)?,
            bound: i128::MIN,
            slacks: vec![in alloc; 0; inst.sites()]?,
        })
    }

    /// Takes the ascent of these duals, where they have the scale 1 and its bound is greater. It fails only where
    /// memory runs out.
    pub(crate) fn take(
        &mut self,
        boxed: &PreparedBox<'_>,
        order: &LaneOrder,
        work: &mut Workspace,
        duals: Duals,
    ) -> Result<(), NoMemory>
        requires order { IsOrderOf order.now boxed.now.instance }
        requires work { IsWorkFor boxed.now.instance work.old }
        ensures { OnOk result (IsWorkFor boxed.now.instance work.new) }
    {
        let mut duals = duals;
        if !is_usable(boxed, &duals) {
            return Ok(());
        }
        ascend_in(boxed, order, work, &mut duals);
        let bound = bound_from(boxed, &duals, work.slacks());
        if bound <= self.bound {
            return Ok(());
        }
        self.slacks.clear();
        self.slacks.extend_from_slice(work.slacks())?;
        self.duals = duals;
        self.bound = bound;
        Ok(())
    }

    /// Whether the bound shows that plans of the box open more than so many sites.
    pub(crate) fn exceeds(&self, most: u32) -> bool {
        self.bound > i128::from(u64::from(most) * SITE_COST)
    }

    /// The duals as a ray of an instance in which nothing costs anything: the price on the number of open sites stands
    /// for the cost of each. It fails only where memory runs out.
    pub(crate) fn ray(&self, alloc: Global) -> Result<Duals, NoMemory> {
        let values = Vec::from_slice(alloc, self.duals.values())?;
        let prices = Vec::from_slice(alloc, self.duals.prices())?;
        Ok(Duals::from_lists(0, i128::from(SITE_COST), values, prices))
    }
}

// Whether an ascent in the box may start from the duals, at scale 1 and without a price on the number of open sites.
fn is_usable(boxed: &PreparedBox<'_>, duals: &Duals) -> bool
    ensures { IsTrue result → AreTame boxed.now.instance duals.now }
{
    let inst = boxed.instance();
    if duals.customers() != inst.custs() || duals.sites() != inst.sites() {
        return false;
    }
    tame(duals, inst) && duals.q() == 1 && duals.nu() == 0
}
