//! The bounds of many leaves of one instance.
ghost use Rattle.std.specs.Prelude.{◌≡◌, ◌≤◌, ◌↔◌, All, IfErr, IfOk, IsTrue, OnOk, length, unsigned_abs};
ghost use Rattle.location_terms.specs.Fit.{BoundCloses, DualsFit};
ghost use Rattle.location_terms.specs.Leaf.{bound_in, leaf_bound, LeafFits};
ghost use Rattle.location_terms.specs.declared.form.LeafForm.TheVariants.{Whole};
ghost use Rattle.lane_order.specs.Order.{IsOrderOf};
ghost use Rattle.dual_value.specs.declared.bounds.TheConstants.{MAX_BOUND};
ghost use Rattle.leaf_bounds.specs.LeafFault.{IsFirstLeafFault};

use crate::LeafFault;
use crate::small::has_small_knapsacks;
use crate::whole::{WholeRoom, whole_bound};
use dual_value::{BoxBounds, Duals, MAX_BOUND, Path, PreparedBox, closes, fits};
use instance_store::{Instance, NoMemory};
use lane_order::LaneOrder;
use location_terms::LeafForm;
use std::alloc::Global;
use std::marker::Model;

/// The bounds of many leaves of one instance, in the form of each. Those by prices take no memory but for
/// sorted lanes; whole knapsacks take room that is made once and used again.
#[derive(Drop)]
pub struct LeafBounds<'a> {
    alloc: Global,
    inst: &'a Instance,
    by_prices: BoxBounds<'a>,
    // Whether whole knapsacks are small.
    is_small: bool,
    room: WholeRoom,
}

impl<'a> Model for LeafBounds<'a> {
    ghost use Rattle.std.specs.Prelude.{◌≡◌};
    ghost use Rattle.location_terms.specs.Instance.{Instance as Meaning, instance_code};
    ghost use Rattle.location_terms.specs.Knapsack.{has_small_knapsacks};

    ghost Value = { Meaning };

    ghost coded = { instance_code };

    ghost view = { λ a. a.inst.now };

    ghost invariant = { λ a. (a.by_prices ≡ a.inst.now) × (a.is_small ≡ has_small_knapsacks a.inst.now) };
}

impl<'a> LeafBounds<'a> {
    /// The bounds of leaves of the instance. It takes no memory yet.
    pub fn of(alloc: Global, inst: &'a Instance) -> LeafBounds<'a>
        ensures { result ≡ inst.now }
    {
        LeafBounds {
            alloc,
            inst,
            by_prices: BoxBounds::of(alloc, inst),
            is_small: has_small_knapsacks(inst),
            room: WholeRoom::new(alloc),
        }
    }

    /// The same, by the order of the instance that is there.
    pub fn by_order(alloc: Global, inst: &'a Instance, order: &'a LaneOrder) -> LeafBounds<'a>
        requires { IsOrderOf order.now inst.now }
        ensures { result ≡ inst.now }
    {
        LeafBounds {
            alloc,
            inst,
            by_prices: BoxBounds::by_order(alloc, inst, order),
            is_small: has_small_knapsacks(inst),
            room: WholeRoom::new(alloc),
        }
    }

    /// Whether the duals suit a leaf of their form, and the first fault where they don't.
    pub fn fits(&self, duals: &Duals) -> Result<(), LeafFault>
        requires customers { length duals.now.v ≡ length self.now.customers }
        requires sites { length duals.now.u ≡ length self.now.sites }
        ensures fit { OnOk result (LeafFits self.now duals.now) }
        ensures fault { IfErr result (λ fault. IsFirstLeafFault self.now duals.now fault) }
    {
        if let Err(fault) = fits(duals, self.inst) {
            return Err(LeafFault::Range(fault));
        }
        match duals.form() {
            LeafForm::Prices => Ok(()),
            LeafForm::Whole => self.suits_whole(duals),
        }
    }

    // The same of duals for whole knapsacks whose numbers are within their limits.
    fn suits_whole(&self, duals: &Duals) -> Result<(), LeafFault>
        requires fit { DualsFit self.now duals.now }
        requires form { duals.now.form ≡ Whole }
        ensures fit { OnOk result (LeafFits self.now duals.now) }
        ensures fault { IfErr result (λ fault. IsFirstLeafFault self.now duals.now fault) }
    {
        if !is_free_of_prices(duals) {
            return Err(LeafFault::Priced);
        }
        if !self.is_small {
            return Err(LeafFault::LargeKnapsacks);
        }
        Ok(())
    }

    /// The bound of the leaf of the path: `q` times the cost of each feasible plan of its box is at least
    /// this. It fails only where memory runs out, and never for duals by prices.
    pub fn bound(&mut self, path: &Path, duals: &Duals) -> Result<i128, NoMemory>
        requires { LeafFits self.old duals.now }
        ensures exact { IfOk result (λ bound. bound ≡ leaf_bound self.old path.now duals.now) }
        ensures small { IfOk result (λ bound. unsigned_abs bound ≤ MAX_BOUND) }
        ensures kept { self.new ≡ self.old }
    {
        match duals.form() {
            LeafForm::Prices => Ok(self.by_prices.bound(path, duals)),
            LeafForm::Whole => self.by_whole(path, duals),
        }
    }

    fn by_whole(&mut self, path: &Path, duals: &Duals) -> Result<i128, NoMemory>
        requires { DualsFit self.old duals.now }
        ensures exact { IfOk result (λ bound. bound ≡ bound_in Whole self.old path.now duals.now) }
        ensures small { IfOk result (λ bound. unsigned_abs bound ≤ MAX_BOUND) }
        ensures kept { self.new ≡ self.old }
    {
        let boxed = PreparedBox::of(self.alloc, self.inst, path)?;
        whole_bound(&boxed, duals, &mut self.room)
    }

    /// Whether the leaf of the path closes its box against the target, a cost in millionths, or without
    /// one. It fails only where memory runs out, and never for duals by prices.
    pub fn closes(
        &mut self,
        path: &Path,
        duals: &Duals,
        target: Option<u64>,
    ) -> Result<bool, NoMemory>
        requires { LeafFits self.old duals.now }
        ensures exact { IfOk result (λ yes. IsTrue yes ↔ BoundCloses (leaf_bound self.old path.now duals.now) duals.now.q target) }
        ensures kept { self.new ≡ self.old }
    {
        let bound = self.bound(path, duals)?;
        Ok(closes(bound, duals.q(), target))
    }

    /// The same for a box that is there already.
    pub fn closes_in(
        &mut self,
        boxed: &PreparedBox<'_>,
        duals: &Duals,
        target: Option<u64>,
    ) -> Result<bool, NoMemory>
        requires instance { boxed.now.instance ≡ self.old }
        requires fit { LeafFits self.old duals.now }
        ensures exact { IfOk result (λ yes. IsTrue yes ↔ BoundCloses (leaf_bound self.old boxed.now.path duals.now) duals.now.q target) }
        ensures kept { self.new ≡ self.old }
    {
        let bound = self.bound_in(boxed, duals)?;
        Ok(closes(bound, duals.q(), target))
    }

    fn bound_in(&mut self, boxed: &PreparedBox<'_>, duals: &Duals) -> Result<i128, NoMemory>
        requires instance { boxed.now.instance ≡ self.old }
        requires fit { LeafFits self.old duals.now }
        ensures exact { IfOk result (λ bound. bound ≡ leaf_bound self.old boxed.now.path duals.now) }
        ensures small { IfOk result (λ bound. unsigned_abs bound ≤ MAX_BOUND) }
        ensures kept { self.new ≡ self.old }
    {
        match duals.form() {
            LeafForm::Prices => Ok(self.by_prices.bound(boxed.path(), duals)),
            LeafForm::Whole => whole_bound(boxed, duals, &mut self.room),
        }
    }
}

fn is_free_of_prices(duals: &Duals) -> bool
    ensures { IsTrue result ↔ All (λ price. price ≡ 0) duals.now.u }
{
    duals.prices().iter().all(|price| *price == 0)
}
