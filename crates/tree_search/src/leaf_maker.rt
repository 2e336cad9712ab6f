//! The duals of a leaf while it is made.
ghost use Rattle.std.specs.Prelude.{◌≡◌, ◌↔◌, ◌⊎◌, IfOk, OnOk, IsTrue};
ghost use Rattle.location_terms.specs.Box.{Path as Decisions};
ghost use Rattle.location_terms.specs.declared.form.LeafForm.TheVariants.{Prices};
ghost use Rattle.location_terms.specs.Bound.{Duals as Numbers, bound_of};
ghost use Rattle.location_terms.specs.Fit.{DualsFit, AreTame, BoundCloses};
ghost use Rattle.lane_order.specs.Order.{IsOrderOf};
ghost use Rattle.dual_adjust.specs.Slackness.{tight_sites};
ghost use Rattle.dual_value.specs.Scales.{IsAtLeast};
ghost use Rattle.dual_value.specs.Zeros.{zeros};
ghost use Rattle.tree_search.specs.Made.{AreServed, IsMadeByPrices, IsMadeScale, plain_scale};
ghost use Rattle.tree_search.specs.Making.{LowersNone, IsMakerFor, IsMaking, Makes, StaysMaking};

use dual_adjust::{Trials, adjust_once};
use dual_value::{Duals, PreparedBox, closes, is_greater, tame};
use instance_store::{Instance, NoMemory, SiteId};
use lane_order::LaneOrder;
use location_terms::{LeafForm, MAX_SCALE};
use plan_search::has_no_caps;
use std::alloc::Global;
use std::marker::Model;

// The scale of plain ascents where some site has a capacity.
const CAPACITY_SCALE: u32 = 1000;

/// What is found of the leaf at work: the plain ascent of its box, and the best duals so far. It is made
/// once for a search, and takes no memory from leaf to leaf.
#[derive(Drop)]
pub struct LeafMaker {
    // Duals of 0, from which the plain ascents start.
    zeros: Duals,
    plain: Duals,
    plain_bound: i128,
    // The tight sites of the plain ascent.
    hint: Vec<SiteId>,
    // The best duals, and their bound.
    best: Trials,
    bound: i128,
}

impl Model for LeafMaker {
    ghost use Rattle.tree_search.specs.Making.{Making, making_code};

    ghost Value = { Making };

    ghost coded = { making_code };

    ghost use Rattle.tree_search.specs.Stored.{making_of, AreAlike};

    ghost view = { making_of };

    ghost invariant = { AreAlike };
}

impl LeafMaker {
    /// What it takes to make leaves of this instance. It fails only where memory runs out.
    pub fn of(alloc: Global, inst: &Instance) -> Result<LeafMaker, NoMemory>
        ensures { IfOk result (IsMakerFor inst.now) }
    {
        let zeros = Duals::zeros(alloc, inst, plain_scale(inst))?;
        let plain = zeros.copied()?;
        let start = zeros.copied()?;
        let best = Trials::of(alloc, inst, start)?;
        Ok(LeafMaker {
            zeros,
            plain,
            plain_bound: 0,
            hint: Vec::new(alloc),
            best,
            bound: 0,
        })
    }

    /// Goes into a box, with the ascents there from zeros, from the duals of the leaf that is replaced and
    /// from those of a box near by: the best of the three, each where it may be used. It fails only where
    /// memory runs out.
    pub fn enter(
        &mut self,
        alloc: Global,
        boxed: &PreparedBox<'_>,
        order: &LaneOrder,
        old: &Duals,
        near: &Duals,
    ) -> Result<(), NoMemory>
        requires order { IsOrderOf order.now boxed.now.instance }
        requires old { DualsFit boxed.now.instance old.now }
        requires near { DualsFit boxed.now.instance near.now }
        requires maker { IsMakerFor boxed.now.instance self.old }
        ensures making { OnOk result ((old_path : Decisions) → LowersNone boxed.now.instance old_path boxed.now.path →
            IsMaking boxed.now.instance old_path old.now boxed.now.path self.new) }
        ensures maker { IsMakerFor boxed.now.instance self.new }
    {
        self.begin(alloc, boxed, order)?;
        self.take(boxed, order, old);
        if are_same(near, old) {
            return Ok(());
        }
        self.take(boxed, order, near);
        Ok(())
    }

    // The plain ascent, as the best duals too, below no leaf yet: duals of scale 0 are never replaced.
    fn begin(
        &mut self,
        alloc: Global,
        boxed: &PreparedBox<'_>,
        order: &LaneOrder,
    ) -> Result<(), NoMemory>
        requires order { IsOrderOf order.now boxed.now.instance }
        requires maker { IsMakerFor boxed.now.instance self.old }
        ensures making { OnOk result (IsMaking boxed.now.instance boxed.now.path (zeros boxed.now.instance 0) boxed.now.path self.new) }
        ensures maker { IsMakerFor boxed.now.instance self.new }
    {
        self.best.copy_from(&self.zeros);
        self.best.ascend(boxed, order);
        self.plain.copy_from(self.best.duals());
        let bound = self.best.bound(boxed);
        self.plain_bound = bound;
        self.bound = bound;
        let hint = self.best.tight_sites(alloc, boxed)?;
        self.hint = hint;
        Ok(())
    }

    /// Takes the ascent of these duals, where they may be used and it is better than the best so far.
    pub fn take(&mut self, boxed: &PreparedBox<'_>, order: &LaneOrder, duals: &Duals)
        requires order { IsOrderOf order.now boxed.now.instance }
        requires fit { DualsFit boxed.now.instance duals.now }
        requires making { Makes boxed.now.instance boxed.now.path self.old }
        ensures stays { StaysMaking boxed.now.instance boxed.now.path self.old self.new }
        ensures taken { duals.now.form ≡ Prices → AreTame boxed.now.instance duals.now → IsMadeScale boxed.now.instance duals.now.q →
            IsAtLeast (bound_of boxed.now.instance boxed.now.path self.new.best.duals) self.new.best.duals.q (bound_of boxed.now.instance boxed.now.path duals.now) duals.now.q }
        ensures zeros { self.new.zeros ≡ self.old.zeros }
    {
        // The ascent of zeros is the plain one.
        if are_same(duals, &self.zeros) {
            return;
        }
        if !is_usable(duals, boxed.instance(), self.zeros.q()) {
            return;
        }
        let scale = self.duals().q();
        if !self.best.rises_from(boxed, order, duals, self.bound, scale) {
            return;
        }
        self.bound = self.best.bound(boxed);
    }

    /// Sees to it that the best duals are better than the plain ascent where that gains: they are then
    /// those of a made leaf.
    pub fn settle(&mut self, boxed: &PreparedBox<'_>, order: &LaneOrder)
        requires order { IsOrderOf order.now boxed.now.instance }
        requires making { Makes boxed.now.instance boxed.now.path self.old }
        ensures stays { StaysMaking boxed.now.instance boxed.now.path self.old self.new }
        ensures made { (old_path : Decisions) → (old : Numbers) → AreServed boxed.now.instance boxed.now.path →
            IsMaking boxed.now.instance old_path old boxed.now.path self.old →
            IsMadeByPrices boxed.now.instance old_path old boxed.now.path self.new.best.duals }
        ensures zeros { self.new.zeros ≡ self.old.zeros }
    {
        if is_greater(
            self.bound,
            self.duals().q(),
            self.plain_bound,
            self.plain.q(),
        ) {
            return;
        }
        self.best.copy_from(&self.plain);
        adjust_once(boxed, order, &mut self.best);
        self.bound = self.best.bound(boxed);
    }

    /// Whether the best duals close the box against the target.
    pub fn closes(&self, target: Option<u64>) -> bool
        ensures { IsTrue result ↔ BoundCloses self.now.bound self.now.best.duals.q target }
    {
        closes(self.bound, self.duals().q(), target)
    }

    /// The bound of the box at the best duals, in millionths times their scale.
    pub fn bound(&self) -> i128
        ensures { result ≡ self.now.bound }
    {
        self.bound
    }

    /// The best duals.
    pub fn duals(&self) -> &Duals
        ensures { result.now ≡ self.now.best.duals }
    {
        self.best.duals()
    }

    /// The slacks of the sites at the best duals, by place, in millionths times their scale.
    pub fn slacks(&self) -> &[i128]
        ensures { result.now ≡ self.now.best.work.slacks }
    {
        self.best.slacks()
    }

    /// The tight sites of the box at the best duals. It fails only where memory runs out.
    pub fn tight_sites(
        &self,
        alloc: Global,
        boxed: &PreparedBox<'_>,
    ) -> Result<Vec<SiteId>, NoMemory>
        requires making { Makes boxed.now.instance boxed.now.path self.now }
        ensures { IfOk result (λ sites. sites.items ≡ tight_sites boxed.now.instance boxed.now.path self.now.best.duals) }
    {
        self.best.tight_sites(alloc, boxed)
    }

    /// The tight sites of the box in the plain ascent.
    pub fn plain_tight_sites(&self) -> &[SiteId]
        ensures { result.now ≡ self.now.hint }
    {
        &self.hint
    }
}

// Whether these are the same duals, in the same form.
fn are_same(duals: &Duals, other: &Duals) -> bool
    ensures { IsTrue result → duals.now ≡ other.now }
{
    if duals.form() != other.form() {
        return false;
    }
    if duals.q() != other.q() {
        return false;
    }
    if duals.nu() != other.nu() {
        return false;
    }
    if duals.values() != other.values() {
        return false;
    }
    duals.prices() == other.prices()
}

// Whether an ascent may start from these duals, which are by prices, and its leaf may be made. `plain` is the scale of the
// plain ascents.
fn is_usable(duals: &Duals, inst: &Instance, plain: u32) -> bool
    requires fit { DualsFit inst.now duals.now }
    requires plain { plain ≡ plain_scale inst.now }
    ensures { IsTrue result ↔ ((duals.now.form ≡ Prices) × AreTame inst.now duals.now × IsMadeScale inst.now duals.now.q) }
{
    duals.form() == LeafForm::Prices && is_made_scale(duals.q(), plain) && tame(duals, inst)
}

fn is_made_scale(q: u32, plain: u32) -> bool
    ensures { IsTrue result ↔ ((q ≡ plain) ⊎ ((plain ≡ 1) × (q ≡ MAX_SCALE))) }
{
    q == plain || (plain == 1 && q == MAX_SCALE)
}

// The scale of the plain ascents of the instance.
fn plain_scale(inst: &Instance) -> u32
    ensures { result ≡ plain_scale inst.now }
{
    if has_no_caps(inst) { 1 } else { CAPACITY_SCALE }
}
