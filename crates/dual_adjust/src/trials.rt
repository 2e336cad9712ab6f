//! The duals and the arrays of an adjustment.
ghost use Rattle.std.specs.Prelude.{◌≡◌, ◌<◌, ◌≤◌, ◌↔◌, IfOk, IsTrue, length, int_lt, unsigned_abs};
ghost use Rattle.location_terms.specs.Instance.{IsValid};
ghost use Rattle.location_terms.specs.Bound.{Duals as Prices, bound_of};
ghost use Rattle.location_terms.specs.Fit.{AreTame};
ghost use Rattle.location_terms.specs.declared.limits.TheConstants.{MAX_SCALE};
ghost use Rattle.lane_order.specs.Order.{IsOrderOf};
ghost use Rattle.dual_value.specs.Scales.{IsGreater};
ghost use Rattle.dual_ascent.specs.Ascent.{IsAscended, IsAscendedApart};
ghost use Rattle.dual_ascent.specs.Kept.{Keeps};
ghost use Rattle.dual_ascent.specs.Work.{IsWorkFor};
ghost use Rattle.dual_adjust.specs.Present.{IsStart, HasAscended};
ghost use Rattle.dual_adjust.specs.Adjusted.{IsTried, IsTrial, IsRiseAbove};
ghost use Rattle.dual_adjust.specs.Slackness.{tight_sites};

use crate::lowering::lower_level;
use crate::slackness::is_tight;
use dual_ascent::{Workspace, ascend_in, ascend_others_in};
use dual_value::{Duals, MAX_BOUND, PreparedBox, bound_from, is_greater};
use instance_store::{Instance, NoMemory};
use lane_order::LaneOrder;
use location_terms::SiteId;
use std::alloc::Global;
use std::marker::Model;
use std::mem;

/// Duals that are adjusted, and all that an adjustment works in: the arrays of their ascent, with the
/// slacks, and the duals and the arrays of a trial. A trial that gains becomes the present by an
/// exchange, and any other is forgotten, so that nothing is copied back.
#[derive(Drop)]
pub struct Trials {
    present: Ascended,
    trial: Ascended,
}

// Duals, and the arrays of the ascent that raised them.
#[derive(Drop)]
pub(crate) struct Ascended {
    pub(crate) duals: Duals,
    pub(crate) work: Workspace,
}

impl Model for Trials {
    ghost use Rattle.dual_adjust.specs.Present.{Present};

    ghost Value = { Present };

    ghost use Rattle.dual_adjust.specs.Stored.{present_of, AreAlike};

    ghost view = { present_of };

    ghost invariant = { AreAlike };
}

impl Trials {
    /// What it takes to adjust these duals. It fails only where memory runs out.
    pub fn of(alloc: Global, inst: &Instance, start: Duals) -> Result<Trials, NoMemory>
        ensures duals { IfOk result (λ trials. trials.duals ≡ start) }
        ensures work { IfOk result (λ trials. IsWorkFor inst.now trials.work) }
    {
        let trial = start.copied()?;
        Ok(Trials {
            present: with_arrays(alloc, inst, start)?,
            trial: with_arrays(alloc, inst, trial)?,
        })
    }

    /// The present duals.
    pub fn duals(&self) -> &Duals
        ensures { result.now ≡ self.now.duals }
    {
        &self.present.duals
    }

    /// The slacks of the sites at the present duals, by place, once these have ascended.
    pub fn slacks(&self) -> &[i128]
        ensures { result.now ≡ self.now.work.slacks }
    {
        self.present.work.slacks()
    }

    /// The present duals, without the rest.
    pub fn into_duals(self) -> Duals
        ensures { result ≡ self.duals }
    {
        let Trials { present, trial: _ } = self;
        let Ascended { duals, work: _ } = present;
        duals
    }

    /// Lets the present duals rise by the ascent over all customers.
    pub fn ascend(&mut self, boxed: &PreparedBox<'_>, order: &LaneOrder)
        requires order { IsOrderOf order.now boxed.now.instance }
        requires start { IsStart boxed.now.instance self.old }
        ensures ascended { IsAscended boxed.now.instance boxed.now.path self.old.duals self.new.duals }
        ensures keeps { Keeps boxed.now.instance boxed.now.path self.old.duals self.new.duals }
        ensures risen { HasAscended boxed.now.instance boxed.now.path self.new }
    {
        ascend_in(
            boxed,
            order,
            &mut self.present.work,
            &mut self.present.duals,
        );
    }

    /// The bound of the box at the present duals, in millionths times their scale.
    pub fn bound(&self, boxed: &PreparedBox<'_>) -> i128
        requires { HasAscended boxed.now.instance boxed.now.path self.now }
        ensures exact { result ≡ bound_of boxed.now.instance boxed.now.path self.now.duals }
        ensures small { unsigned_abs result ≤ MAX_BOUND }
    {
        bound_from(boxed, &self.present.duals, self.present.work.slacks())
    }

    /// The tight sites of the box at the present duals, in the order of the instance, by the slacks that
    /// are kept. It fails only where memory runs out.
    pub fn tight_sites(
        &self,
        alloc: Global,
        boxed: &PreparedBox<'_>,
    ) -> Result<Vec<SiteId>, NoMemory>
        requires { HasAscended boxed.now.instance boxed.now.path self.now }
        ensures { IfOk result (λ sites. sites.items ≡ tight_sites boxed.now.instance boxed.now.path self.now.duals) }
    {
        tight(alloc, boxed, &self.present)
    }

    /// Takes over all numbers of other duals, which are for as many customers and sites. They haven't
    /// ascended then.
    pub fn copy_from(&mut self, other: &Duals)
        requires customers { length other.now.v ≡ length self.old.duals.v }
        requires sites { length other.now.u ≡ length self.old.duals.u }
        ensures duals { self.new.duals ≡ other.now }
        ensures work { self.new.work ≡ self.old.work }
    {
        self.present.duals.copy_from(other);
    }

    /// Lets a copy of `start` rise by the ascent, whatever the scale and the prices of the present duals
    /// are: whether its bound is then greater than `bound` at scale `scale`. The duals so found become the
    /// present ones only if it is. It takes no memory.
    pub fn rises_from(
        &mut self,
        boxed: &PreparedBox<'_>,
        order: &LaneOrder,
        start: &Duals,
        bound: i128,
        scale: u32,
    ) -> bool
        requires order { IsOrderOf order.now boxed.now.instance }
        requires present { IsStart boxed.now.instance self.old }
        requires start { AreTame boxed.now.instance start.now }
        requires small { unsigned_abs bound ≤ MAX_BOUND }
        requires scaled { 1 ≤ scale }
        requires scale { scale ≤ MAX_SCALE }
        ensures { IsRiseAbove boxed.now.instance boxed.now.path start.now self.old self.new bound scale result }
    {
        self.trial.duals.copy_from(start);
        ascend_in(boxed, order, &mut self.trial.work, &mut self.trial.duals);
        if !is_better(boxed, &self.trial, bound, scale) {
            return false;
        }
        mem::swap(&mut self.present, &mut self.trial);
        true
    }

    /// Lowers the dual of the customer at place `cust`, where it pays more than one tight site, and lets
    /// the others' rise and then all: whether the bound is then greater than `bound`, that of the present
    /// duals. The duals so found become the present ones only if it is.
    pub(crate) fn gains_by(
        &mut self,
        boxed: &PreparedBox<'_>,
        order: &LaneOrder,
        cust: usize,
        bound: i128,
    ) -> bool
        requires valid { IsValid boxed.now.instance }
        requires order { IsOrderOf order.now boxed.now.instance }
        requires risen { HasAscended boxed.now.instance boxed.now.path self.old }
        requires customer { cust < length boxed.now.instance.customers }
        requires bound { bound ≡ bound_of boxed.now.instance boxed.now.path self.old.duals }
        ensures tried { IsTried boxed.now.instance boxed.now.path self.old self.new }
        ensures trial { IsTrial boxed.now.instance boxed.now.path self.old.duals self.new.duals cust result }
    {
        let Some(level) = lower_level(
            boxed,
            order,
            &self.present.duals,
            self.present.work.slacks(),
            cust,
        ) else {
            return false;
        };
        self.trial.duals.copy_from(&self.present.duals);
        self.trial.duals.set_v(cust, level);
        rise_again(boxed, order, &mut self.trial, cust);
        if !is_above(boxed, &self.trial, bound) {
            return false;
        }
        mem::swap(&mut self.present, &mut self.trial);
        true
    }
}

fn with_arrays(alloc: Global, inst: &Instance, duals: Duals) -> Result<Ascended, NoMemory>
    ensures duals { IfOk result (λ a. a.duals ≡ duals) }
    ensures work { IfOk result (λ a. IsWorkFor inst.now a.work) }
{
    let work = Workspace::of(alloc, inst)?;
    Ok(Ascended { duals, work })
}

// The tight sites of the box at these duals.
fn tight(
    alloc: Global,
    boxed: &PreparedBox<'_>,
    ascended: &Ascended,
) -> Result<Vec<SiteId>, NoMemory>
    requires { HasAscended boxed.now.instance boxed.now.path (record { duals = ascended.now.duals; work = ascended.now.work }) }
    ensures { IfOk result (λ sites. sites.items ≡ tight_sites boxed.now.instance boxed.now.path ascended.now.duals) }
{
    let inst = boxed.instance();
    let slacks = ascended.work.slacks();
    let mut sites = Vec::new(alloc);
    for site in 0..inst.sites() {
        if is_tight(boxed, site, slacks[site]) {
            sites.push(inst.site_id(site))?;
        }
    }
    Ok(sites)
}

// Whether the bound of the box at these duals is greater than this one.
fn is_above(boxed: &PreparedBox<'_>, ascended: &Ascended, bound: i128) -> bool
    requires { HasAscended boxed.now.instance boxed.now.path (record { duals = ascended.now.duals; work = ascended.now.work }) }
    ensures { result ≡ int_lt bound (bound_of boxed.now.instance boxed.now.path ascended.now.duals) }
{
    bound < bound_from(boxed, &ascended.duals, ascended.work.slacks())
}

// Whether the bound of the box at these duals is greater than this one at this scale.
fn is_better(boxed: &PreparedBox<'_>, ascended: &Ascended, bound: i128, scale: u32) -> bool
    requires ascended { HasAscended boxed.now.instance boxed.now.path (record { duals = ascended.now.duals; work = ascended.now.work }) }
    requires small { unsigned_abs bound ≤ MAX_BOUND }
    requires scaled { 1 ≤ scale }
    requires scale { scale ≤ MAX_SCALE }
    ensures { IsTrue result ↔ IsGreater (bound_of boxed.now.instance boxed.now.path ascended.now.duals) ascended.now.duals.q bound scale }
{
    let found = bound_from(boxed, &ascended.duals, ascended.work.slacks());
    is_greater(found, ascended.duals.q(), bound, scale)
}

// Lets the duals rise, those of all customers but one first, and then all.
fn rise_again(boxed: &PreparedBox<'_>, order: &LaneOrder, lowered: &mut Ascended, cust: usize)
    requires order { IsOrderOf order.now boxed.now.instance }
    requires tame { AreTame boxed.now.instance lowered.old.duals }
    requires work { IsWorkFor boxed.now.instance lowered.old.work }
    requires customer { cust < length boxed.now.instance.customers }
    ensures found { (risen : Prices) × IsAscendedApart boxed.now.instance boxed.now.path cust lowered.old.duals risen × IsAscended boxed.now.instance boxed.now.path risen lowered.new.duals }
    ensures risen { HasAscended boxed.now.instance boxed.now.path (record { duals = lowered.new.duals; work = lowered.new.work }) }
{
    ascend_others_in(boxed, order, &mut lowered.work, &mut lowered.duals, cust);
    ascend_in(boxed, order, &mut lowered.work, &mut lowered.duals);
}
