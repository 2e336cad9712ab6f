//! Plans around sets of sites that steps and duals propose.
ghost use Rattle.std.specs.Prelude.{◌≡◌, ◌<◌, length};
ghost use Rattle.lane_order.specs.Order.{IsOrderOf};
ghost use Rattle.plan_search.specs.InBox.{IsPathOf};
ghost use Rattle.strategy_port.specs.Scene.{IsScene};

use crate::tried::Tried;
use dual_steps::Progress;
use dual_value::{Path, PreparedBox};
use instance_store::{Instance, NoMemory};
use plan_meaning::Plan;
use plan_search::{LocalSearch, improved_set, plan_around};
use std::alloc::Global;
use strategy_port::{Move, Scene};

// The share from which on a site is taken more often than not.
const HALF: f64 = 0.5;

/// The sites from which a plan is sought.
#[derive(Clone, Copy)]
pub(crate) enum Hint {
    /// Those without slack at the best duals of the leaf.
    Tight,
    /// Those that the steps take at their best duals.
    Taken,
    /// Those that more than such a share of the steps takes.
    Shared(f64),
}

/// What seeks plans, and the arrays in which it works.
#[derive(Drop)]
pub(crate) struct Plans {
    local: LocalSearch,
    /// Open sites, by place.
    pub(crate) flags: Vec<bool>,
    tried: Tried,
}

impl Plans {
    /// For this instance. It fails only where memory runs out.
    pub(crate) fn of(alloc: Global, inst: &Instance) -> Result<Plans, NoMemory> {
        Ok(Plans {
            local: LocalSearch::of(alloc, inst)?,
            flags: vec![in alloc; false; inst.sites()]?,
            tried: Tried::none(),
        })
    }

    /// Proposes a plan around the sites of the hint, unless one was sought from them before. It fails only where
    /// memory runs out.
    pub(crate) fn seek(
        &mut self,
        scene: &Scene<'_, '_>,
        hint: Hint,
        progress: &Progress,
    ) -> Result<Move, NoMemory>
        requires { IsScene scene.now }
        ensures { length self.new.flags.items ≡ length self.old.flags.items }
    {
        flag(hint, scene.slacks, progress, &mut self.flags);
        self.seek_flagged(scene, scene.boxed)
    }

    /// The same in the box of the instance, whichever box is at work.
    pub(crate) fn seek_anywhere(
        &mut self,
        scene: &Scene<'_, '_>,
        hint: Hint,
        progress: &Progress,
    ) -> Result<Move, NoMemory>
        requires { IsScene scene.now }
        ensures { length self.new.flags.items ≡ length self.old.flags.items }
    {
        flag(hint, scene.slacks, progress, &mut self.flags);
        self.seek_whole(scene)
    }

    /// Proposes a plan near these sites, by place, or near the best plan, in the box of the instance. It fails only where
    /// memory runs out.
    pub(crate) fn seek_near(
        &mut self,
        scene: &Scene<'_, '_>,
        near: Option<&[bool]>,
    ) -> Result<Move, NoMemory>
        requires { IsScene scene.now }
        ensures { length self.new.flags.items ≡ length self.old.flags.items }
    {
        match near {
            None => flag_opened(scene, &mut self.flags),
            Some(near) => flag_taken(near, &mut self.flags),
        }
        self.seek_whole(scene)
    }

    // Proposes a plan around the flagged sites in the box of the instance.
    fn seek_whole(&mut self, scene: &Scene<'_, '_>) -> Result<Move, NoMemory>
        requires { IsScene scene.now }
        ensures { length self.new.flags.items ≡ length self.old.flags.items }
    {
        let path = Path::root(scene.alloc);
        let whole = PreparedBox::of(scene.alloc, scene.boxed.instance(), &path)?;
        self.seek_flagged(scene, &whole)
    }

    // Proposes a plan around the flagged sites in the box.
    fn seek_flagged(
        &mut self,
        scene: &Scene<'_, '_>,
        boxed: &PreparedBox<'_>,
    ) -> Result<Move, NoMemory>
        requires order { IsOrderOf scene.now.order.now boxed.now.instance }
        requires path { IsPathOf boxed.now.instance boxed.now.path }
        ensures { length self.new.flags.items ≡ length self.old.flags.items }
    {
        if !self.tried.is_new(&self.flags) {
            return Ok(Move::Nothing);
        }
        let plan = improved_set(
            scene.alloc,
            boxed,
            scene.order,
            &mut self.local,
            &self.flags,
            scene.cost,
        )?;
        Ok(proposed(plan))
    }

    /// Proposes a plan in a box without free sites, around a site that is named for each customer, by place. It
    /// fails only where memory runs out.
    pub(crate) fn seek_around(
        &mut self,
        scene: &Scene<'_, '_>,
        named: &[usize],
    ) -> Result<Move, NoMemory> {
        let plan = plan_around(scene.alloc, scene.boxed, &mut self.local, named)?;
        Ok(proposed(plan))
    }

    /// Proposes a plan in the box that is sought near the shares, and flags its sites. Without a plan some sites are
    /// flagged. It fails only where memory runs out.
    pub(crate) fn seek_within(
        &mut self,
        scene: &Scene<'_, '_>,
        progress: &Progress,
    ) -> Result<Move, NoMemory>
        requires { IsScene scene.now }
        ensures { length self.new.flags.items ≡ length self.old.flags.items }
    {
        flag_shared(progress.shares(), HALF, &mut self.flags);
        let plan = improved_set(
            scene.alloc,
            scene.boxed,
            scene.order,
            &mut self.local,
            &self.flags,
            None,
        )?;
        if let Some(plan) = &plan {
            flag_plan(scene.boxed.instance(), plan, &mut self.flags);
        }
        Ok(proposed(plan))
    }

    /// Flags the sites that the best plan opens.
    pub(crate) fn flag_opened(&mut self, scene: &Scene<'_, '_>)
        ensures { length self.new.flags.items ≡ length self.old.flags.items }
    {
        flag_opened(scene, &mut self.flags);
    }
}

/// The plan as a move, where there is one.
pub(crate) fn proposed(plan: Option<Plan>) -> Move {
    match plan {
        None => Move::Nothing,
        Some(plan) => Move::Plan(plan),
    }
}

// Flags the sites of the hint. The slacks are by place.
fn flag(hint: Hint, slacks: &[i128], progress: &Progress, flags: &mut [bool])
    ensures { length flags.new ≡ length flags.old }
{
    match hint {
        Hint::Tight => flag_tight(slacks, flags),
        Hint::Taken => flag_taken(progress.open(), flags),
        Hint::Shared(least) => flag_shared(progress.shares(), least, flags),
    }
}

fn flag_tight(slacks: &[i128], flags: &mut [bool])
    ensures { length flags.new ≡ length flags.old }
{
    for i in 0..flags.len() {
        flags[i] = i < slacks.len() && slacks[i] <= 0;
    }
}

/// Flags the sites that are taken, by place.
pub(crate) fn flag_taken(taken: &[bool], flags: &mut [bool])
    ensures { length flags.new ≡ length flags.old }
{
    for i in 0..flags.len() {
        flags[i] = i < taken.len() && taken[i];
    }
}

fn flag_shared(shares: &[f64], least: f64, flags: &mut [bool])
    ensures { length flags.new ≡ length flags.old }
{
    for i in 0..flags.len() {
        flags[i] = i < shares.len() && shares[i] > least;
    }
}

fn flag_opened(scene: &Scene<'_, '_>, flags: &mut [bool])
    ensures { length flags.new ≡ length flags.old }
{
    match scene.plan {
        None => flag_taken(&[], flags),
        Some(plan) => flag_plan(scene.boxed.instance(), plan, flags),
    }
}

fn flag_plan(inst: &Instance, plan: &Plan, flags: &mut [bool])
    ensures { length flags.new ≡ length flags.old }
{
    for i in 0..flags.len() {
        flags[i] = i < inst.sites() && plan.opens(inst.site_id(i));
    }
}
