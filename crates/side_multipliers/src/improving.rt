//! The believed call: duals that may change their prices, and are kept where the bound is greater.
ghost use Rattle.std.specs.Prelude.{◌≡◌, ◌≤◌, IfOk, OnOk, length};
ghost use Rattle.location_terms.specs.Fit.{AreTame};
ghost use Rattle.location_terms.specs.declared.limits.TheConstants.{MAX_SCALE};
ghost use Rattle.lane_order.specs.Order.{IsOrderOf};
ghost use Rattle.dual_adjust.specs.Present.{HasAscended};
ghost use Rattle.dual_steps.specs.Sizes.{sizes_of};
ghost use Rattle.side_multipliers.specs.Better.{IsNoWorse};
ghost use Rattle.side_multipliers.specs.Improved.{IsImproved};

use crate::{AT_ROOT, CapSteps};
use dual_adjust::Trials;
use dual_value::{Duals, Path, PreparedBox, tame};
use instance_store::{Instance, NoMemory};
use lane_order::LaneOrder;
use std::alloc::Global;
use std::num::nearest_u64_to_f64;

// So many steps are a round.
const ROUND: u32 = 50;

/// Duals of the same scale whose bound in the box of the path isn't lower. They are tame, and every
/// customer is blocked in them. Up to `rounds` rounds of steps follow the ascent of the start, each
/// followed by an ascent, and the best duals are kept; `goal` is the cost of a known plan, in
/// millionths. It fails only where memory runs out.
pub fn improve(
    alloc: Global,
    inst: &Instance,
    order: &LaneOrder,
    path: &Path,
    start: Duals,
    goal: Option<u64>,
    rounds: u32,
) -> Result<Duals, NoMemory>
    requires tame { AreTame inst.now start }
    requires order { IsOrderOf order.now inst.now }
    ensures { IfOk result (IsImproved inst.now path.now start) }
{
    let boxed = PreparedBox::of(alloc, inst, path)?;
    let mut best = Trials::of(alloc, inst, start)?;
    best.ascend(&boxed, order);
    improve_in(alloc, &boxed, order, &mut best, goal, rounds)?;
    Ok(best.into_duals())
}

// Rounds of steps from the duals at work.
fn improve_in(
    alloc: Global,
    boxed: &PreparedBox<'_>,
    order: &LaneOrder,
    best: &mut Trials,
    goal: Option<u64>,
    rounds: u32,
) -> Result<(), NoMemory>
    requires order { IsOrderOf order.now boxed.now.instance }
    requires risen { HasAscended boxed.now.instance boxed.now.path best.old }
    ensures { OnOk result (IsNoWorse boxed.now.instance boxed.now.path best.old best.new) }
{
    let mut steps = CapSteps::of(alloc, boxed.instance(), order)?;
    steps.enter(boxed, order);
    steps.restart(AT_ROOT);
    steps.start_from(best.duals().values(), best.duals().q());
    for _round in 0..rounds {
        round(alloc, boxed, order, &mut steps, best, goal)?;
    }
    Ok(())
}

// A round of steps, and what comes of its proposal.
fn round(
    alloc: Global,
    boxed: &PreparedBox<'_>,
    order: &LaneOrder,
    steps: &mut CapSteps,
    best: &mut Trials,
    goal: Option<u64>,
) -> Result<(), NoMemory>
    requires order { IsOrderOf order.now boxed.now.instance }
    requires sizes { steps.old ≡ sizes_of boxed.now.instance }
    requires risen { HasAscended boxed.now.instance boxed.now.path best.old }
    ensures sizes { steps.new ≡ steps.old }
    ensures no_worse { OnOk result (IsNoWorse boxed.now.instance boxed.now.path best.old best.new) }
{
    let scale = best.duals().q();
    steps.volume(target(goal, steps.progress().bound()), ROUND);
    let proposed = proposal(alloc, steps, scale)?;
    take(boxed, order, best, &proposed);
    Ok(())
}

// Lets the proposed duals ascend where they are tame: they take the place of the duals at work where their
// bound is greater.
fn take(boxed: &PreparedBox<'_>, order: &LaneOrder, best: &mut Trials, proposed: &Duals)
    requires order { IsOrderOf order.now boxed.now.instance }
    requires risen { HasAscended boxed.now.instance boxed.now.path best.old }
    requires customers { length proposed.now.v ≡ length boxed.now.instance.customers }
    requires sites { length proposed.now.u ≡ length boxed.now.instance.sites }
    requires scale { proposed.now.q ≡ best.old.duals.q }
    ensures { IsNoWorse boxed.now.instance boxed.now.path best.old best.new }
{
    if !tame(proposed, boxed.instance()) {
        return;
    }
    let bound = best.bound(boxed);
    let _rises = best.rises_from(boxed, order, proposed, bound, proposed.q());
}

// What a round aims at: the cost of a known plan, or a little above the bound.
fn target(goal: Option<u64>, bound: f64) -> f64 {
    match goal {
        Some(cost) => nearest_u64_to_f64(cost),
        None => bound + 0.1 * bound.abs() + 1.0,
    }
}

// The best duals of the steps, rounded at this scale.
fn proposal(alloc: Global, steps: &mut CapSteps, scale: u32) -> Result<Duals, NoMemory>
    ensures sizes { steps.new ≡ steps.old }
    ensures scale { IfOk result (λ d. d.q ≡ scale) }
    ensures customers { IfOk result (λ d. length d.v ≡ steps.old.customers) }
    ensures sites { IfOk result (λ d. length d.u ≡ steps.old.sites) }
{
    steps.round(scale);
    let prices = Vec::from_slice(alloc, steps.prices())?;
    let mut values = vec![in alloc; 0; steps.values().len()]?;
    widen(steps.values(), &mut values);
    Ok(Duals::from_lists(scale, i128::from(steps.count_price()), values, prices))
}

fn widen(values: &[i64], wide: &mut [i128])
    requires { length values.now ≡ length wide.old }
    ensures { length wide.new ≡ length wide.old }
{
    for j in 0..wide.len() {
        wide[j] = i128::from(values[j]);
    }
}
