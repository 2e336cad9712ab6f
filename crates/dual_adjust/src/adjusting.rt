//! The dual adjustment: rounds of trials, up to the first that gains nothing.
ghost use Rattle.std.specs.Prelude.{IfOk};
ghost use Rattle.location_terms.specs.Fit.{AreTame};
ghost use Rattle.lane_order.specs.Order.{IsOrderOf};
ghost use Rattle.dual_ascent.specs.Ascent.{IsAscended};
ghost use Rattle.dual_adjust.specs.Present.{IsStart, HasAscended};
ghost use Rattle.dual_adjust.specs.Adjusted.{IsAdjusted, IsFirstGain, IsTried, AreTrials, IsRound};

use crate::Trials;
use dual_value::{Duals, Path, PreparedBox};
use instance_store::{Instance, NoMemory};
use lane_order::LaneOrder;
use std::alloc::Global;

/// The duals to which the adjustment in the box of the path leads from these, as `adjust_in` has it. It
/// fails only where memory runs out.
pub fn adjust(
    alloc: Global,
    inst: &Instance,
    order: &LaneOrder,
    path: &Path,
    start: Duals,
    rounds: u32,
) -> Result<Duals, NoMemory>
    requires tame { AreTame inst.now start }
    requires order { IsOrderOf order.now inst.now }
    ensures { IfOk result (IsAdjusted inst.now path.now rounds start) }
{
    let boxed = PreparedBox::of(alloc, inst, path)?;
    let mut trials = Trials::of(alloc, inst, start)?;
    adjust_in(&boxed, order, &mut trials, rounds);
    Ok(trials.into_duals())
}

/// The dual adjustment in the box: the duals rise by the ascent over all customers, and then up to
/// `rounds` rounds follow. In a round the customers that pay more than one tight site are taken in
/// order: the customer's dual is lowered to its greatest level below it, the others' rise by the ascent
/// that passes over it, and then all rise. Where the bound is greater for it, these duals become the
/// present ones, and else the former ones stand. A round without a gain is the last. It takes no memory.
/// After Erlenkotter, Operations Research 26 (1978).
pub fn adjust_in(boxed: &PreparedBox<'_>, order: &LaneOrder, trials: &mut Trials, rounds: u32)
    requires order { IsOrderOf order.now boxed.now.instance }
    requires start { IsStart boxed.now.instance trials.old }
    ensures adjusted { IsAdjusted boxed.now.instance boxed.now.path rounds trials.old.duals trials.new.duals }
    ensures risen { HasAscended boxed.now.instance boxed.now.path trials.new }
{
    trials.ascend(boxed, order);
    for _round in 0..rounds {
        if !round(boxed, order, trials) {
            return;
        }
    }
}

/// The dual adjustment in the box up to the first trial that gains: less than a round, and enough for a
/// greater bound where one is to be had. It takes no memory.
pub fn adjust_once(boxed: &PreparedBox<'_>, order: &LaneOrder, trials: &mut Trials)
    requires order { IsOrderOf order.now boxed.now.instance }
    requires start { IsStart boxed.now.instance trials.old }
    ensures adjusted { IsAdjusted boxed.now.instance boxed.now.path 1 trials.old.duals trials.new.duals }
    ensures risen { HasAscended boxed.now.instance boxed.now.path trials.new }
{
    trials.ascend(boxed, order);
    let _place = next_gain(boxed, order, trials, 0);
}

/// Duals of a greater bound than these, which an ascent has raised: with the same prices, and raised
/// themselves. `None` comes exactly where no step of an adjustment gains; that they come of such a step
/// isn't said. It fails only where memory runs out.
pub fn gain(
    alloc: Global,
    inst: &Instance,
    order: &LaneOrder,
    path: &Path,
    ascended: &Duals,
) -> Result<Option<Duals>, NoMemory>
    requires tame { AreTame inst.now ascended.now }
    requires order { IsOrderOf order.now inst.now }
    requires ascended { IsAscended inst.now path.now ascended.now ascended.now }
    ensures { IfOk result (IsFirstGain inst.now path.now ascended.now) }
{
    let boxed = PreparedBox::of(alloc, inst, path)?;
    let mut trials = Trials::of(alloc, inst, ascended.copied()?)?;
    trials.ascend(&boxed, order);
    match next_gain(&boxed, order, &mut trials, 0) {
        None => Ok(None),
        Some(_) => Ok(Some(trials.into_duals())),
    }
}

// Tries the customers in order, and goes on with each trial that gains: whether one did.
fn round(boxed: &PreparedBox<'_>, order: &LaneOrder, trials: &mut Trials) -> bool
    requires order { IsOrderOf order.now boxed.now.instance }
    requires risen { HasAscended boxed.now.instance boxed.now.path trials.old }
    ensures tried { IsTried boxed.now.instance boxed.now.path trials.old trials.new }
    ensures round { IsRound boxed.now.instance boxed.now.path trials.old.duals trials.new.duals result }
{
    let mut from = 0;
    while let Some(next) = next_gain(boxed, order, trials, from) {
        from = next;
    }
    from > 0
}

// Tries the customers from the place `from` on, up to the first with which a trial gains: the place
// behind it.
fn next_gain(
    boxed: &PreparedBox<'_>,
    order: &LaneOrder,
    trials: &mut Trials,
    from: usize,
) -> Option<usize>
    requires order { IsOrderOf order.now boxed.now.instance }
    requires risen { HasAscended boxed.now.instance boxed.now.path trials.old }
    ensures tried { IsTried boxed.now.instance boxed.now.path trials.old trials.new }
    ensures trials { AreTrials boxed.now.instance boxed.now.path trials.old.duals trials.new.duals from result }
{
    let bound = trials.bound(boxed);
    for cust in from..boxed.instance().custs() {
        if trials.gains_by(boxed, order, cust, bound) {
            return Some(cust + 1);
        }
    }
    None
}
