//! The customers' turns, round after round.
ghost use Rattle.std.specs.Prelude.{◌≡◌, ◌<◌, length, not, true, IsTrue};
ghost use Rattle.location_terms.specs.Instance.{IsValid};
ghost use Rattle.location_terms.specs.Fit.{DualsFit, AreTame};
ghost use Rattle.lane_order.specs.Order.{IsOrderOf};
ghost use Rattle.dual_value.specs.Slacks.{AreSlacks};
ghost use Rattle.dual_ascent.specs.Ascent.{IsAscendedOver, is_blocked, raised, round};
ghost use Rattle.dual_ascent.specs.Steps.{IsBlocker, AreBlockers, IsClimbed, HasMoved, picked};
ghost use Rattle.dual_ascent.specs.Work.{IsWorkFor};

use crate::Workspace;
use crate::looking::{Outlook, is_spent, look};
use crate::lowering::lower_slacks;
use crate::seating::{is_picked, seat_all};
use dual_value::{Duals, PreparedBox, fill_slacks};
use lane_order::LaneOrder;

/// The ascent over all customers, or over all but the one at place `apart`.
pub(crate) fn ascend_over(
    boxed: &PreparedBox<'_>,
    order: &LaneOrder,
    work: &mut Workspace,
    duals: &mut Duals,
    apart: Option<usize>,
)
    requires order { IsOrderOf order.now boxed.now.instance }
    requires tame { AreTame boxed.now.instance duals.old }
    requires work { IsWorkFor boxed.now.instance work.old }
    ensures ascended { IsAscendedOver boxed.now.instance boxed.now.path (picked boxed.now.instance apart) duals.old duals.new }
    ensures slacks { AreSlacks boxed.now.instance boxed.now.path duals.new work.new.slacks }
    ensures work { IsWorkFor boxed.now.instance work.new }
    ensures valid { IsValid boxed.now.instance }
{
    seat_all(boxed, order, duals, apart);
    fill_slacks(boxed, order, duals, &mut work.slacks);
    work.blockers.fill(None);
    climb(
        boxed,
        order,
        duals,
        &mut work.slacks,
        &mut work.blockers,
        apart,
    );
}

// Rounds up to the first that changes nothing.
fn climb(
    boxed: &PreparedBox<'_>,
    order: &LaneOrder,
    duals: &mut Duals,
    slacks: &mut [i128],
    blockers: &mut [Option<u32>],
    apart: Option<usize>,
)
    requires valid { IsValid boxed.now.instance }
    requires order { IsOrderOf order.now boxed.now.instance }
    requires tame { AreTame boxed.now.instance duals.old }
    requires slacks { AreSlacks boxed.now.instance boxed.now.path duals.old slacks.old }
    requires blockers { AreBlockers boxed.now.instance boxed.now.path duals.old blockers.old }
    ensures climbed { IsClimbed boxed.now.instance boxed.now.path (picked boxed.now.instance apart) duals.old duals.new }
    ensures slacks { AreSlacks boxed.now.instance boxed.now.path duals.new slacks.new }
{
    'rounds: while round(boxed, order, duals, slacks, blockers, apart) {}
}

// One round, and whether a dual rose.
fn round(
    boxed: &PreparedBox<'_>,
    order: &LaneOrder,
    duals: &mut Duals,
    slacks: &mut [i128],
    blockers: &mut [Option<u32>],
    apart: Option<usize>,
) -> bool
    requires valid { IsValid boxed.now.instance }
    requires order { IsOrderOf order.now boxed.now.instance }
    requires tame { AreTame boxed.now.instance duals.old }
    requires slacks { AreSlacks boxed.now.instance boxed.now.path duals.old slacks.old }
    requires blockers { AreBlockers boxed.now.instance boxed.now.path duals.old blockers.old }
    ensures exact { duals.new ≡ round boxed.now.instance boxed.now.path (picked boxed.now.instance apart) duals.old }
    ensures moved { HasMoved boxed.now.instance duals.old duals.new result }
    ensures slacks { AreSlacks boxed.now.instance boxed.now.path duals.new slacks.new }
    ensures blockers { AreBlockers boxed.now.instance boxed.now.path duals.new blockers.new }
{
    let mut risen = false;
    for cust in 0..boxed.instance().custs() {
        if is_picked(apart, cust) {
            risen |= turn(boxed, order, duals, slacks, blockers, cust);
        }
    }
    risen
}

// The customer's turn, and whether its dual rose.
fn turn(
    boxed: &PreparedBox<'_>,
    order: &LaneOrder,
    duals: &mut Duals,
    slacks: &mut [i128],
    blockers: &mut [Option<u32>],
    cust: usize,
) -> bool
    requires valid { IsValid boxed.now.instance }
    requires order { IsOrderOf order.now boxed.now.instance }
    requires tame { AreTame boxed.now.instance duals.old }
    requires slacks { AreSlacks boxed.now.instance boxed.now.path duals.old slacks.old }
    requires blockers { AreBlockers boxed.now.instance boxed.now.path duals.old blockers.old }
    requires customer { cust < length boxed.now.instance.customers }
    ensures exact { duals.new ≡ raised boxed.now.instance boxed.now.path duals.old cust }
    ensures rose { result ≡ not (is_blocked boxed.now.instance boxed.now.path duals.old cust) }
    ensures slacks { AreSlacks boxed.now.instance boxed.now.path duals.new slacks.new }
    ensures blockers { AreBlockers boxed.now.instance boxed.now.path duals.new blockers.new }
{
    if is_still_blocked(boxed, duals, slacks, blockers[cust], cust) {
        return false;
    }
    match look(boxed, order, duals, slacks, cust) {
        Outlook::Blocked(site) => {
            blockers[cust] = site;
            false
        }
        Outlook::Rises(by) => {
            lower_slacks(boxed, order, duals, slacks, cust, by);
            duals.set_v(cust, duals.v(cust) + by);
            true
        }
    }
}

// Whether the site that blocked the customer last blocks it still.
#[inline(always)]
fn is_still_blocked(
    boxed: &PreparedBox<'_>,
    duals: &Duals,
    slacks: &[i128],
    blocker: Option<u32>,
    cust: usize,
) -> bool
    requires valid { IsValid boxed.now.instance }
    requires fit { DualsFit boxed.now.instance duals.now }
    requires slacks { AreSlacks boxed.now.instance boxed.now.path duals.now slacks.now }
    requires blocker { IsBlocker boxed.now.instance boxed.now.path duals.now cust blocker }
    ensures { IsTrue result → is_blocked boxed.now.instance boxed.now.path duals.now cust ≡ true }
{
    match blocker {
        None => false,
        Some(site) => is_spent(boxed, slacks[site as usize], site as usize),
    }
}
