//! Ascents of duals.
ghost use Rattle.std.specs.Prelude.{◌≡◌, ◌<◌, IfOk, length};
ghost use Rattle.location_terms.specs.Bound.{v_at};
ghost use Rattle.location_terms.specs.Fit.{AreTame};
ghost use Rattle.lane_order.specs.Order.{IsOrderOf};
ghost use Rattle.dual_value.specs.Slacks.{AreSlacks};
ghost use Rattle.dual_ascent.specs.Ascent.{IsBlocked, IsBlockedApart, IsAscended, IsAscendedApart};
ghost use Rattle.dual_ascent.specs.Kept.{Keeps};
ghost use Rattle.dual_ascent.specs.Work.{IsWorkFor};

use crate::climbing::ascend_over;
use crate::{Instance, LaneOrder, NoMemory, Path, Workspace};
use dual_value::{Duals, PreparedBox};
use std::alloc::Global;

/// The dual ascent in the box: each dual below its customer's least level is set to that level, and then
/// the customers' duals rise in the order of the instance, round after round, up to the first round that
/// changes nothing. A dual rises to its customer's next level, or by the least slack of the sites that it
/// reaches if that is less. Duals, levels and slacks are in millionths times the scale. Where this ends,
/// every customer is blocked: no rise of its dual alone gains. The workspace then has the slacks.
/// After Erlenkotter, Operations Research 26 (1978).
pub fn ascend_in(
    boxed: &PreparedBox<'_>,
    order: &LaneOrder,
    work: &mut Workspace,
    duals: &mut Duals,
)
    requires order { IsOrderOf order.now boxed.now.instance }
    requires tame { AreTame boxed.now.instance duals.old }
    requires work { IsWorkFor boxed.now.instance work.old }
    ensures ascended { IsAscended boxed.now.instance boxed.now.path duals.old duals.new }
    ensures keeps { Keeps boxed.now.instance boxed.now.path duals.old duals.new }
    ensures blocked { IsBlocked boxed.now.instance boxed.now.path duals.new }
    ensures slacks { AreSlacks boxed.now.instance boxed.now.path duals.new work.new.slacks }
    ensures work { IsWorkFor boxed.now.instance work.new }
{
    ascend_over(boxed, order, work, duals, None);
}

/// The dual ascent that passes over the customer at place `apart`: that customer's dual stays, and where
/// it ends every other one is blocked. Else it is as `ascend_in`.
pub fn ascend_others_in(
    boxed: &PreparedBox<'_>,
    order: &LaneOrder,
    work: &mut Workspace,
    duals: &mut Duals,
    apart: usize,
)
    requires order { IsOrderOf order.now boxed.now.instance }
    requires tame { AreTame boxed.now.instance duals.old }
    requires work { IsWorkFor boxed.now.instance work.old }
    requires apart { apart < length boxed.now.instance.customers }
    ensures ascended { IsAscendedApart boxed.now.instance boxed.now.path apart duals.old duals.new }
    ensures keeps { Keeps boxed.now.instance boxed.now.path duals.old duals.new }
    ensures stays { v_at duals.new apart ≡ v_at duals.old apart }
    ensures blocked { IsBlockedApart boxed.now.instance boxed.now.path apart duals.new }
    ensures slacks { AreSlacks boxed.now.instance boxed.now.path duals.new work.new.slacks }
    ensures work { IsWorkFor boxed.now.instance work.new }
{
    ascend_over(boxed, order, work, duals, Some(apart));
}

/// The duals to which the ascent in the box of the path leads from these, as `ascend_in` has it. It fails
/// only where memory runs out.
pub fn ascend(
    alloc: Global,
    inst: &Instance,
    order: &LaneOrder,
    path: &Path,
    start: Duals,
) -> Result<Duals, NoMemory>
    requires tame { AreTame inst.now start }
    requires order { IsOrderOf order.now inst.now }
    ensures ascended { IfOk result (λ d. IsAscended inst.now path.now start d) }
    ensures keeps { IfOk result (λ d. Keeps inst.now path.now start d) }
    ensures blocked { IfOk result (λ d. IsBlocked inst.now path.now d) }
{
    let boxed = PreparedBox::of(alloc, inst, path)?;
    let mut work = Workspace::of(alloc, inst)?;
    let mut duals = start;
    ascend_in(&boxed, order, &mut work, &mut duals);
    Ok(duals)
}

/// The duals to which the ascent leads that passes over the customer at place `apart`, as
/// `ascend_others_in` has it. It fails only where memory runs out.
pub fn ascend_others(
    alloc: Global,
    inst: &Instance,
    order: &LaneOrder,
    path: &Path,
    start: Duals,
    apart: usize,
) -> Result<Duals, NoMemory>
    requires tame { AreTame inst.now start }
    requires order { IsOrderOf order.now inst.now }
    requires apart { apart < length inst.now.customers }
    ensures ascended { IfOk result (λ d. IsAscendedApart inst.now path.now apart start d) }
    ensures keeps { IfOk result (λ d. Keeps inst.now path.now start d) }
    ensures stays { IfOk result (λ d. v_at d apart ≡ v_at start apart) }
    ensures blocked { IfOk result (λ d. IsBlockedApart inst.now path.now apart d) }
{
    let boxed = PreparedBox::of(alloc, inst, path)?;
    let mut work = Workspace::of(alloc, inst)?;
    let mut duals = start;
    ascend_others_in(&boxed, order, &mut work, &mut duals, apart);
    Ok(duals)
}
