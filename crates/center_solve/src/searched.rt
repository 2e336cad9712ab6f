//! Searches that begin with nothing.
ghost use Rattle.std.specs.Prelude.{None, IfOk};
ghost use Rattle.lane_order.specs.Order.{IsOrderOf};
ghost use Rattle.tree_search.specs.Answer.{IsWithin, IsAnswerTo};
ghost use Rattle.center_solve.specs.Center.{root_of};

use crate::former::Former;
use crate::hint::Hint;
use crate::near::NearStrategy;
use cover_strategy::{CoverStrategy, covering_of, is_count_tight};
use instance_store::{Instance, NoMemory};
use lane_order::LaneOrder;
use plan_search::has_no_caps;
use search_strategy::SearchStrategy;
use std::alloc::Global;
use std::mem::drop;
use tree_search::{Answer, PlainStrategy, Strategy, Tree, grow};

/// What a search of the instance comes to, from the root leaf of zeros and without a plan. What the hint has is proposed
/// first, and it takes over what this search leaves. It fails only where memory runs out.
pub(crate) fn searched_from(
    alloc: Global,
    inst: &Instance,
    budget: u32,
    hint: &mut Hint,
) -> Result<Answer, NoMemory>
    requires { IsWithin inst.now budget }
    ensures { IfOk result (IsAnswerTo inst.now (root_of inst.now) None budget) }
{
    let order = LaneOrder::of(alloc, inst)?;
    let first = SearchStrategy::of(alloc, inst, &order, hint.kept.as_ref())?;
    if hint.near.is_none() && counts(inst) {
        let answer = counted(alloc, inst, &order, first, budget)?;
        hint.take(alloc, inst, budget, &answer)?;
        return Ok(answer);
    }
    // Where a plan for another number of sites is known, it shows the way to one, and no sites need be counted.
    let near = hint.near.take();
    let former = hint.former.as_ref();
    let (first, answer) = retraced(alloc, inst, &order, near, former, first, budget)?;
    let kept = first.kept();
    // What is still held at an exit is proved to be dropped there, and this is much.
    drop(first);
    hint.kept = Some(kept?);
    hint.take(alloc, inst, budget, &answer)?;
    Ok(answer)
}

/// The same for an instance in which nothing costs anything: where few sites may be open, and any of them can serve
/// any number of customers, these are all that is counted.
pub(crate) fn searched_freely(
    alloc: Global,
    inst: &Instance,
    budget: u32,
) -> Result<Answer, NoMemory>
    requires { IsWithin inst.now budget }
    ensures { IfOk result (IsAnswerTo inst.now (root_of inst.now) None budget) }
{
    if !counts(inst) {
        return searched_from(alloc, inst, budget, &mut Hint::none());
    }
    let order = LaneOrder::of(alloc, inst)?;
    let answer = counted(alloc, inst, &order, PlainStrategy, budget)?;
    Ok(answer)
}

// Whether the number of open sites is what makes a plan hard to find.
fn counts(inst: &Instance) -> bool {
    has_no_caps(inst) && is_count_tight(inst)
}

// What a search comes to that also counts sites.
fn counted<S: Strategy + Drop>(
    alloc: Global,
    inst: &Instance,
    order: &LaneOrder,
    first: S,
    budget: u32,
) -> Result<Answer, NoMemory>
    requires order { IsOrderOf order.now inst.now }
    requires within { IsWithin inst.now budget }
    ensures { IfOk result (IsAnswerTo inst.now (root_of inst.now) None budget) }
{
    let sites = covering_of(alloc, inst)?;
    let by_cost = LaneOrder::of(alloc, &sites)?;
    let strategy = CoverStrategy::of(alloc, &sites, &by_cost, inst.count(), first)?;
    let answer = grown(alloc, inst, order, strategy, budget)?;
    Ok(answer)
}

// What a search comes to by another strategy, which is handed back, near these sites, by place, and along this tree.
fn retraced<S: Strategy + Drop>(
    alloc: Global,
    inst: &Instance,
    order: &LaneOrder,
    near: Option<Vec<bool>>,
    former: Option<&Former>,
    first: S,
    budget: u32,
) -> Result<(S, Answer), NoMemory>
    requires order { IsOrderOf order.now inst.now }
    requires within { IsWithin inst.now budget }
    ensures { IfOk result (λ r. IsAnswerTo inst.now (root_of inst.now) None budget r.1) }
{
    let strategy = NearStrategy::of(near, former, first);
    let (strategy, answer) = grown_by(alloc, inst, order, strategy, budget)?;
    Ok((strategy.into_first(), answer))
}

// The same by a strategy of any kind.
fn grown<S: Strategy + Drop>(
    alloc: Global,
    inst: &Instance,
    order: &LaneOrder,
    strategy: S,
    budget: u32,
) -> Result<Answer, NoMemory>
    requires order { IsOrderOf order.now inst.now }
    requires within { IsWithin inst.now budget }
    ensures { IfOk result (IsAnswerTo inst.now (root_of inst.now) None budget) }
{
    let (_strategy, answer) = grown_by(alloc, inst, order, strategy, budget)?;
    Ok(answer)
}

// The same, with the strategy handed back.
fn grown_by<S: Strategy + Drop>(
    alloc: Global,
    inst: &Instance,
    order: &LaneOrder,
    mut strategy: S,
    budget: u32,
) -> Result<(S, Answer), NoMemory>
    requires order { IsOrderOf order.now inst.now }
    requires within { IsWithin inst.now budget }
    ensures { IfOk result (λ r. IsAnswerTo inst.now (root_of inst.now) None budget r.1) }
{
    let tree = Tree::root(alloc, inst)?;
    // A leaf of zeros at scale 1 doesn't close without a target.
    let answer = grow(
        alloc,
        inst,
        order,
        &mut strategy,
        tree,
        &[false],
        None,
        budget,
    )?;
    Ok((strategy, answer))
}
