//! The search from a start, and what it comes to.
ghost use Rattle.std.specs.Prelude.{◌≡◌, Some, IfOk, IfSome};
ghost use Rattle.location_terms.specs.Plan.{IsFeasible};
ghost use Rattle.location_terms.specs.Tree.{nodes_of};
ghost use Rattle.lane_order.specs.Order.{IsOrderOf};
ghost use Rattle.tree_search.specs.Answer.{IsSearchStart, IsAnswerTo, claim_in, made_in, plan_in, tree_in};
ghost use Rattle.whatif_session.specs.Booked.{KeepsBook};
ghost use Rattle.whatif_session.specs.Search.{where_judged};

use crate::kept_book::KeptBook;
use crate::starting::Start;
use crate::{Instance, NoMemory};
use branch_tree::Tree;
use lane_order::LaneOrder;
use location_terms::Claim;
use plan_meaning::Plan;
use search_strategy::{Kept, SearchStrategy};
use std::alloc::Global;
use std::mem::drop;
use tree_search::{Answer, Strategy, grow};

/// What a solve came to: its claim, costs in millionths, how many nodes its splits made, and how many the
/// present tree has.
#[derive(Clone, Copy, Debug, PartialEq, Eq)]
pub struct Outcome {
    pub claim: Claim,
    pub made: u32,
    pub nodes: u32,
}

// What a search found, and what it leaves for a later one.
#[derive(Drop)]
pub(crate) struct Found {
    pub(crate) answer: Answer,
    pub(crate) kept: Kept,
    // The book of the answer's tree.
    pub(crate) book: KeptBook,
}

// Searches the instance from a start, with what a former solve left. It fails only where memory runs out.
pub(crate) fn search_from(
    alloc: Global,
    inst: &Instance,
    order: &LaneOrder,
    left: Option<&Kept>,
    start: Start,
    budget: u32,
) -> Result<Found, NoMemory>
    requires order { IsOrderOf order.now inst.now }
    requires start { IsSearchStart inst.now start.tree start.held.items (where_judged start.plan start.cost) budget }
    ensures answer { IfOk result (λ found. IsAnswerTo inst.now start.tree (where_judged start.plan start.cost) budget found.answer) }
    ensures book { IfOk result (λ found. KeepsBook found.book.book inst.now (Some (tree_in found.answer))) }
{
    let Start {
        tree,
        held,
        plan,
        cost,
    } = start;
    let strategy = strategy_near(alloc, inst, order, left, plan.as_ref())?;
    let handed = where_judged(plan, cost);
    let found = grown(alloc, inst, order, strategy, tree, held, handed, budget)?;
    Ok(found)
}

// The strategy of a search, with what a former one left, that seeks plans near this one first, also where it isn't feasible.
fn strategy_near<'a>(
    alloc: Global,
    inst: &'a Instance,
    order: &'a LaneOrder,
    left: Option<&Kept>,
    near: Option<&Plan>,
) -> Result<SearchStrategy<'a>, NoMemory>
    requires { IsOrderOf order.now inst.now }
{
    let mut strategy = SearchStrategy::of(alloc, inst, order, left)?;
    if let Some(plan) = near {
        strategy.hint(plan);
    }
    Ok(strategy)
}

// Grows the tree by a strategy, and keeps what that leaves.
fn grown(
    alloc: Global,
    inst: &Instance,
    order: &LaneOrder,
    strategy: SearchStrategy<'_>,
    tree: Tree,
    held: Vec<bool>,
    handed: Option<Plan>,
    budget: u32,
) -> Result<Found, NoMemory>
    requires order { IsOrderOf order.now inst.now }
    requires start { IsSearchStart inst.now tree held.items handed budget }
    ensures answer { IfOk result (λ found. IsAnswerTo inst.now tree handed budget found.answer) }
    ensures book { IfOk result (λ found. KeepsBook found.book.book inst.now (Some (tree_in found.answer))) }
{
    let (strategy, answer) = grow_by(alloc, inst, order, strategy, tree, held, handed, budget)?;
    found_by(alloc, inst, strategy, answer)
}

// Grows the tree by a strategy of any kind, and hands that back with the answer.
fn grow_by<S: Strategy + Drop>(
    alloc: Global,
    inst: &Instance,
    order: &LaneOrder,
    mut strategy: S,
    tree: Tree,
    held: Vec<bool>,
    handed: Option<Plan>,
    budget: u32,
) -> Result<(S, Answer), NoMemory>
    requires order { IsOrderOf order.now inst.now }
    requires start { IsSearchStart inst.now tree held.items handed budget }
    ensures { IfOk result (λ r. IsAnswerTo inst.now tree handed budget r.1) }
{
    let answer = grow(
        alloc,
        inst,
        order,
        &mut strategy,
        tree,
        &held,
        handed,
        budget,
    )?;
    Ok((strategy, answer))
}

// The answer with what the strategy leaves, and with the book of its tree.
fn found_by(
    alloc: Global,
    inst: &Instance,
    strategy: SearchStrategy<'_>,
    answer: Answer,
) -> Result<Found, NoMemory>
    ensures answer { IfOk result (λ found. found.answer ≡ answer) }
    ensures book { IfOk result (λ found. KeepsBook found.book.book inst.now (Some (tree_in found.answer))) }
{
    let kept = strategy.kept();
    // What is still held at an exit is proved to be dropped there, and this is much.
    drop(strategy);
    let kept = kept?;
    let book = KeptBook::of(alloc, answer.tree(), inst)?;
    Ok(Found { answer, kept, book })
}

// The outcome of an answer for the instance.
pub(crate) fn outcome_of(inst: &Instance, answer: &Answer) -> Outcome
    requires { IfSome (plan_in answer.now) (IsFeasible inst.now) }
    ensures claim { result.claim ≡ claim_in inst.now answer.now }
    ensures made { result.made ≡ made_in answer.now }
    ensures nodes { result.nodes ≡ nodes_of (tree_in answer.now) }
{
    Outcome {
        claim: answer.claim(inst),
        made: answer.made(),
        nodes: answer.tree().nodes(),
    }
}

// The tree and the plan of an answer.
pub(crate) fn parts_of(answer: Answer) -> (Tree, Option<Plan>)
    ensures tree { result.0 ≡ tree_in answer }
    ensures plan { result.1 ≡ plan_in answer }
{
    match answer {
        Answer::Optimal { plan, tree, .. } => (tree, Some(plan)),
        Answer::Infeasible { tree, .. } => (tree, None),
        Answer::Bracket { plan, tree, .. } => (tree, plan),
    }
}

// The plan that is handed to the search: the carried one, where it has a cost.
fn where_judged(carried: Option<Plan>, cost: Option<u64>) -> Option<Plan>
    ensures { result ≡ where_judged carried cost }
{
    match cost {
        Some(_) => carried,
        None => None,
    }
}
