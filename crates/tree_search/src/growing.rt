//! The growth of a tree.
ghost use Rattle.std.specs.Prelude.{◌≡◌, ℕ, ◌+◌, ◌^◌, ◌<◌, ◌≤◌, All, IfOk, IfSome, OnOk, length, slice_get};
ghost use Rattle.location_terms.specs.Instance.{site_ids, customer_ids};
ghost use Rattle.location_terms.specs.Leaf.{LeafFits};
ghost use Rattle.location_terms.specs.Tree.{StandsOn, leaves_of, nodes_of};
ghost use Rattle.lane_order.specs.Order.{IsOrderOf};
ghost use Rattle.tree_search.specs.Answer.{AreHeld, IsSearchStart, IsAnswerTo, cost_in};
ghost use Rattle.tree_search.specs.Best.{Improves};
ghost use Rattle.tree_search.specs.Regrown.{IsKnownLeaf, HaveEnded, IsGrownAt, IsRegrownFrom, Answers};

use crate::Answer;
use crate::incumbent::plan_cost;
use crate::leaf_growth::grow_leaf;
use crate::search::Search;
use branch_tree::{Renewal, Tree};
use instance_store::{Instance, NoMemory};
use lane_order::LaneOrder;
use plan_meaning::Plan;
use std::alloc::Global;
use strategy_port::Strategy;

/// Grows a tree until each leaf closes against the cost of the best plan found, or another split, which
/// makes two nodes, would make more than `budget` in all.
///
/// The strategy proposes duals, plans and splits; whatever it proposes, the answer is as good as said here.
/// A handed plan is feasible, and the answer's plan costs at most as much. `held` says of each leaf of
/// the tree, in preorder, whether it closes against the handed plan's cost, or, where no plan is handed,
/// without a target. Such a leaf stays as it is; each other one is replaced, whatever the budget is. It
/// fails only where memory runs out.
pub fn grow<S: Strategy>(
    alloc: Global,
    inst: &Instance,
    order: &LaneOrder,
    strategy: &mut S,
    tree: Tree,
    held: &[bool],
    plan: Option<Plan>,
    budget: u32,
) -> Result<Answer, NoMemory>
    requires order { IsOrderOf order.now inst.now }
    requires start { IsSearchStart inst.now tree held.now plan budget }
    ensures { IfOk result (IsAnswerTo inst.now tree plan budget) }
{
    // An instance is valid, so that the numbers of nodes are small.
    let _sites = inst.sites();
    let mut search = Search::of(alloc, inst, order, plan)?;
    let (tree, made) = grow_open(&mut search, strategy, tree, held, budget)?;
    answer(search, tree, made)
}

// Goes through the leaves from the first to the last: one that is held stays, and in the place of each
// other one a tree grows. The tree that comes out, and how many nodes its splits made.
fn grow_open<S: Strategy>(
    search: &mut Search<'_>,
    strategy: &mut S,
    tree: Tree,
    held: &[bool],
    budget: u32,
) -> Result<(Tree, u32), NoMemory>
    requires stands { StandsOn tree search.old.best.instance }
    requires fit { All (λ l. LeafFits search.old.best.instance l.1) (leaves_of tree) }
    requires held { AreHeld search.old.best.instance tree (cost_in search.old.best.instance search.old.best.plan) held.now }
    requires few { nodes_of tree + budget + 3 < 2 ^ 32 }
    ensures plan { OnOk result (Improves search.old.best search.new.best) }
    ensures grown { IfOk result (λ r. IsRegrownFrom search.old.best.instance tree search.old.best.plan search.new.best.plan budget r.0 r.1) }
{
    // The instance is valid, and the tree's splits are on its ids.
    let _sites = search.instance().sites();
    let _nodes = tree.nodes();
    let mut made = 0;
    let mut renewal = Renewal::of(tree)?;
    for place in 0..held.len() {
        if held[place] {
            renewal = renewal.stay()?;
            continue;
        }
        let (grown, more) = grow_at(search, strategy, renewal, budget - made)?;
        renewal = grown;
        made += more;
    }
    Ok((renewal.finish()?, made))
}

// Grows a tree in the place of the leaf at hand: how many nodes the splits made.
fn grow_at<S: Strategy>(
    search: &mut Search<'_>,
    strategy: &mut S,
    renewal: Renewal,
    budget: u32,
) -> Result<(Renewal, u32), NoMemory>
    requires sites { renewal.tree.sites ≡ site_ids search.old.best.instance }
    requires customers { renewal.tree.customers ≡ customer_ids search.old.best.instance }
    requires left { 0 < length renewal.ahead }
    requires known { IfSome (slice_get renewal.ahead 0) (λ l. IsKnownLeaf search.old.best.instance l.0 l.1) }
    requires few { nodes_of renewal.tree + budget + 3 < 2 ^ 32 }
    ensures plan { OnOk result (Improves search.old.best search.new.best) }
    ensures grown { IfOk result (λ r. IsGrownAt search.old.best.instance renewal search.old.best.plan search.new.best.plan budget r.0 r.1) }
{
    let (path, duals) = renewal.leaf();
    let growth = grow_leaf(search, strategy, path, duals, budget + 1)?;
    let made = growth.nodes() - 1;
    Ok((renewal.give(growth)?, made))
}

// What the tree and the best plan show.
fn answer(search: Search<'_>, tree: Tree, made: u32) -> Result<Answer, NoMemory>
    requires stands { StandsOn tree search.best.instance }
    requires ended { (budget : ℕ) × HaveEnded search.best.instance search.best.plan budget made tree }
    ensures { IfOk result (λ a. (budget : ℕ) → HaveEnded search.entry.best.instance search.entry.best.plan budget made tree →
        Answers search.entry.best.instance tree search.entry.best.plan made budget a) }
{
    let inst = search.instance();
    let _nodes = tree.nodes();
    let mut bounds = search.bounds();
    if !tree.accepts_by(inst, &mut bounds, search.cost())? {
        let low = tree.low_by(inst, &mut bounds)?;
        let plan = search.into_plan();
        return Ok(Answer::Bracket {
            low,
            plan,
            tree,
            made,
        });
    }
    match search.into_plan() {
        None => Ok(Answer::Infeasible { tree, made }),
        Some(plan) => {
            let cost = plan_cost(inst, &plan);
            Ok(Answer::Optimal {
                plan,
                cost,
                tree,
                made,
            })
        }
    }
}
