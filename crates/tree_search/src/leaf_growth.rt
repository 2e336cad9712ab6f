//! The growth of a tree from one leaf.
ghost use Rattle.std.specs.Prelude.{◌≡◌, ◌+◌, ◌^◌, ◌<◌, ◌≤◌, Option, OnOk, IfOk};
ghost use Rattle.location_terms.specs.Plan.{Plan as Meaning};
ghost use Rattle.location_terms.specs.Box.{Path as Decisions};
ghost use Rattle.location_terms.specs.Fit.{DualsFit};
ghost use Rattle.location_terms.specs.Leaf.{LeafFits};
ghost use Rattle.plan_search.specs.InBox.{IsPathOf};
ghost use Rattle.tree_search.specs.Best.{Improves};
ghost use Rattle.tree_search.specs.Working.{IsGrowing, IsGrownPart, steps_left};

use crate::search::Search;
use crate::work::{Worked, work};
use branch_tree::Growth;
use dual_value::{Duals, Path};
use instance_store::NoMemory;
use strategy_port::Strategy;

/// Grows a tree in the place of the leaf with these path and duals, until each leaf closes against the
/// best plan or one split more would give it more than `limit` nodes: all its leaves are done then. It
/// fails only where memory runs out.
pub(crate) fn grow_leaf<'a, S: Strategy>(
    search: &mut Search<'a>,
    strategy: &mut S,
    path: &Path,
    replaced: &Duals,
    limit: u32,
) -> Result<Growth<'a>, NoMemory>
    requires path { IsPathOf search.old.best.instance path.now }
    requires replaced { LeafFits search.old.best.instance replaced.now }
    requires some { 1 ≤ limit }
    requires few { limit + 2 < 2 ^ 32 }
    ensures plan { OnOk result (Improves search.old.best search.new.best) }
    ensures done { IfOk result (λ g. g.left ≡ 0) }
    ensures grown { IfOk result (λ g. IsGrownPart search.old.best.instance path.now replaced.now search.old.best.plan search.new.best.plan limit g.tree) }
{
    let base = path.copied()?;
    let duals = replaced.copied()?;
    let mut growth = Growth::of(search.alloc, search.instance(), base, duals)?;
    while !growth.is_done() {
        step(search, strategy, replaced, &mut growth, limit)?;
    }
    Ok(growth)
}

// Works the leaf at work, and splits it or is done with it.
fn step<S: Strategy>(
    search: &mut Search<'_>,
    strategy: &mut S,
    replaced: &Duals,
    growth: &mut Growth<'_>,
    limit: u32,
) -> Result<(), NoMemory>
    requires replaced { DualsFit search.old.best.instance replaced.now }
    requires few { limit + 2 < 2 ^ 32 }
    requires left { 0 < growth.old.left }
    requires growing { (base : Decisions) × (handed : Option Meaning) × IsGrowing search.old.best.instance base replaced.now handed search.old.best.plan limit growth.old }
    ensures plan { OnOk result (Improves search.old.best search.new.best) }
    ensures growing { OnOk result ((base : Decisions) (handed : Option Meaning) →
        IsGrowing search.old.best.instance base replaced.now handed search.old.best.plan limit growth.old →
        IsGrowing search.old.best.instance base replaced.now handed search.new.best.plan limit growth.new) }
    ensures less { OnOk result (steps_left limit growth.new < steps_left limit growth.old) }
{
    // An instance is valid, so that no decision lowers a bound.
    let _sites = search.instance().sites();
    let may_split = growth.nodes() + 2 <= limit;
    let worked = work(
        search,
        strategy,
        growth.path(),
        replaced,
        growth.duals(),
        may_split,
    )?;
    let Worked { duals, split } = worked;
    match split {
        None => {
            growth.set_duals(duals);
            growth.finish();
        }
        Some(split) => {
            let first = duals.copied()?;
            growth.split(split, first, duals)?;
        }
    }
    Ok(())
}
