//! Where a search may begin, by a search of an instance that differs in the number of sites that may open.

use crate::former::Former;
use instance_store::{Instance, NoMemory};
use plan_meaning::Plan;
use search_strategy::Kept;
use std::alloc::Global;
use tree_search::Answer;

// The splits of a tree are taken over where it has at most the nodes of the budget divided by this, and where so many
// sites may open that one more or less changes little.
const BUDGET_PART: u32 = 4;

const MANY_SITES: u32 = 8;

/// What former searches left: the last one's plan and the numbers of its first box, and the splits of the last tree that
/// has some. Nothing of it is believed: a search that begins with it comes to an answer that is as good as any.
#[derive(Drop)]
pub struct Hint {
    // The sites that the plan opens, by place, if there is a plan.
    pub(crate) near: Option<Vec<bool>>,
    pub(crate) kept: Option<Kept>,
    pub(crate) former: Option<Former>,
}

impl Hint {
    /// Before the first search.
    pub fn none() -> Hint {
        Hint {
            near: None,
            kept: None,
            former: None,
        }
    }

    /// Takes over the answer to a search of this instance with this budget of nodes. It fails only where memory runs out.
    pub(crate) fn take(
        &mut self,
        alloc: Global,
        inst: &Instance,
        budget: u32,
        answer: &Answer,
    ) -> Result<(), NoMemory> {
        self.near = match plan_of(answer) {
            None => None,
            Some(plan) => Some(flags_of(alloc, inst, plan)?),
        };
        // To retrace a tree may take as many nodes as it has, and is to leave most of the budget.
        let nodes = answer.tree().nodes();
        if nodes > 1 && nodes <= budget / BUDGET_PART && inst.count().1 >= MANY_SITES {
            self.former = Some(Former::of(alloc, answer.tree())?);
        }
        Ok(())
    }
}

fn plan_of(answer: &Answer) -> Option<&Plan> {
    match answer {
        Answer::Optimal { plan, .. } => Some(plan),
        Answer::Infeasible { .. } => None,
        Answer::Bracket { plan, .. } => plan.as_ref(),
    }
}

// Flags the sites of the instance that the plan opens, by place. It fails only where memory runs out.
fn flags_of(alloc: Global, inst: &Instance, plan: &Plan) -> Result<Vec<bool>, NoMemory> {
    let mut flags = Vec::with_capacity(alloc, inst.sites())?;
    for site in 0..inst.sites() {
        flags.push(plan.opens(inst.site_id(site)))?;
    }
    Ok(flags)
}
