//! The order in which the customers take their lanes.
ghost use Rattle.std.specs.Prelude.{IfOk};
ghost use Rattle.plan_search.specs.Turns.{AreTurns};

use instance_store::{Instance, NoMemory};
use location_terms::MAX_AMOUNT;
use std::alloc::Global;

/// The turn of a customer. Turns are ordered by falling demand, and by place where it is the same.
#[derive(Clone, Copy, Debug, PartialEq, Eq, PartialOrd, Ord)]
pub(crate) struct Turn {
    // How far the demand is below the greatest amount, in millionths.
    short: u64,
    /// The place of the customer.
    pub(crate) cust: u32,
}

/// The turns of all customers in order. It fails only where memory runs out.
pub(crate) fn turns(alloc: Global, inst: &Instance) -> Result<Vec<Turn>, NoMemory>
    ensures { IfOk result (λ turns. AreTurns inst.now turns.items) }
{
    let mut turns = Vec::with_capacity(alloc, inst.custs())?;
    for cust in 0..inst.custs() {
        turns.push(Turn {
            short: MAX_AMOUNT - inst.demand(cust),
            cust: cust as u32,
        })?;
    }
    turns.sort_unstable();
    Ok(turns)
}
