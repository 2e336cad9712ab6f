//! The command `duals`: the duals to which an ascent raises zeros.
ghost use Rattle.std.specs.Prelude.{IfOk};
ghost use Rattle.dualoc_cli.specs.Command.{ShowDuals};
ghost use Rattle.dualoc_cli.specs.Run.{Run, HasTask};
ghost use Rattle.dualoc_cli.specs.Due.{IsCause};

use crate::reply::{Outcome, Reply};
use dual_ascent::ascend;
use dual_value::{Duals, Path};
use instance_store::{Instance, NoMemory};
use lane_order::LaneOrder;
use std::alloc::Global;

/// What is answered where the duals of an instance are asked for.
pub fn raise(alloc: Global, inst: Instance) -> Result<Reply, NoMemory>
    ensures { IfOk result (λ reply. (r : Run) → HasTask r ShowDuals inst → IsCause r reply) }
{
    let order = LaneOrder::of(alloc, &inst)?;
    let start = Duals::zeros(alloc, &inst, 1)?;
    let duals = ascend(alloc, &inst, &order, &Path::root(alloc), start)?;
    Ok(Reply::Reached(Outcome::Ascent(inst, duals)))
}
