//! The short form of `solve`: a walk over all sets of sites.
ghost use Rattle.std.specs.Prelude.{IfOk};
ghost use Rattle.location_terms.specs.Plain.{IsPlain};
ghost use Rattle.dualoc_cli.specs.Command.{SolveShort};
ghost use Rattle.dualoc_cli.specs.Run.{Run, HasTask};
ghost use Rattle.dualoc_cli.specs.Due.{IsCause};

use crate::reply::{Outcome, Refusal, Reply};
use instance_store::{Instance, NoMemory};
use set_walk::{MAX_WALK_SITES, cheapest_plan};
use std::alloc::Global;

/// What is answered where an instance is to be solved by a walk over all sets of sites.
pub fn solve(alloc: Global, inst: Instance) -> Result<Reply, NoMemory>
    requires { IsPlain inst }
    ensures { IfOk result (λ reply. (r : Run) → HasTask r SolveShort inst → IsCause r reply) }
{
    if inst.sites() > MAX_WALK_SITES {
        return Ok(Reply::Refused(Refusal::ManySites));
    }
    let best = cheapest_plan(alloc, &inst)?;
    Ok(Reply::Reached(Outcome::Optimum(inst, best.plan, best.cost)))
}
