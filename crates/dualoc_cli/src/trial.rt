//! The command `trial`: a search of the instance that three numbers stand for.
ghost use Rattle.std.specs.Prelude.{◌≡◌, None, Some, IfOk};
ghost use Rattle.location_terms.specs.Instance.{AreSizes};
ghost use Rattle.dualoc_cli.specs.Command.{command_of};
ghost use Rattle.dualoc_cli.specs.Run.{Run};
ghost use Rattle.dualoc_cli.specs.Session.{row_end};
ghost use Rattle.dualoc_cli.specs.Due.{IsCause};
ghost use Rattle.dualoc_cli.specs.Step.{asked_trial};

use crate::reply::{Outcome, Reply};
use crate::search::found;
use crate::words::TrialNumbers;
use instance_store::NoMemory;
use std::alloc::Global;
use tree_search::budget_in;
use trial_instance::trial;

/// What is answered where the instance of these numbers is to be solved.
pub(crate) fn solve_trial(alloc: Global, numbers: TrialNumbers) -> Result<Reply, NoMemory>
    requires { AreSizes numbers.sites numbers.custs }
    ensures cause { IfOk result (λ reply. (r : Run) → command_of r.words ≡ Some (asked_trial numbers) → IsCause r reply) }
    ensures once { IfOk result (λ reply. row_end reply ≡ None) }
{
    let TrialNumbers { seed, sites, custs } = numbers;
    let inst = trial(alloc, seed, sites as usize, custs as usize)?;
    // The budget where none is given is never past the greatest.
    let budget = budget_in(&inst, None).unwrap();
    let answer = found(alloc, &inst, budget)?;
    // Any one site can serve all customers, so a search always comes to a plan.
    let plan = answer.plan().unwrap();
    Ok(Reply::Reached(Outcome::Tried {
        claim: answer.claim(&inst),
        nodes: answer.tree().nodes(),
        budget,
        opened: plan.site_count(),
    }))
}
