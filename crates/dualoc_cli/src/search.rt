//! The long form of `solve`: a search of the instance, whose plan and certificate go to two files.
ghost use Rattle.std.specs.Prelude.{◌≡◌, IfOk, IfSome};
ghost use Rattle.shelf_port.specs.Files.{NeverFalls};
ghost use Rattle.shelf_port.specs.Ports.{shelf_state};
ghost use Rattle.location_terms.specs.Plan.{IsFeasible};
ghost use Rattle.lane_order.specs.Order.{IsOrderOf};
ghost use Rattle.tree_search.specs.Answer.{IsWithin, certificate_in, plan_in};
ghost use Rattle.certificate_text.specs.Cert.{certificate_lent};
ghost use Rattle.dualoc_cli.specs.Command.{SolveLong};
ghost use Rattle.dualoc_cli.specs.Reply.{status_of};
ghost use Rattle.dualoc_cli.specs.Run.{HasTask};
ghost use Rattle.dualoc_cli.specs.Search.{HasSearch, IsFound, HasBegun};
ghost use Rattle.dualoc_cli.specs.Due.{KeepsFiles, IsCause, IsRefusalStatus};
ghost use Rattle.dualoc_cli.specs.Step.{asked_result, InRuns};

use crate::reply::{Outcome, Port, Refusal, Reply};
use crate::words::ResultFiles;
use certificate_text::{CertificateRef, write_cert};
use instance_store::{Instance, NoMemory};
use lane_order::LaneOrder;
use report::plan_text;
use search_strategy::SearchStrategy;
use shelf_port::{PutFault, Shelf, put_whole};
use std::alloc::Global;
use tree_search::{Answer, Strategy, Tree, budget_in, grow};

/// What is answered where an instance is to be solved by a search, with this budget of nodes or with
/// one of its own, and the result to be left in these files.
pub fn search<H: Shelf>(
    alloc: Global,
    inst: &Instance,
    into: ResultFiles<'_>,
    given: Option<u32>,
    shelf: &mut H,
) -> Result<Reply, NoMemory>
    ensures cause { IfOk result (λ reply. InRuns (λ r. HasTask r (SolveLong (asked_result into.entry) given) inst.now)
        (shelf_state (H.files shelf.old) (H.read_faults shelf.old) (H.write_faults shelf.old))
        (shelf_state (H.files shelf.new) (H.read_faults shelf.new) (H.write_faults shelf.new))
        (λ r. IsCause r reply)) }
    ensures keeps { InRuns (λ r. HasTask r (SolveLong (asked_result into.entry) given) inst.now)
        (shelf_state (H.files shelf.old) (H.read_faults shelf.old) (H.write_faults shelf.old))
        (shelf_state (H.files shelf.new) (H.read_faults shelf.new) (H.write_faults shelf.new))
        (λ r. KeepsFiles r (SolveLong (asked_result into.entry) given)) }
    ensures untouched { IfOk result (λ reply. IsRefusalStatus (status_of reply) → H.files shelf.new ≡ H.files shelf.old) }
    ensures reads { NeverFalls (H.read_faults shelf.old) (H.read_faults shelf.new) }
    ensures writes { NeverFalls (H.write_faults shelf.old) (H.write_faults shelf.new) }
{
    let Some(budget) = budget_in(inst, given) else {
        return Ok(Reply::Refused(Refusal::LargeBudget));
    };
    let answer = found(alloc, inst, budget)?;
    let cert = CertificateRef {
        claim: answer.claim(inst),
        plan: answer.plan(),
        tree: answer.tree(),
    };
    leave(alloc, inst, into, &cert, budget, shelf)
}

/// What a search of the instance comes to, from one leaf of zeros and without a plan.
pub fn found(alloc: Global, inst: &Instance, budget: u32) -> Result<Answer, NoMemory>
    requires { IsWithin inst.now budget }
    ensures found { IfOk result (λ answer. IsFound inst.now budget (certificate_in inst.now answer)) }
    ensures feasible { IfOk result (λ answer. IfSome (plan_in answer) (IsFeasible inst.now)) }
{
    let order = LaneOrder::of(alloc, inst)?;
    let strategy = SearchStrategy::of(alloc, inst, &order, None)?;
    let answer = grown(alloc, inst, &order, strategy, budget)?;
    Ok(answer)
}

// The same, by a strategy of any kind.
fn grown<S: Strategy + Drop>(
    alloc: Global,
    inst: &Instance,
    order: &LaneOrder,
    mut strategy: S,
    budget: u32,
) -> Result<Answer, NoMemory>
    requires order { IsOrderOf order.now inst.now }
    requires within { IsWithin inst.now budget }
    ensures found { IfOk result (λ answer. IsFound inst.now budget (certificate_in inst.now answer)) }
    ensures feasible { IfOk result (λ answer. IfSome (plan_in answer) (IsFeasible inst.now)) }
{
    let _places = inst.sites();
    let tree = Tree::root(alloc, inst)?;
    // A leaf of zeros at scale 1 doesn't close without a target.
    let answer = grow(
        alloc,
        inst,
        order,
        &mut strategy,
        tree,
        &[false],
        None,
        budget,
    )?;
    Ok(answer)
}

// Leaves the plan and the certificate in their files, in this order.
fn leave<H: Shelf>(
    alloc: Global,
    inst: &Instance,
    into: ResultFiles<'_>,
    cert: &CertificateRef<'_>,
    budget: u32,
    shelf: &mut H,
) -> Result<Reply, NoMemory>
    requires { IsFound inst.now budget (certificate_lent cert.now) }
    ensures cause { IfOk result (λ reply. InRuns (λ r. HasSearch r (asked_result into.entry) inst.now budget)
        (shelf_state (H.files shelf.old) (H.read_faults shelf.old) (H.write_faults shelf.old))
        (shelf_state (H.files shelf.new) (H.read_faults shelf.new) (H.write_faults shelf.new))
        (λ r. IsCause r reply)) }
    ensures begun { InRuns (λ r. HasSearch r (asked_result into.entry) inst.now budget)
        (shelf_state (H.files shelf.old) (H.read_faults shelf.old) (H.write_faults shelf.old))
        (shelf_state (H.files shelf.new) (H.read_faults shelf.new) (H.write_faults shelf.new))
        (λ r. HasBegun r (asked_result into.entry)) }
    ensures result { IfOk result (λ reply. IsRefusalStatus (status_of reply) → ⊥) }
    ensures reads { NeverFalls (H.read_faults shelf.old) (H.read_faults shelf.new) }
    ensures writes { NeverFalls (H.write_faults shelf.old) (H.write_faults shelf.new) }
{
    let plan = plan_text(alloc, inst, cert.claim, cert.plan)?;
    match put_whole(shelf, into.plan, &plan) {
        Ok(()) => {}
        Err(PutFault::Failed) => return Ok(Reply::Failed(Port::Result)),
        Err(PutFault::NoMemory) => return Err(NoMemory),
    }
    match write_cert(alloc, shelf, into.certificate, inst, *cert) {
        Ok(()) => Ok(Reply::Reached(Outcome::Searched {
            claim: cert.claim,
            nodes: cert.tree.nodes(),
            budget,
        })),
        Err(PutFault::Failed) => Ok(Reply::Failed(Port::Result)),
        Err(PutFault::NoMemory) => Err(NoMemory),
    }
}
