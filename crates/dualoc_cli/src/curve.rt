//! The command `curve`: what a plan costs at least for each number of open sites. Each line is printed once
//! its search has ended.
ghost use Rattle.std.specs.Prelude.{◌≡◌, ◌+◌, ◌^◌, ◌≤◌, None, IfOk, IfErr};
ghost use Rattle.shelf_port.specs.Ports.{sink_state};
ghost use Rattle.location_terms.specs.declared.limits.TheConstants.{MAX_SITES};
ghost use Rattle.tree_search.specs.Answer.{IsWithin, IsAnswerTo, IsDecided, most_decisions};
ghost use Rattle.center_solve.specs.Center.{with_exact_count, root_of};
ghost use Rattle.dualoc_cli.specs.Curve.{IsCurveLine, curve_line};
ghost use Rattle.dualoc_cli.specs.Drawing.{HasDrawn, IsUndrawn, IsCurveWhole, IsCurveHalted, IsCurveReply, IsCurveUnanswered};

use crate::halt::Halt;
use crate::reply::{Outcome, Refusal, Reply};
use crate::words::CurveTask;
use center_solve::{Answer, Hint, curve_from, with_exact_count};
use fixed_cost::push_claim;
use instance_store::{Instance, NoMemory};
use location_terms::Claim;
use shelf_port::{Sink, write_whole};
use std::alloc::Global;
use tree_search::budget_in;

/// What is answered where a curve of an instance is to be printed: that it is, behind its lines.
pub fn draw_curve<O: Sink>(
    alloc: Global,
    inst: &Instance,
    asks: CurveTask,
    out: &mut O,
) -> Result<Reply, Halt>
    requires rises { asks.first ≤ asks.last }
    requires few { asks.last ≤ MAX_SITES }
    ensures replied { IfOk result (IsCurveReply inst.now asks.first asks.last asks.given
        (sink_state (O.written out.old) (O.faults out.old) (O.refusals out.old))
        (sink_state (O.written out.new) (O.faults out.new) (O.refusals out.new))) }
    ensures halted { IfErr result (IsCurveUnanswered inst.now asks.first asks.last asks.given
        (sink_state (O.written out.old) (O.faults out.old) (O.refusals out.old))
        (sink_state (O.written out.new) (O.faults out.new) (O.refusals out.new))) }
{
    let Some(budget) = budget_in(inst, asks.given) else {
        return Ok(Reply::Refused(Refusal::LargeBudget));
    };
    draw_lines(alloc, inst, asks.first, asks.last, budget, out)?;
    Ok(Reply::Reached(Outcome::Drawn))
}

// Prints the line of each number of sites.
fn draw_lines<O: Sink>(
    alloc: Global,
    inst: &Instance,
    first: u32,
    last: u32,
    budget: u32,
    out: &mut O,
) -> Result<(), Halt>
    requires rises { first ≤ last }
    requires few { last ≤ MAX_SITES }
    requires within { IsWithin inst.now budget }
    ensures whole { IfOk result (λ done. IsCurveWhole inst.now budget first last
        (sink_state (O.written out.old) (O.faults out.old) (O.refusals out.old))
        (sink_state (O.written out.new) (O.faults out.new) (O.refusals out.new))) }
    ensures halted { IfErr result (IsCurveHalted inst.now budget first last
        (sink_state (O.written out.old) (O.faults out.old) (O.refusals out.old))
        (sink_state (O.written out.new) (O.faults out.new) (O.refusals out.new))) }
{
    let mut hint = Hint::none();
    for more in 0..last + 1 - first {
        draw_line(alloc, inst, first + more, budget, &mut hint, out)?;
    }
    Ok(())
}

// Prints the line of a number of sites. The hint takes over what its search leaves.
fn draw_line<O: Sink>(
    alloc: Global,
    inst: &Instance,
    count: u32,
    budget: u32,
    hint: &mut Hint,
    out: &mut O,
) -> Result<(), Halt>
    requires few { count ≤ MAX_SITES }
    requires within { IsWithin inst.now budget }
    ensures drawn { IfOk result (λ done. HasDrawn inst.now budget count
        (sink_state (O.written out.old) (O.faults out.old) (O.refusals out.old))
        (sink_state (O.written out.new) (O.faults out.new) (O.refusals out.new))) }
    ensures undrawn { IfErr result (IsUndrawn inst.now budget count
        (sink_state (O.written out.old) (O.faults out.old) (O.refusals out.old))
        (sink_state (O.written out.new) (O.faults out.new) (O.refusals out.new))) }
{
    let answer = curve_from(alloc, inst, count, budget, hint)?;
    let line = line(alloc, inst, count, budget, &answer)?;
    write_whole(out, &line)?;
    Ok(())
}

// The line of what a search comes to where a plan opens just so many sites.
fn line(
    alloc: Global,
    inst: &Instance,
    count: u32,
    budget: u32,
    answer: &Answer,
) -> Result<Vec<u8>, NoMemory>
    requires few { count ≤ MAX_SITES }
    requires within { IsWithin inst.now budget }
    requires answer { IsAnswerTo (with_exact_count inst.now count) (root_of (with_exact_count inst.now count)) None budget answer.now }
    requires decided { 2 ^ (most_decisions inst.now + 1) ≤ budget → IsDecided answer.now }
    ensures { IfOk result (λ text. IsCurveLine inst.now budget count text.items) }
{
    let counted = with_exact_count(alloc, inst, count)?;
    // An instance is valid.
    let _sites = counted.sites();
    let text = line_of(
        alloc,
        count,
        answer.claim(&counted),
        answer.tree().nodes(),
        budget,
    )?;
    Ok(text)
}

// The line of a number of sites.
fn line_of(
    alloc: Global,
    count: u32,
    claim: Claim,
    nodes: u32,
    budget: u32,
) -> Result<Vec<u8>, NoMemory>
    ensures { IfOk result (λ text. text.items ≡ curve_line count claim nodes budget) }
{
    let mut text = format!(in alloc; "count {count} ")?.into_bytes();
    push_claim(&mut text, claim)?;
    let tail = match claim {
        Claim::Optimal(_) | Claim::Infeasible => format!(in alloc; "\n")?,
        Claim::Bracket { .. } => format!(in alloc; " nodes {nodes} budget {budget}\n")?,
    };
    text.extend_from_slice(tail.as_bytes())?;
    Ok(text)
}
