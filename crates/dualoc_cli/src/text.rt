//! The texts of replies.
ghost use Rattle.std.specs.Prelude.{◌≡◌, ◌++◌, IfOk, codes, decimal};
ghost use Rattle.number_words.specs.Cost.{micro_text};
ghost use Rattle.center_text.specs.CenterText.{radius_text};
ghost use Rattle.dualoc_cli.specs.Reply.{failed_text, refused_text, outcome_text, text_of, result_line, center_line, no_text, CanBePrinted, IsPrintable};

use crate::reply::{CenterEnd, Outcome, Port, Refusal, Reply};
use center_text::{RadiusClaim, push_radius};
use certificate_check::{CertKind, Verdict, Why};
use fixed_cost::{FileFault, push_claim, push_micro};
use instance_store::NoMemory;
use location_terms::Claim;
use number_words::push_number;
use plan_meaning::PlanFault;
use range_scan::Range;
use report::{duals_text, plan_text};
use std::alloc::Global;

/// The text of a reply, as it is printed.
///
/// Only want of memory fails.
pub fn reply_text(alloc: Global, reply: &Reply) -> Result<Vec<u8>, NoMemory>
    requires { IsPrintable reply.now }
    ensures { IfOk result (λ text. text.items ≡ text_of reply.now) }
{
    match reply {
        Reply::NoCommand => line(alloc, b"usage\n"),
        Reply::Failed(port) => failed(alloc, *port),
        Reply::Refused(refusal) => refused(alloc, *refusal),
        Reply::Reached(outcome) => reached(alloc, outcome),
    }
}

fn failed(alloc: Global, port: Port) -> Result<Vec<u8>, NoMemory>
    ensures { IfOk result (λ text. text.items ≡ failed_text port) }
{
    match port {
        Port::Instance | Port::Certificate | Port::Input => line(alloc, b"read fault\n"),
        Port::Result | Port::New | Port::Center => line(alloc, b"write fault\n"),
    }
}

fn refused(alloc: Global, refusal: Refusal) -> Result<Vec<u8>, NoMemory>
    ensures { IfOk result (λ text. text.items ≡ refused_text refusal) }
{
    match refusal {
        Refusal::LongInstance => line(alloc, b"too large instance\n"),
        Refusal::Faulty(fault) => faulty(alloc, fault),
        Refusal::ManySites => line(alloc, b"too large sites\n"),
        Refusal::LargeBudget => line(alloc, b"too large budget\n"),
        Refusal::LongCertificate => line(alloc, b"too large certificate\n"),
        Refusal::LongLine => line(alloc, b"too large line\n"),
        Refusal::LongInput => line(alloc, b"too large input\n"),
        Refusal::NoSite => line(alloc, b"refused NoSite\n"),
        Refusal::NoCustomer => line(alloc, b"refused NoCustomer\n"),
        Refusal::NoLane => line(alloc, b"refused NoLane\n"),
    }
}

fn reached(alloc: Global, outcome: &Outcome) -> Result<Vec<u8>, NoMemory>
    requires { CanBePrinted outcome.now }
    ensures { IfOk result (λ text. text.items ≡ outcome_text outcome.now) }
{
    match outcome {
        Outcome::Optimum(inst, plan, cost) => {
            plan_text(alloc, inst, Claim::Optimal(*cost), Some(plan))
        }
        Outcome::Searched {
            claim,
            nodes,
            budget,
        } => searched(alloc, *claim, *nodes, *budget),
        Outcome::Tried {
            claim,
            nodes,
            budget,
            opened,
        } => tried(alloc, *claim, *nodes, *budget, *opened),
        Outcome::Ascent(inst, duals) => duals_text(alloc, inst, duals),
        Outcome::Misspelt(kind, number) => misspelt(alloc, *kind, *number),
        Outcome::Judged(verdict) => judged(alloc, *verdict),
        Outcome::Converted { sites, custs } => converted(alloc, *sites, *custs),
        Outcome::Ranged(range) => ranged(alloc, *range),
        Outcome::NoOptimalClaim => line(alloc, b"no OptimalClaim\n"),
        Outcome::Centered(end) => centered(alloc, *end),
        Outcome::Ended | Outcome::Drawn => Ok(Vec::new(alloc)),
    }
}

fn line(alloc: Global, text: &[u8]) -> Result<Vec<u8>, NoMemory>
    ensures { IfOk result (λ line. line.items ≡ text.now) }
{
    Ok(Vec::from_slice(alloc, text)?)
}

fn faulty(alloc: Global, fault: FileFault) -> Result<Vec<u8>, NoMemory>
    ensures { IfOk result (λ text. text.items ≡ refused_text (Refusal.Faulty fault)) }
{
    Ok(format!(in alloc; "bad input {fault}\n")?.into_bytes())
}

fn searched(alloc: Global, claim: Claim, nodes: u32, budget: u32) -> Result<Vec<u8>, NoMemory>
    ensures { IfOk result (λ text. text.items ≡ result_line claim nodes budget) }
{
    let mut text = Vec::new(alloc);
    push_claim(&mut text, claim)?;
    let tail = match claim {
        Claim::Optimal(_) | Claim::Infeasible => format!(in alloc; " nodes {nodes}\n")?,
        Claim::Bracket { .. } => format!(in alloc; " nodes {nodes} budget {budget}\n")?,
    };
    text.extend_from_slice(tail.as_bytes())?;
    Ok(text)
}

fn tried(
    alloc: Global,
    claim: Claim,
    nodes: u32,
    budget: u32,
    sites: usize,
) -> Result<Vec<u8>, NoMemory>
    ensures { IfOk result (λ text. text.items ≡ outcome_text (Outcome.Tried claim nodes budget sites)) }
{
    let mut text = searched(alloc, claim, nodes, budget)?;
    let tail = format!(in alloc; "open {sites}\n")?;
    text.extend_from_slice(tail.as_bytes())?;
    Ok(text)
}

fn misspelt(alloc: Global, kind: CertKind, line: u64) -> Result<Vec<u8>, NoMemory>
    ensures { IfOk result (λ text. text.items ≡ outcome_text (Outcome.Misspelt kind line)) }
{
    let name = kind.name();
    Ok(format!(in alloc; "no {name} line {line}\n")?.into_bytes())
}

fn judged(alloc: Global, verdict: Verdict) -> Result<Vec<u8>, NoMemory>
    ensures { IfOk result (λ text. text.items ≡ outcome_text (Outcome.Judged verdict)) }
{
    match verdict {
        Verdict::Yes(claim) => yes(alloc, claim),
        Verdict::No { line, why } => no(alloc, line, why),
    }
}

fn yes(alloc: Global, claim: Claim) -> Result<Vec<u8>, NoMemory>
    ensures { IfOk result (λ text. text.items ≡ outcome_text (Outcome.Judged (Verdict.Yes claim))) }
{
    let mut text = Vec::from_slice(alloc, b"yes ")?;
    push_claim(&mut text, claim)?;
    text.extend_from_slice(b"\n")?;
    Ok(text)
}

fn no(alloc: Global, line: u64, why: Why) -> Result<Vec<u8>, NoMemory>
    ensures { IfOk result (λ text. text.items ≡ no_text line why) }
{
    match why {
        Why::PlanRefused(fault) => plan_refused(alloc, line, fault),
        Why::CostDiffers { found } => differs(alloc, line, found),
        Why::LeafOpen { bound, q } => open(alloc, line, bound, q),
    }
}

fn plan_refused(alloc: Global, line: u64, fault: PlanFault) -> Result<Vec<u8>, NoMemory>
    ensures { IfOk result (λ text. text.items ≡ no_text line (Why.PlanRefused fault)) }
{
    let name = fault.name();
    Ok(format!(in alloc; "no PlanRefused line {line} {name}\n")?.into_bytes())
}

fn differs(alloc: Global, line: u64, found: u64) -> Result<Vec<u8>, NoMemory>
    ensures { IfOk result (λ text. text.items ≡ no_text line (Why.CostDiffers found)) }
{
    let mut text = format!(in alloc; "no CostDiffers line {line} found ")?.into_bytes();
    push_micro(&mut text, found)?;
    text.extend_from_slice(b"\n")?;
    Ok(text)
}

fn open(alloc: Global, line: u64, bound: i128, q: u32) -> Result<Vec<u8>, NoMemory>
    ensures { IfOk result (λ text. text.items ≡ no_text line (Why.LeafOpen bound q)) }
{
    let mut text = format!(in alloc; "no LeafOpen line {line} bound ")?.into_bytes();
    push_number(&mut text, bound)?;
    let scale = format!(in alloc; " scale {q}\n")?;
    text.extend_from_slice(scale.as_bytes())?;
    Ok(text)
}

fn converted(alloc: Global, sites: usize, custs: usize) -> Result<Vec<u8>, NoMemory>
    ensures { IfOk result (λ text. text.items ≡ outcome_text (Outcome.Converted sites custs)) }
{
    Ok(format!(in alloc; "converted sites {sites} customers {custs}\n")?.into_bytes())
}

fn ranged(alloc: Global, range: Range) -> Result<Vec<u8>, NoMemory>
    ensures { IfOk result (λ text. text.items ≡ outcome_text (Outcome.Ranged range)) }
{
    let mut text = Vec::from_slice(alloc, b"range ")?;
    push_micro(&mut text, range.least)?;
    text.extend_from_slice(b" ")?;
    push_micro(&mut text, range.greatest)?;
    text.extend_from_slice(b"\n")?;
    Ok(text)
}

fn centered(alloc: Global, end: CenterEnd) -> Result<Vec<u8>, NoMemory>
    ensures { IfOk result (λ text. text.items ≡ center_line end) }
{
    match end {
        CenterEnd::Best(radius) => center(alloc, radius),
        CenterEnd::Infeasible => line(alloc, b"infeasible\n"),
        CenterEnd::Open {
            low,
            high,
            at,
            nodes,
            budget,
        } => open_center(alloc, RadiusClaim::Bracket { low, high }, at, nodes, budget),
    }
}

fn center(alloc: Global, radius: u64) -> Result<Vec<u8>, NoMemory>
    ensures { IfOk result (λ text. text.items ≡ center_line (CenterEnd.Best radius)) }
{
    let mut text = Vec::from_slice(alloc, b"center ")?;
    push_micro(&mut text, radius)?;
    text.extend_from_slice(b"\n")?;
    Ok(text)
}

fn open_center(
    alloc: Global,
    claim: RadiusClaim,
    at: u64,
    nodes: u32,
    budget: u32,
) -> Result<Vec<u8>, NoMemory>
    ensures { IfOk result (λ text. text.items ≡ radius_text claim ++ codes " at " ++ micro_text at ++ codes " nodes " ++ decimal nodes ++ codes " budget " ++ decimal budget ++ codes "\n") }
{
    let mut text = Vec::new(alloc);
    push_radius(&mut text, claim)?;
    text.extend_from_slice(b" at ")?;
    push_micro(&mut text, at)?;
    let tail = format!(in alloc; " nodes {nodes} budget {budget}\n")?;
    text.extend_from_slice(tail.as_bytes())?;
    Ok(text)
}
