//! The plan text.
ghost use Rattle.std.specs.Prelude.{◌≡◌, ◌++◌, ◌<◌, length, IfOk, OnOk, IfSome, flat_map};
ghost use Rattle.std.specs.Option.{option_copied};
ghost use Rattle.location_terms.specs.Instance.{IsValid};
ghost use Rattle.location_terms.specs.Plan.{IsFeasible};
ghost use Rattle.plan_meaning.specs.Plan.{serve_at};
ghost use Rattle.report.specs.PlanText.{plan_text_of, site_line, serve_line};

use fixed_cost::{push_claim, push_micro};
use instance_store::{Instance, NoMemory};
use location_terms::Claim;
use number_words::push_count;
use plan_meaning::{Plan, fixed_cost, lane_used};
use std::alloc::{AllocError, Global};

/// The text of a claim and of the plan that comes with it: a line for each open site, then one for
/// each customer, both by ascending id. Costs are in units with six decimals.
///
/// Only want of memory fails.
pub fn plan_text(
    alloc: Global,
    inst: &Instance,
    claim: Claim,
    plan: Option<&Plan>,
) -> Result<Vec<u8>, NoMemory>
    requires { IfSome (option_copied plan) (IsFeasible inst.now) }
    ensures { IfOk result (λ text. text.items ≡ plan_text_of inst.now claim (option_copied plan.entry)) }
{
    let mut text = Vec::from_slice(alloc, b"dualoc-plan 1\n")?;
    push_claim(&mut text, claim)?;
    text.extend_from_slice(b"\n")?;
    if let Some(plan) = plan {
        push_sites(&mut text, inst, plan)?;
        push_serves(&mut text, inst, plan)?;
    }
    text.extend_from_slice(b"end\n")?;
    Ok(text)
}

fn push_sites(text: &mut Vec<u8>, inst: &Instance, plan: &Plan) -> Result<(), AllocError>
    requires { IsFeasible inst.now plan.now }
    ensures { OnOk result (text.new.items ≡ text.old.items ++ flat_map (site_line inst.now) plan.now.sites) }
{
    let _places = inst.sites();
    for k in 0..plan.site_count() {
        let site = plan.site(k);
        text.extend_from_slice(b"site ")?;
        push_count(text, u64::from(site.number()))?;
        text.extend_from_slice(b" ")?;
        push_micro(text, fixed_cost(inst, site))?;
        text.extend_from_slice(b"\n")?;
    }
    Ok(())
}

fn push_serves(text: &mut Vec<u8>, inst: &Instance, plan: &Plan) -> Result<(), AllocError>
    requires { IsFeasible inst.now plan.now }
    ensures { OnOk result (text.new.items ≡ text.old.items ++ flat_map (serve_line inst.now) plan.now.serves) }
{
    let _places = inst.sites();
    for k in 0..plan.serve_count() {
        push_serve(text, inst, plan, k)?;
    }
    Ok(())
}

fn push_serve(text: &mut Vec<u8>, inst: &Instance, plan: &Plan, k: usize) -> Result<(), AllocError>
    requires place { k < length plan.now.serves }
    requires valid { IsValid inst.now }
    requires feasible { IsFeasible inst.now plan.now }
    ensures { OnOk result (text.new.items ≡ text.old.items ++ serve_line inst.now (serve_at plan.now k)) }
{
    let (cust, site) = plan.serve(k);
    let cost = lane_used(inst, plan, k).unwrap_or(0);
    text.extend_from_slice(b"serve ")?;
    push_count(text, u64::from(cust.number()))?;
    text.extend_from_slice(b" ")?;
    push_count(text, u64::from(site.number()))?;
    text.extend_from_slice(b" ")?;
    push_micro(text, cost)?;
    text.extend_from_slice(b"\n")
}
