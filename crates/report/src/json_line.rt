//! An answer as JSON.
ghost use Rattle.std.specs.Prelude.{◌≡◌, ◌<◌, Some, length, slice_index, IfOk, IfSome};
ghost use Rattle.std.specs.Option.{option_copied};
ghost use Rattle.location_terms.specs.Instance.{IsValid};
ghost use Rattle.location_terms.specs.Plan.{IsFeasible};
ghost use Rattle.number_words.specs.Cost.{micro_text};
ghost use Rattle.report.specs.Figures.{AreGathered};
ghost use Rattle.report.specs.Json.{json_answer, json_text_of};
ghost use Rattle.report.specs.Values.{answer_data, optimal_data, infeasible_data, bracket_data, site_data, sites_data, open_data, ids_data, maybe_data};
ghost use Rattle.serde_json.specs.Data.{string};
ghost use Rattle.serde_json.specs.View.{view};

use crate::served::{ServedRow, served_rows};
use fixed_cost::push_micro;
use instance_store::{CustId, Instance, NoMemory};
use location_terms::Claim;
use plan_meaning::{Plan, fixed_cost};
use serde_json::{Value, json};
use std::alloc::{AllocError, Global};

/// A claim and the plan that comes with it as one line of JSON, without spaces: what is claimed, its
/// cost, and the open sites by ascending id, each with the customers that it serves and its fixed
/// cost. Keys are in the order of the alphabet, ids are numbers, and amounts are texts, in units
/// with six decimals. The cost of a bracket is its high end, or `null`.
///
/// Only want of memory fails.
pub fn json_text(
    alloc: Global,
    inst: &Instance,
    claim: Claim,
    plan: Option<&Plan>,
) -> Result<Vec<u8>, NoMemory>
    requires { IfSome (option_copied plan) (IsFeasible inst.now) }
    ensures { IfOk result (λ text. text.items ≡ json_text_of inst.now claim (option_copied plan.entry)) }
{
    let mut text = answer_text(alloc, inst, claim, plan)?;
    text.extend_from_slice(b"\n")?;
    Ok(text)
}

// The text without the line feed.
fn answer_text(
    alloc: Global,
    inst: &Instance,
    claim: Claim,
    plan: Option<&Plan>,
) -> Result<Vec<u8>, NoMemory>
    requires { IfSome (option_copied plan) (IsFeasible inst.now) }
    ensures { IfOk result (λ text. text.items ≡ json_answer inst.now claim (option_copied plan.entry)) }
{
    let _places = inst.sites();
    let answer = answer_value(alloc, inst, claim, plan)?;
    let text = answer.to_vec(alloc)?;
    Ok(text)
}

fn answer_value(
    alloc: Global,
    inst: &Instance,
    claim: Claim,
    plan: Option<&Plan>,
) -> Result<Value, NoMemory>
    requires { IfSome (option_copied plan) (IsFeasible inst.now) }
    ensures { IfOk result (λ v. view v ≡ answer_data inst.now claim (option_copied plan.entry)) }
{
    match claim {
        Claim::Optimal(cost) => {
            let sites = sites_value(alloc, inst, plan)?;
            Ok(optimal_value(alloc, cost, sites)?)
        }
        Claim::Infeasible => Ok(infeasible_value(alloc)?),
        Claim::Bracket { low, high } => {
            let sites = sites_value(alloc, inst, plan)?;
            Ok(bracket_value(alloc, low, high, sites)?)
        }
    }
}

fn optimal_value(alloc: Global, cost: u64, sites: Value) -> Result<Value, AllocError>
    ensures { IfOk result (λ v. view v ≡ optimal_data cost (view sites)) }
{
    let cost = amount_value(alloc, cost)?;
    json!(in alloc; {"answer": "optimal", "cost": cost, "sites": sites})
}

fn infeasible_value(alloc: Global) -> Result<Value, AllocError>
    ensures { IfOk result (λ v. view v ≡ infeasible_data) }
{
    json!(in alloc; {"answer": "infeasible"})
}

fn bracket_value(
    alloc: Global,
    low: u64,
    high: Option<u64>,
    sites: Value,
) -> Result<Value, AllocError>
    ensures { IfOk result (λ v. view v ≡ bracket_data low high (view sites)) }
{
    let cost = maybe_value(alloc, high)?;
    let low = amount_value(alloc, low)?;
    json!(in alloc; {"answer": "bracket", "cost": cost, "low": low, "sites": sites})
}

fn sites_value(alloc: Global, inst: &Instance, plan: Option<&Plan>) -> Result<Value, NoMemory>
    requires { IfSome (option_copied plan) (IsFeasible inst.now) }
    ensures { IfOk result (λ v. view v ≡ sites_data inst.now (option_copied plan.entry)) }
{
    match plan {
        Some(plan) => open_sites(alloc, inst, plan),
        None => Ok(Value::Array(Vec::new(alloc))),
    }
}

fn open_sites(alloc: Global, inst: &Instance, plan: &Plan) -> Result<Value, NoMemory>
    requires { IsFeasible inst.now plan.now }
    ensures { IfOk result (λ v. view v ≡ sites_data inst.now (Some plan.now)) }
{
    let _places = inst.sites();
    let rows = served_rows(alloc, inst, plan)?;
    let mut sites = Vec::with_capacity(alloc, plan.site_count())?;
    for k in 0..plan.site_count() {
        sites.push(open_site(alloc, inst, plan, &rows, k)?)?;
    }
    Ok(Value::Array(sites))
}

// The open site at place `k` of a plan.
fn open_site(
    alloc: Global,
    inst: &Instance,
    plan: &Plan,
    rows: &[ServedRow],
    k: usize,
) -> Result<Value, AllocError>
    requires place { k < length plan.now.sites }
    requires valid { IsValid inst.now }
    requires feasible { IsFeasible inst.now plan.now }
    requires served { AreGathered inst.now plan.now.serves rows.now }
    ensures { IfOk result (λ v. view v ≡ open_data inst.now plan.now (slice_index plan.now.sites k)) }
{
    let site = plan.site(k);
    let i = inst.site_at(site).unwrap();
    let fixed = fixed_cost(inst, site);
    site_value(alloc, site.number(), fixed, rows[i].custs())
}

// An open site: the customers that it serves, its fixed cost and its id.
fn site_value(alloc: Global, id: u32, fixed: u64, custs: &[CustId]) -> Result<Value, AllocError>
    ensures { IfOk result (λ v. view v ≡ site_data custs.now fixed id) }
{
    let custs = ids_value(alloc, custs)?;
    let fixed = amount_value(alloc, fixed)?;
    json!(in alloc; {"customers": custs, "fixed": fixed, "id": id})
}

fn ids_value(alloc: Global, custs: &[CustId]) -> Result<Value, AllocError>
    ensures { IfOk result (λ v. view v ≡ ids_data custs.now) }
{
    let mut ids = Vec::with_capacity(alloc, custs.len())?;
    for cust in custs {
        ids.push(Value::from(cust.number()))?;
    }
    Ok(Value::Array(ids))
}

fn maybe_value(alloc: Global, amount: Option<u64>) -> Result<Value, AllocError>
    ensures { IfOk result (λ v. view v ≡ maybe_data amount) }
{
    match amount {
        Some(amount) => amount_value(alloc, amount),
        None => Ok(Value::Null),
    }
}

// An amount is a text, since numbers of JSON are read as floating ones by many.
fn amount_value(alloc: Global, micro: u64) -> Result<Value, AllocError>
    ensures { IfOk result (λ v. view v ≡ string (micro_text micro)) }
{
    let mut text = Vec::new(alloc);
    push_micro(&mut text, micro)?;
    let text = String::from_utf8(text).unwrap();
    Ok(Value::String(text))
}
