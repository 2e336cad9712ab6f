//! The site table.
ghost use Rattle.std.specs.Prelude.{◌≡◌, ◌++◌, ◌+◌, ◌<◌, ◌≤◌, ◌*◌, length, slice_index, sum_by, unwrap_or, All, Contains, IfOk, IfSome, OnOk, flat_map};
ghost use Rattle.std.specs.Option.{option_copied};
ghost use Rattle.location_terms.specs.Instance.{IsValid, site_at, customer_ids, demand_of, lane as lane_cost};
ghost use Rattle.location_terms.specs.Plan.{IsFeasible, cost_of};
ghost use Rattle.location_terms.specs.declared.limits.TheConstants.{MAX_AMOUNT, MAX_CUSTOMERS};
ghost use Rattle.number_words.specs.Cost.{micro_text};
ghost use Rattle.number_words.specs.Number.{digits_text};
ghost use Rattle.report.specs.Figures.{AreGathered, figures_line, figures_of, served_part, cost_part};
ghost use Rattle.report.specs.SiteTable.{site_table_of, table_line, spare_text, permille};

use crate::served::{ServedRow, served_rows};
use fixed_cost::push_micro;
use instance_store::{CustId, Instance, NoMemory};
use number_words::{push_count, push_number};
use plan_meaning::{Plan, cost};
use std::alloc::{AllocError, Global};

/// The site table of a plan: a line for each open site, by ascending id, with how many customers it
/// serves, their demands together, what is left of its capacity, what its fixed cost and its lanes
/// cost together, and its share of the whole cost in thousandths, rounded down. Amounts are in units
/// with six decimals. Without a plan the table has no line of a site.
///
/// Only want of memory fails.
pub fn site_table(alloc: Global, inst: &Instance, plan: Option<&Plan>) -> Result<Vec<u8>, NoMemory>
    requires { IfSome (option_copied plan) (IsFeasible inst.now) }
    ensures { IfOk result (λ text. text.items ≡ site_table_of inst.now (option_copied plan.entry)) }
{
    let mut text = Vec::new(alloc);
    if let Some(plan) = plan {
        push_sites(&mut text, alloc, inst, plan)?;
    }
    text.extend_from_slice(b"end\n")?;
    Ok(text)
}

fn push_sites(
    text: &mut Vec<u8>,
    alloc: Global,
    inst: &Instance,
    plan: &Plan,
) -> Result<(), NoMemory>
    requires { IsFeasible inst.now plan.now }
    ensures { IfOk result (λ _. text.new.items ≡ text.old.items ++ flat_map (table_line inst.now plan.now) plan.now.sites) }
{
    let _places = inst.sites();
    let whole = cost(inst, plan);
    let rows = served_rows(alloc, inst, plan)?;
    for k in 0..plan.site_count() {
        push_site(text, inst, plan, &rows, k, whole)?;
    }
    Ok(())
}

// The line of the open site at place `k` of a plan that costs so much.
fn push_site(
    text: &mut Vec<u8>,
    inst: &Instance,
    plan: &Plan,
    rows: &[ServedRow],
    k: usize,
    whole: u64,
) -> Result<(), AllocError>
    requires place { k < length plan.now.sites }
    requires valid { IsValid inst.now }
    requires feasible { IsFeasible inst.now plan.now }
    requires served { AreGathered inst.now plan.now.serves rows.now }
    requires whole { whole ≡ cost_of inst.now plan.now }
    ensures { OnOk result (text.new.items ≡ text.old.items ++ table_line inst.now plan.now (slice_index plan.now.sites k)) }
{
    let site = plan.site(k);
    let i = inst.site_at(site).unwrap();
    let figures = figures_of(inst, i, rows[i].custs());
    push_figures(text, &figures, whole)
}

// What is told of an open site. Amounts are in millionths.
#[derive(Clone, Copy, Debug)]
struct SiteFigures {
    id: u32,
    custs: usize,
    load: u64,
    cap: Option<u64>,
    cost: u64,
}

// The figures of the site at place `i`, which serves these customers.
fn figures_of(inst: &Instance, i: usize, custs: &[CustId]) -> SiteFigures
    requires place { i < length inst.now.sites }
    requires valid { IsValid inst.now }
    requires known { All (Contains (customer_ids inst.now)) custs.now }
    requires few { length custs.now ≤ MAX_CUSTOMERS }
    ensures { result ≡ figures_of inst.now i custs.now }
{
    let id = inst.site_id(i).number();
    let load = demands(inst, custs);
    let cap = inst.cap(i);
    let cost = inst.fixed(i) + lane_costs(inst, i, custs);
    SiteFigures {
        id,
        custs: custs.len(),
        load,
        cap,
        cost,
    }
}

// The demands of these customers, together.
fn demands(inst: &Instance, custs: &[CustId]) -> u64
    requires valid { IsValid inst.now }
    requires known { All (Contains (customer_ids inst.now)) custs.now }
    requires few { length custs.now ≤ MAX_CUSTOMERS }
    ensures { result ≡ sum_by (demand_of inst.now) custs.now }
{
    let mut sum = 0;
    for k in 0..custs.len() {
        let j = inst.cust_at(custs[k]).unwrap();
        sum += inst.demand(j);
    }
    sum
}

// What the lanes from the site at place `i` to these customers cost together.
fn lane_costs(inst: &Instance, i: usize, custs: &[CustId]) -> u64
    requires place { i < length inst.now.sites }
    requires valid { IsValid inst.now }
    requires known { All (Contains (customer_ids inst.now)) custs.now }
    requires few { length custs.now ≤ MAX_CUSTOMERS }
    ensures exact { result ≡ sum_by (λ c. unwrap_or (lane_cost inst.now (site_at inst.now i).id c) 0) custs.now }
    ensures small { result ≤ MAX_CUSTOMERS * MAX_AMOUNT }
{
    let mut sum = 0;
    for k in 0..custs.len() {
        let j = inst.cust_at(custs[k]).unwrap();
        sum += inst.lane(i, j).unwrap_or(0);
    }
    sum
}

// The line of a site in a plan that costs so much.
fn push_figures(text: &mut Vec<u8>, site: &SiteFigures, whole: u64) -> Result<(), AllocError>
    ensures { OnOk result (text.new.items ≡ text.old.items ++ figures_line site.now whole) }
{
    push_served_part(text, site)?;
    push_cost_part(text, site, whole)
}

#[tactic(auto, unfolding(crate::specs::Figures::served_part))]
fn push_served_part(text: &mut Vec<u8>, site: &SiteFigures) -> Result<(), AllocError>
    ensures { OnOk result (text.new.items ≡ text.old.items ++ served_part site.now) }
{
    push_named(text, b"site ", u64::from(site.id))?;
    push_named(text, b" customers ", site.custs as u64)?;
    push_amount(text, b" load ", site.load)?;
    text.extend_from_slice(b" spare ")?;
    push_spare(text, site.cap, site.load)
}

#[tactic(auto, unfolding(crate::specs::Figures::cost_part))]
fn push_cost_part(text: &mut Vec<u8>, site: &SiteFigures, whole: u64) -> Result<(), AllocError>
    ensures { OnOk result (text.new.items ≡ text.old.items ++ cost_part site.now whole) }
{
    push_amount(text, b" cost ", site.cost)?;
    text.extend_from_slice(b" share ")?;
    push_share(text, site.cost, whole)?;
    text.extend_from_slice(b"\n")
}

fn push_amount(text: &mut Vec<u8>, word: &[u8], micro: u64) -> Result<(), AllocError>
    ensures { OnOk result (text.new.items ≡ text.old.items ++ word.now ++ micro_text micro) }
{
    text.extend_from_slice(word)?;
    push_micro(text, micro)
}

fn push_named(text: &mut Vec<u8>, word: &[u8], n: u64) -> Result<(), AllocError>
    ensures { OnOk result (text.new.items ≡ text.old.items ++ word.now ++ digits_text n) }
{
    text.extend_from_slice(word)?;
    push_count(text, n)
}

// What is left of a capacity, or `none` where there is no capacity.
fn push_spare(text: &mut Vec<u8>, cap: Option<u64>, load: u64) -> Result<(), AllocError>
    ensures { OnOk result (text.new.items ≡ text.old.items ++ spare_text cap load) }
{
    match cap {
        Some(cap) => push_micro(text, cap.saturating_sub(load)),
        None => text.extend_from_slice(b"none"),
    }
}

// So much of a whole, in thousandths, rounded down; 0 of nothing.
fn push_share(text: &mut Vec<u8>, part: u64, whole: u64) -> Result<(), AllocError>
    ensures { OnOk result (text.new.items ≡ text.old.items ++ digits_text (permille part whole)) }
{
    if whole == 0 {
        return push_count(text, 0);
    }
    push_number(text, (1000 * u128::from(part) / u128::from(whole)) as i128)
}
