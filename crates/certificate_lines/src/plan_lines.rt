//! The lines of a plan: its open sites, and the site of each customer.

ghost use Rattle.std.specs.Prelude.{◌≡◌, ℕ, true, List, [], length, map, zip, IsNone, IfOk};
ghost use Rattle.std.specs.List.{list_all};
ghost use Rattle.std.specs.List.Sorted.{IsStrictlyIncreasing};
ghost use Rattle.location_terms.specs.Instance.{customer_ids};
ghost use Rattle.location_terms.specs.declared.claim.Claim.{Claim};
ghost use Rattle.number_words.specs.Number.{is_number};
ghost use Rattle.certificate_lines.specs.Due.{NodeDue, PlanShown};
ghost use Rattle.certificate_lines.specs.Model.{AnswersDue, Answers};
ghost use Rattle.certificate_lines.specs.Head.{numbers, unless_found};
ghost use Rattle.certificate_lines.specs.Lines.{then_due, behind_first, ids, is_id, plan_from, read_open, read_serve};

use crate::head::sites_fault;
use crate::row::{Count, behind_first, row_fault, site_list};
use crate::row_checks::{fault_of, servers_checked};
use crate::{CertKind, Due, LineFault, Shown};
use dual_value::Path;
use instance_store::{Instance, NoMemory};
use location_terms::{Claim, CustId, SiteId};
use plan_meaning::Plan;
use std::alloc::Global;

/// Reads the open sites of the plan. A line without a fault is not read only where memory runs out.
pub(crate) fn read_open(
    alloc: Global,
    inst: &Instance,
    claim: Claim,
    line: &[u8],
) -> Result<Due, LineFault>
    ensures { AnswersDue result (read_open inst.now claim line.now) }
{
    match sites_fault(inst, line, b"open") {
        Some(kind) => Err(LineFault::Line(kind)),
        None => Ok(Due::Serve(claim, site_list(alloc, line)?)),
    }
}

/// Reads the site of each customer, and makes the plan that opens `sites`. A line without a fault is
/// not read only where memory runs out.
pub(crate) fn read_serve(
    alloc: Global,
    inst: &Instance,
    claim: Claim,
    sites: Vec<SiteId>,
    line: &[u8],
) -> Result<(Due, Shown), LineFault>
    requires { IsStrictlyIncreasing sites.items }
    ensures { Answers result (read_serve inst.now claim sites.items line.now) }
{
    match serve_fault(inst, line) {
        Some(kind) => Err(LineFault::Line(kind)),
        None => {
            let serves = serve_list(alloc, inst, line)?;
            let plan = Plan::new(sites, serves).unwrap();
            let node = Due::Node(claim, Path::root(alloc));
            Ok((node, Shown::Plan(claim, plan)))
        }
    }
}

// The fault of a line that is to give a site for each customer.
fn serve_fault(inst: &Instance, line: &[u8]) -> Option<CertKind>
    ensures said { (claim : Claim) (sites : List ℕ) → read_serve inst.now claim sites line.now ≡ unless_found result (then_due (NodeDue claim []) (PlanShown claim (plan_from inst.now sites (ids (numbers (behind_first line.now)))))) }
    ensures numbers { IsNone result → list_all is_number (behind_first line.now) ≡ true }
    ensures ids { IsNone result → list_all is_id (numbers (behind_first line.now)) ≡ true }
    ensures count { IsNone result → length (behind_first line.now) ≡ length inst.now.customers }
{
    match row_fault(line, b"serve", Count::Just(inst.custs())) {
        Some(kind) => Some(kind),
        None => fault_of(servers_checked(inst, behind_first(line))),
    }
}

// Each customer with the site that the line gives for it.
fn serve_list(
    alloc: Global,
    inst: &Instance,
    line: &[u8],
) -> Result<Vec<(CustId, SiteId)>, NoMemory>
    requires numbers { list_all is_number (behind_first line.now) ≡ true }
    requires ids { list_all is_id (numbers (behind_first line.now)) ≡ true }
    requires count { length (behind_first line.now) ≡ length inst.now.customers }
    ensures exact { IfOk result (λ v. v.items ≡ zip (customer_ids inst.now) (ids (numbers (behind_first line.now)))) }
    ensures rising { IfOk result (λ v. IsStrictlyIncreasing (map (λ s. s.0) v.items)) }
{
    let servers = site_list(alloc, line)?;
    let mut serves = Vec::with_capacity(alloc, inst.custs())?;
    for j in 0..servers.len() {
        serves.push((inst.cust_id(j), servers[j]))?;
    }
    Ok(serves)
}
