//! The text of a center's plan file.
ghost use Rattle.std.specs.Prelude.{◌≡◌, ◌++◌, IfOk, OnOk, IfSome, codes};
ghost use Rattle.std.specs.Option.{option_copied};
ghost use Rattle.location_terms.specs.Plan.{IsFeasible};
ghost use Rattle.report.specs.PlanText.{plan_report};
ghost use Rattle.center_text.specs.CenterText.{radius_text, center_text_of};

use crate::RadiusClaim;
use fixed_cost::{push_high, push_micro};
use instance_store::{Instance, NoMemory};
use location_terms::Claim;
use plan_meaning::Plan;
use report::plan_text;
use std::alloc::{AllocError, Global};

// With what the plan text of a claim without costs begins.
const PLAN_HEAD: &[u8] = b"dualoc-plan 1\ninfeasible\n";

/// The text of what is known of the best radius and of the plan that comes with it: a line for each open
/// site, then one for each customer, both by ascending id. Costs are those of the instance, in units with
/// six decimals.
///
/// Only want of memory fails.
pub fn center_text(
    alloc: Global,
    inst: &Instance,
    claim: RadiusClaim,
    plan: Option<&Plan>,
) -> Result<Vec<u8>, NoMemory>
    requires { IfSome (option_copied plan) (IsFeasible inst.now) }
    ensures { IfOk result (λ text. text.items ≡ center_text_of inst.now claim (option_copied plan.entry)) }
{
    let mut text = Vec::from_slice(alloc, b"dualoc-center 1\n")?;
    push_radius(&mut text, claim)?;
    text.extend_from_slice(b"\n")?;
    push_plan(alloc, &mut text, inst, plan)?;
    Ok(text)
}

// The lines of the plan and the last one, which are those of its plan text.
fn push_plan(
    alloc: Global,
    text: &mut Vec<u8>,
    inst: &Instance,
    plan: Option<&Plan>,
) -> Result<(), NoMemory>
    requires { IfSome (option_copied plan) (IsFeasible inst.now) }
    ensures { OnOk result (text.new.items ≡ text.old.items ++ (plan_report inst.now (option_copied plan.entry) ++ codes "end\n")) }
{
    let whole = plan_text(alloc, inst, Claim::Infeasible, plan)?;
    // Each plan text of this claim begins so.
    let lines = whole.strip_prefix(PLAN_HEAD).unwrap();
    text.extend_from_slice(lines)?;
    Ok(())
}

/// Appends what is known of the best radius to a text: `radius RADIUS`, `infeasible`, or `bracket LOW HIGH`.
pub fn push_radius(text: &mut Vec<u8>, claim: RadiusClaim) -> Result<(), AllocError>
    ensures { OnOk result (text.new.items ≡ text.old.items ++ radius_text claim) }
{
    match claim {
        RadiusClaim::Best(radius) => {
            text.extend_from_slice(b"radius ")?;
            push_micro(text, radius)
        }
        RadiusClaim::Infeasible => text.extend_from_slice(b"infeasible"),
        RadiusClaim::Bracket { low, high } => {
            text.extend_from_slice(b"bracket ")?;
            push_micro(text, low)?;
            text.extend_from_slice(b" ")?;
            push_high(text, high)
        }
    }
}
