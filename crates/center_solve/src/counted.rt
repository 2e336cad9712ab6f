//! Plans that open a given number of sites, and what each number costs.
ghost use Rattle.std.specs.Prelude.{◌≡◌, ◌+◌, ◌^◌, ◌≤◌, None, IfOk};
ghost use Rattle.location_terms.specs.Optimal.{ClaimHolds};
ghost use Rattle.location_terms.specs.declared.limits.TheConstants.{MAX_SITES};
ghost use Rattle.tree_search.specs.Answer.{IsWithin, IsAnswerTo, IsDecided, claim_in, plan_in, most_decisions};
ghost use Rattle.center_solve.specs.Center.{with_exact_count, root_of};

use crate::hint::Hint;
use crate::searched::searched_from;
use instance_store::{Instance, NoMemory};
use std::alloc::Global;
use tree_search::Answer;

/// The instance whose plans open just so many sites. It fails only where memory runs out.
pub fn with_exact_count(alloc: Global, inst: &Instance, count: u32) -> Result<Instance, NoMemory>
    requires { count ≤ MAX_SITES }
    ensures { IfOk result (λ I. I ≡ with_exact_count inst.now count) }
{
    let mut counted = inst.copied(alloc)?;
    counted.set_count(count, count);
    Ok(counted)
}

/// One entry of the cost curve: what a search with this budget of nodes comes to where a plan opens just so
/// many sites. It fails only where memory runs out.
pub fn curve(alloc: Global, inst: &Instance, count: u32, budget: u32) -> Result<Answer, NoMemory>
    requires count { count ≤ MAX_SITES }
    requires within { IsWithin inst.now budget }
    ensures answer { IfOk result (IsAnswerTo (with_exact_count inst.now count) (root_of (with_exact_count inst.now count)) None budget) }
    ensures holds { IfOk result (λ a. ClaimHolds (with_exact_count inst.now count) (claim_in (with_exact_count inst.now count) a) (plan_in a)) }
    ensures decided { 2 ^ (most_decisions inst.now + 1) ≤ budget → IfOk result IsDecided }
{
    curve_from(alloc, inst, count, budget, &mut Hint::none())
}

/// The same, and sooner, where the hint is from entries for numbers of sites nearby: the search begins with what those left,
/// and the hint takes over what this one leaves. What it comes to is as good whatever the hint is. It fails only where
/// memory runs out.
pub fn curve_from(
    alloc: Global,
    inst: &Instance,
    count: u32,
    budget: u32,
    hint: &mut Hint,
) -> Result<Answer, NoMemory>
    requires count { count ≤ MAX_SITES }
    requires within { IsWithin inst.now budget }
    ensures answer { IfOk result (IsAnswerTo (with_exact_count inst.now count) (root_of (with_exact_count inst.now count)) None budget) }
    ensures holds { IfOk result (λ a. ClaimHolds (with_exact_count inst.now count) (claim_in (with_exact_count inst.now count) a) (plan_in a)) }
    ensures decided { 2 ^ (most_decisions inst.now + 1) ≤ budget → IfOk result IsDecided }
{
    let counted = with_exact_count(alloc, inst, count)?;
    // An instance is valid.
    let _sites = counted.sites();
    let answer = searched_from(alloc, &counted, budget, hint)?;
    Ok(answer)
}
