//! The text of each claim that no run of the rows comes to.
use example_instances::ring;
use instance_store::Instance;
use location_terms::Claim;
use report::plan_text;
use std::alloc::Global;
use std::test::Fail;

const NO_PLAN: &str = "dualoc-plan 1\ninfeasible\nend\n";

const NO_COST: &str = "dualoc-plan 1\nbracket 2.500000 none\nend\n";

const TWO_ENDS: &str = "dualoc-plan 1\nbracket 0.000000 4.000000\nend\n";

fn prints(alloc: Global, inst: &Instance, claim: Claim, text: &str) -> Result<bool, Fail> {
    let found = plan_text(alloc, inst, claim, None)?;
    Ok(found.as_slice() == text.as_bytes())
}

fn bracket(low: u64, high: Option<u64>) -> Claim {
    Claim::Bracket { low, high }
}

fn prints_all(alloc: Global, inst: &Instance) -> Result<bool, Fail> {
    Ok(
        prints(alloc, inst, Claim::Infeasible, NO_PLAN)?
            && prints(alloc, inst, bracket(2_500_000, None), NO_COST)?
            && prints(alloc, inst, bracket(0, Some(4_000_000)), TWO_ENDS)?,
    )
}

#[test]
fn prints_each_claim(rt: HostRuntime) -> Result<(), Fail> {
    let inst = ring(rt.alloc())?;
    assert!(rt; prints_all(rt.alloc(), &inst)?);
    Ok(())
}
