//! Texts of plan files that were written by hand.
use crate::{RadiusClaim, center_text};
use example_instances::two_sites;
use instance_store::{CustId, Instance, SiteId};
use plan_meaning::{Plan, judge};
use std::alloc::{AllocError, Global};
use std::test::Fail;

const BOTH_SITES: &str =
    "dualoc-center 1\nradius 2.000000\nsite 1 10.000000\nsite 2 12.000000\nserve 1 1 1.000000\nserve 2 1 2.000000\nserve 3 2 1.000000\nend\n";

const ONE_SITE: &str =
    "dualoc-center 1\nbracket 0.000001 9.000000\nsite 1 10.000000\nserve 1 1 1.000000\nserve 2 1 2.000000\nserve 3 1 9.000000\nend\n";

const NO_PLAN: &str = "dualoc-center 1\nbracket 0.000000 none\nend\n";

// The plan that opens these sites, and serves the customers 1, 2 and 3 from those.
fn plan(alloc: Global, open: &[u32], from: [u32; 3]) -> Result<Option<Plan>, AllocError> {
    let mut sites = Vec::new(alloc);
    for id in open {
        sites.push(SiteId::new(*id))?;
    }
    let mut serves = Vec::new(alloc);
    for (cust, site) in (1..4).zip(from) {
        serves.push((CustId::new(cust), SiteId::new(site)))?;
    }
    Ok(Plan::new(sites, serves))
}

// Whether the text of a claim with a feasible plan is this.
fn is_told(
    alloc: Global,
    inst: &Instance,
    claim: RadiusClaim,
    plan: Option<Plan>,
    text: &str,
) -> Result<bool, Fail> {
    let Some(plan) = plan else {
        return Ok(false);
    };
    if judge(inst, &plan).is_err() {
        return Ok(false);
    }
    Ok(center_text(alloc, inst, claim, Some(&plan))?.as_slice() == text.as_bytes())
}

#[test]
fn tells_a_plan_with_its_radius(rt: HostRuntime) -> Result<(), Fail> {
    let alloc = rt.alloc();
    let inst = two_sites(alloc, 0, 2)?;
    let both = plan(alloc, &[1, 2], [1, 1, 2])?;
    assert!(rt; is_told(alloc, &inst, RadiusClaim::Best(2_000_000), both, BOTH_SITES)?);
    let one = plan(alloc, &[1], [1, 1, 1])?;
    let ends = RadiusClaim::Bracket {
        low: 1,
        high: Some(9_000_000),
    };
    assert!(rt; is_told(alloc, &inst, ends, one, ONE_SITE)?);
    Ok(())
}

#[test]
fn tells_that_no_plan_is_known(rt: HostRuntime) -> Result<(), Fail> {
    let alloc = rt.alloc();
    let inst = two_sites(alloc, 0, 2)?;
    let ends = RadiusClaim::Bracket { low: 0, high: None };
    let text = center_text(alloc, &inst, ends, None)?;
    assert!(rt; text.as_slice() == NO_PLAN.as_bytes());
    Ok(())
}
