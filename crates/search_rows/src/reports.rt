//! What is told of an answer and of its plan, by rows that were computed apart from the program.
use example_instances::{two_sites, warehouses};
use instance_store::{CustId, Instance, SiteId};
use location_terms::Claim;
use plan_meaning::{Plan, judge};
use report::{json_text, site_table};
use std::alloc::{AllocError, Global};
use std::test::Fail;

const ONE_SITE: &str =
    "site 1 customers 3 load 0.000000 spare none cost 22.000000 share 1000\nend\n";

const BOTH_SITES: &str = "site 1 customers 1 load 6.000000 spare 4.000000 cost 7503.000000 share 999
site 2 customers 1 load 6.000000 spare 4.000000 cost 1.750000 share 0
end
";

const OPTIMAL: &str =
    "{\"answer\":\"optimal\",\"cost\":\"22.000000\",\"sites\":[{\"customers\":[1,2,3],\"fixed\":\"10.000000\",\"id\":1}]}\n";

const TWO_ENDS: &str =
    "{\"answer\":\"bracket\",\"cost\":\"7504.750000\",\"low\":\"1.000000\",\"sites\":[{\"customers\":[2],\"fixed\":\"7500.000000\",\"id\":1},{\"customers\":[1],\"fixed\":\"0.500000\",\"id\":2}]}\n";

const NO_COST: &str = "{\"answer\":\"bracket\",\"cost\":null,\"low\":\"2.500000\",\"sites\":[]}\n";

const NO_PLAN: &str = "{\"answer\":\"infeasible\"}\n";

// The plan that opens these sites, counted from 1, and serves the customers, counted so too, from them.
fn plan(alloc: Global, open: &[u32], from: &[u32]) -> Result<Option<Plan>, AllocError> {
    let mut sites = Vec::new(alloc);
    for id in open {
        sites.push(SiteId::new(*id))?;
    }
    let mut serves = Vec::new(alloc);
    for (cust, site) in (1..100).zip(from) {
        serves.push((CustId::new(cust), SiteId::new(*site)))?;
    }
    Ok(Plan::new(sites, serves))
}

// Whether a feasible plan has this table, and with the claim this text.
fn is_told(
    alloc: Global,
    inst: &Instance,
    plan: Option<Plan>,
    claim: Claim,
    table: &str,
    json: &str,
) -> Result<bool, Fail> {
    let Some(plan) = plan else {
        return Ok(false);
    };
    if judge(inst, &plan).is_err() {
        return Ok(false);
    }
    Ok(
        site_table(alloc, inst, Some(&plan))?.as_slice() == table.as_bytes()
            && json_text(alloc, inst, claim, Some(&plan))?.as_slice() == json.as_bytes(),
    )
}

// Whether an answer without a plan has this text, and a table without lines of sites.
fn is_told_bare(alloc: Global, inst: &Instance, claim: Claim, json: &str) -> Result<bool, Fail> {
    Ok(
        site_table(alloc, inst, None)?.as_slice() == b"end\n".as_slice()
            && json_text(alloc, inst, claim, None)?.as_slice() == json.as_bytes(),
    )
}

fn bracket(low: u64, high: Option<u64>) -> Claim {
    Claim::Bracket { low, high }
}

#[test]
fn tells_an_answer_without_capacities(rt: HostRuntime) -> Result<(), Fail> {
    let alloc = rt.alloc();
    let inst = two_sites(alloc, 0, 2)?;
    let best = plan(alloc, &[1], &[1, 1, 1])?;
    assert!(rt;
        is_told(
            alloc,
            &inst,
            best,
            Claim::Optimal(22_000_000),
            ONE_SITE,
            OPTIMAL
        )?
    );
    Ok(())
}

#[test]
fn tells_brackets_under_capacities(rt: HostRuntime) -> Result<(), Fail> {
    let alloc = rt.alloc();
    let inst = warehouses(alloc)?;
    let both = plan(alloc, &[1, 2], &[2, 1])?;
    let claim = bracket(1_000_000, Some(7_504_750_000));
    assert!(rt; is_told(alloc, &inst, both, claim, BOTH_SITES, TWO_ENDS)?);
    assert!(rt; is_told_bare(alloc, &inst, bracket(2_500_000, None), NO_COST)?);
    assert!(rt; is_told_bare(alloc, &inst, Claim::Infeasible, NO_PLAN)?);
    Ok(())
}
