//! Ranges of costs, and what is refused.
ghost use Rattle.std.specs.Prelude.{IfOk, IsTrue};
ghost use Rattle.location_terms.specs.Tree.{StandsOn};
ghost use Rattle.range_scan.specs.Range.{IsProvedOptimal};

use crate::given::duals;
use branch_tree::Tree;
use example_instances::two_sites;
use instance_store::{CustId, Instance, NoMemory, SiteId};
use plan_meaning::{Plan, judge};
use range_scan::{Range, RangeRefusal, fixed_range, lane_range};
use std::alloc::Global;
use std::test::Fail;

const MAX: u64 = 999_999_999_999_999;

// The tree of one leaf, with duals by which the first site alone is best.
fn tree(alloc: Global, inst: &Instance) -> Result<Tree, Fail>
    ensures { IfOk result (λ t. StandsOn t inst.now) }
{
    let values = [11_000_000, 2_000_000, 9_000_000];
    let leaf = duals(alloc, inst, 0, &values, &[0; 2])?;
    let tree = Tree::leaf(alloc, inst, leaf)?;
    Ok(tree)
}

// The plan that serves all from the first site.
fn plan(alloc: Global) -> Result<Plan, Fail> {
    let site = SiteId::new(1);
    let sites = vec![in alloc; site]?;
    let serves = vec![in alloc;
        (CustId::new(1), site),
        (CustId::new(2), site),
        (CustId::new(3), site),
    ]?;
    match Plan::new(sites, serves) {
        Some(plan) => Ok(plan),
        None => Err(Fail::new("not a plan")),
    }
}

// Whether the tree proves the plan optimal.
fn is_proved(inst: &Instance, tree: &Tree, plan: &Plan) -> Result<bool, NoMemory>
    requires { StandsOn tree.now inst.now }
    ensures { IfOk result (λ yes. IsTrue yes → IsProvedOptimal inst.now tree.now plan.now) }
{
    let _tree = tree.nodes();
    match judge(inst, plan) {
        Ok(cost) => tree.accepts(inst, Some(cost)),
        Err(_) => Ok(false),
    }
}

fn is_range(answer: Result<Range, RangeRefusal>, least: u64, greatest: u64) -> bool {
    answer == Ok(Range { least, greatest })
}

// Ranges of costs that the plan pays, and of others.
fn has_ranges(alloc: Global, inst: &Instance, tree: &Tree, plan: &Plan) -> bool
    requires { IsProvedOptimal inst.now tree.now plan.now }
{
    let (one, two, three) = (SiteId::new(1), SiteId::new(2), CustId::new(3));
    is_range(fixed_range(alloc, inst, tree, plan, one), 0, 10_000_000)
        && is_range(fixed_range(alloc, inst, tree, plan, two), 11_000_000, MAX)
        && is_range(
            lane_range(alloc, inst, tree, plan, one, three),
            0,
            9_000_000,
        )
        && is_range(
            lane_range(alloc, inst, tree, plan, two, CustId::new(1)),
            7_000_000,
            MAX,
        )
}

// What isn't in the instance, in its order.
fn refuses(alloc: Global, inst: &Instance, tree: &Tree, plan: &Plan) -> bool
    requires { IsProvedOptimal inst.now tree.now plan.now }
{
    let (one, three, four) = (SiteId::new(1), SiteId::new(3), CustId::new(4));
    fixed_range(alloc, inst, tree, plan, three) == Err(RangeRefusal::NoSite)
        && lane_range(alloc, inst, tree, plan, three, four) == Err(RangeRefusal::NoSite)
        && lane_range(alloc, inst, tree, plan, one, four) == Err(RangeRefusal::NoCustomer)
}

fn answers(alloc: Global, inst: &Instance) -> Result<bool, Fail> {
    let tree = tree(alloc, inst)?;
    let plan = plan(alloc)?;
    if !is_proved(inst, &tree, &plan)? {
        return Ok(false);
    }
    Ok(has_ranges(alloc, inst, &tree, &plan) && refuses(alloc, inst, &tree, &plan))
}

#[test]
fn ranges_of_two_sites(rt: HostRuntime) -> Result<(), Fail> {
    let alloc = rt.alloc();
    let inst = two_sites(alloc, 0, 2)?;
    assert!(rt; answers(alloc, &inst)?);
    Ok(())
}
