use assignment_search::{Assignment, assigned_plan};
use dual_value::{Path, PreparedBox};
use example_instances::{customer, site};
use instance_store::{CustId, Instance, LaneRow, NoMemory, SiteId};
use location_terms::Decision;
use plan_meaning::Plan;
use std::alloc::Global;
use std::test::Fail;

// Two sites that hold 6 units each, and three customers with demands of 4, 3 and 3 units, whom the first
// site serves at less.
fn pair(alloc: Global) -> Result<Instance, NoMemory> {
    let near = LaneRow::from_slice(alloc, &[Some(1_000_000), Some(1_000_000), Some(0)])?;
    let far = LaneRow::from_slice(alloc, &[Some(2_000_000), Some(9_000_000), Some(9_000_000)])?;
    let sites = vec![in alloc;
        site(1, 5_000_000, Some(6_000_000), near),
        site(2, 3_000_000, Some(6_000_000), far),
    ]?;
    let custs = vec![in alloc;
        customer(1, 4_000_000),
        customer(2, 3_000_000),
        customer(3, 3_000_000),
    ]?;
    Instance::from_parts(alloc, 0, 2, 3, 4, custs, sites)
}

// What is found in the box of these steps from these flags.
fn found(
    alloc: Global,
    inst: &Instance,
    steps: &[Decision],
    flags: &[bool],
) -> Result<Option<Plan>, NoMemory> {
    let mut path = Path::root(alloc);
    for step in steps {
        path.push(*step)?;
    }
    let boxed = PreparedBox::of(alloc, inst, &path)?;
    let mut work = Assignment::none(alloc);
    assigned_plan(alloc, &boxed, &mut work, flags)
}

// Whether that is a plan that opens both sites and serves the customers from these, in order.
fn is_found(
    alloc: Global,
    inst: &Instance,
    steps: &[Decision],
    flags: &[bool],
    from: &[u32],
) -> bool {
    match found(alloc, inst, steps, flags) {
        Ok(Some(plan)) => {
            plan.site_count() == 2
                && plan.serve_count() == from.len()
                && (0..from.len()).all(|k| plan.serve(k).1.number() == from[k])
        }
        _ => false,
    }
}

fn is_none_found(alloc: Global, inst: &Instance, steps: &[Decision]) -> bool {
    match found(alloc, inst, steps, &[true, true]) {
        Ok(None) => true,
        _ => false,
    }
}

fn assigns(alloc: Global, inst: &Instance) -> bool {
    let yes = [Decision::Yes(SiteId::new(2), CustId::new(2))];
    is_found(alloc, inst, &[], &[true, true], &[2, 1, 1])
        && is_found(alloc, inst, &[], &[], &[2, 1, 1])
        && is_found(alloc, inst, &yes, &[true], &[1, 2, 2])
        && is_none_found(alloc, inst, &[Decision::Closed(SiteId::new(2))])
}

#[test]
fn assigns_whole_customers(rt: HostRuntime) -> Result<(), Fail> {
    let inst = pair(rt.alloc())?;
    assert!(rt; assigns(rt.alloc(), &inst));
    Ok(())
}
