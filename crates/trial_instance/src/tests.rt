use super::*;
use instance_store::Instance;
use std::test::Fail;

fn has_lanes(inst: &Instance, i: usize, fixed: u64, lanes: [u64; 2]) -> bool {
    i < inst.sites()
        && inst.custs() == 2
        && inst.fixed(i) == fixed
        && inst.lane(i, 0) == Some(lanes[0])
        && inst.lane(i, 1) == Some(lanes[1])
}

fn is_worked(inst: &Instance) -> bool {
    inst.sites() == 2
        && has_lanes(inst, 0, 613_000_000, [1_167_000_000, 1_298_000_000])
        && has_lanes(inst, 1, 1_127_000_000, [873_000_000, 338_000_000])
        && inst.cap(0).is_none()
        && inst.count() == (0, 3_000)
}

#[test]
fn makes_the_worked_instance(rt: HostRuntime) -> Result<(), Fail> {
    let inst = trial(rt.alloc(), 1, 2, 2).ok().ok_or("an instance")?;
    assert!(rt; is_worked(&inst));
    Ok(())
}
