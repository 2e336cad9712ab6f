//! The instances by which a radius is searched: with the cheap lanes alone, and where nothing costs anything.
ghost use Rattle.std.specs.Prelude.{◌≡◌, IfOk};
ghost use Rattle.plan_radius.specs.Cheaper.{below_cost, without_costs};
ghost use Rattle.plan_radius.specs.Clearing.{without_fixed};

use crate::lane_change::{LaneChange, change_lanes};
use instance_store::{Instance, NoMemory};
use std::alloc::Global;

/// The instance without its lanes of this cost, in millionths, or more: its feasible plans are those of a
/// smaller radius. It fails only where memory runs out.
pub fn below_cost(alloc: Global, inst: &Instance, radius: u64) -> Result<Instance, NoMemory>
    ensures { IfOk result (λ I. I ≡ below_cost inst.now radius) }
{
    let mut cheap = inst.copied(alloc)?;
    drop_lanes(&mut cheap, radius);
    Ok(cheap)
}

// Takes the lanes of this cost or more away.
fn drop_lanes(inst: &mut Instance, radius: u64)
    ensures { inst.new ≡ below_cost inst.old radius }
{
    // An instance is valid.
    let _sites = inst.sites();
    change_lanes(inst, LaneChange::Below(radius));
}

/// Lets no site and no lane cost anything: the feasible plans stay. It takes no memory.
pub fn clear_costs(inst: &mut Instance)
    ensures { inst.new ≡ without_costs inst.old }
{
    clear_fixed(inst);
    // An instance is valid.
    let _sites = inst.sites();
    change_lanes(inst, LaneChange::Free);
}

// Lets no site cost anything to open.
fn clear_fixed(inst: &mut Instance)
    ensures { inst.new ≡ without_fixed inst.old }
{
    for site in 0..inst.sites() {
        inst.set_fixed(site, 0);
    }
}
