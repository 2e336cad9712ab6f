//! The costs of lanes among which a radius is.
ghost use Rattle.std.specs.Prelude.{◌<◌, length};

use instance_store::{Instance, NoMemory};
use std::alloc::Global;

/// The different costs of lanes, in millionths, rising. A search is right whatever they are, and short where
/// they are all: every radius is one of them. It fails only where memory runs out.
pub(crate) fn lane_costs(alloc: Global, inst: &Instance) -> Result<Vec<u64>, NoMemory> {
    let mut costs = Vec::new(alloc);
    for site in 0..inst.sites() {
        push_costs(&mut costs, inst, site)?;
    }
    costs.sort()?;
    costs.dedup();
    Ok(costs)
}

// Pushes the costs of the lanes from the site at a place.
fn push_costs(costs: &mut Vec<u64>, inst: &Instance, site: usize) -> Result<(), NoMemory>
    requires { site < length inst.now.sites }
{
    for cust in 0..inst.custs() {
        if let Some(cost) = inst.lane(site, cust) {
            costs.push(cost)?;
        }
    }
    Ok(())
}
