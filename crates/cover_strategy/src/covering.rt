//! The instance in which each open site costs the same and nothing else costs anything.
ghost use Rattle.std.specs.Prelude.{◌<◌, ◌↔◌, length, IsTrue};

use instance_store::{Instance, NoMemory};
use location_terms::MAX_SITES;
use plan_radius::clear_costs;
use std::alloc::Global;

/// What an open site costs in it, in millionths.
pub(crate) const SITE_COST: u64 = 1_000_000;

/// The instance in which a plan costs one unit for each open site, and may open any number of them: its cheapest plans
/// are those of the fewest sites that can serve all customers. It fails only where memory runs out.
pub fn covering_of(alloc: Global, inst: &Instance) -> Result<Instance, NoMemory> {
    let mut counted = inst.copied(alloc)?;
    clear_costs(&mut counted);
    for site in 0..inst.sites() {
        if site < counted.sites() {
            counted.set_fixed(site, SITE_COST);
        }
    }
    counted.set_count(0, MAX_SITES as u32);
    Ok(counted)
}

/// Whether a plan may not open all sites.
pub fn is_count_tight(inst: &Instance) -> bool
    ensures { IsTrue result ↔ (inst.now.hi < length inst.now.sites) }
{
    let (_, hi) = inst.count();
    (hi as usize) < inst.sites()
}
