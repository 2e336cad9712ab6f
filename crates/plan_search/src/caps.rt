//! Whether an instance has capacities.
ghost use Rattle.std.specs.Prelude.{◌↔◌, IsTrue};
ghost use Rattle.plan_search.specs.InBox.{HasNoCaps};

use instance_store::Instance;

/// Whether no site of the instance has a capacity.
pub fn has_no_caps(inst: &Instance) -> bool
    ensures { IsTrue result ↔ HasNoCaps inst.now }
{
    for site in 0..inst.sites() {
        if inst.cap(site).is_some() {
            return false;
        }
    }
    true
}
