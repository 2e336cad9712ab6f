//! Reads files in the simple format of UflLib as instances.
//!
//! A file has the number of facilities, the number of cities and a 0, and for each facility its number,
//! its opening cost and its connection cost to each city. A line that begins with `FILE:` may come
//! first. Line ends don't matter otherwise. The facilities are the sites of the instance, and the
//! cities its customers.
#![tactic(auto)]

ghost use Rattle.std.specs.Prelude.{◌≡◌, ◌≤◌, length, IfOk};
ghost use Rattle.location_terms.specs.Instance.{IsValid};
ghost use Rattle.location_terms.specs.Plain.{IsPlain};
ghost use Rattle.fixed_cost.specs.Reading.{Means};
ghost use Rattle.ufllib_read.specs.Ufl.{ufl_meaning};

mod laws;
mod rows;

use fixed_cost::{FormFault, MAX_INSTANCE_BYTES, WordReader};
use instance_store::Instance;
pub use laws::meanings;
use std::alloc::Global;

/// The instance that a file of at most `MAX_INSTANCE_BYTES` means, with sites 1, 2, 3 and so on and customers
/// likewise. No site has a capacity, no customer a demand, and any number of sites may open. Costs are
/// in millionths. The fault is that of the first word that has one.
#[tactic(auto, unfolding(crate::specs::Ufl::ufl_meaning))]
pub fn read(alloc: Global, bytes: &[u8]) -> Result<Instance, FormFault>
    requires { length bytes.now ≤ MAX_INSTANCE_BYTES }
    ensures meaning { Means (λ inst. inst) result (ufl_meaning bytes.now) }
    ensures valid { IfOk result IsValid }
    ensures plain { IfOk result IsPlain }
{
    let mut reader = WordReader::new(bytes);
    reader.skip_titled(b"FILE:");
    rows::instance(alloc, reader)
}

#[cfg(test)]
mod tests;
