//! Reads warehouse files of the OR-Library as instances.
//!
//! A file has the number of warehouses and the number of customers; for each warehouse its capacity and
//! its fixed cost; and for each customer its demand, and what it costs to serve all of that demand from
//! each warehouse. Line ends don't matter. The warehouses are the sites of the instance. In the place of
//! a capacity the word `capacity` may stand, as in the library's files that are solved under several
//! capacities.
#![tactic(auto)]

ghost use Rattle.std.specs.Prelude.{◌≤◌, length, IfOk};
ghost use Rattle.location_terms.specs.Instance.{IsValid};
ghost use Rattle.location_terms.specs.Plain.{IsPlain};
ghost use Rattle.fixed_cost.specs.Reading.{Means};
ghost use Rattle.orlib_read.specs.Warehouses.{warehouse_meaning};
ghost use Rattle.orlib_read.specs.declared.capacities.Capacities.TheVariants.{Kept, Ignored};

mod capacities;
mod laws;
mod rows;

pub use capacities::Capacities;
use capacities::micro_of;
use fixed_cost::{Amount, FormFault, MAX_INSTANCE_BYTES, WordReader};
use instance_store::Instance;
pub use laws::meanings;
use std::alloc::Global;

/// The instance that a file of at most `MAX_INSTANCE_BYTES` means, with sites 1, 2, 3 and so on and
/// customers likewise. Costs, capacities and demands are in millionths, and any number of sites may
/// open. The word `capacity` stands for the amount that is given, and is at fault where none is. The
/// fault is that of the first word that has one.
#[tactic(auto, unfolding(crate::specs::Warehouses::warehouse_meaning))]
pub fn read_cap(alloc: Global, bytes: &[u8], given: Option<Amount>) -> Result<Instance, FormFault>
    requires { length bytes.now ≤ MAX_INSTANCE_BYTES }
    ensures meaning { Means (λ inst. inst) result (warehouse_meaning (Kept given) bytes.now) }
    ensures valid { IfOk result IsValid }
{
    let capacities = Capacities::Kept(micro_of(given));
    rows::instance(alloc, WordReader::new(bytes), capacities)
}

/// The same where no site has a capacity. The words of the capacities are read all the same: each is an
/// amount, or the word `capacity`.
#[tactic(auto, unfolding(crate::specs::Warehouses::warehouse_meaning))]
pub fn read_uncap(alloc: Global, bytes: &[u8]) -> Result<Instance, FormFault>
    requires { length bytes.now ≤ MAX_INSTANCE_BYTES }
    ensures meaning { Means (λ inst. inst) result (warehouse_meaning Ignored bytes.now) }
    ensures valid { IfOk result IsValid }
    ensures plain { IfOk result IsPlain }
{
    rows::instance(alloc, WordReader::new(bytes), Capacities::Ignored)
}

#[cfg(test)]
mod tests;
