//! The suite's own form of instance files, in which an instance has one text.
//!
//! A text has the numbers of sites and of customers with the ids that come next, how many sites may
//! open, a line for each customer and one for each site with its lanes. Version 1 has no statuses:
//! each site is free. In version 2 a word says the status of each. Line ends and the spelling of
//! numbers don't matter to a reader.
#![tactic(auto)]

ghost use Rattle.std.specs.Prelude.{◌≡◌, ◌≤◌, length, IfOk};
ghost use Rattle.location_terms.specs.Instance.{IsValid};
ghost use Rattle.fixed_cost.specs.Reading.{Means};
ghost use Rattle.instance_text.specs.Own.{own_meaning};
ghost use Rattle.instance_text.specs.OwnText.{own_text};

mod laws;
mod reading;
mod words;
mod writing;

use fixed_cost::{FormFault, MAX_INSTANCE_BYTES, WordReader};
use instance_store::{Instance, NoMemory};
pub use laws::{meanings, texts};
use std::alloc::Global;
use writing::{is_unsettled, push_customers, push_head, push_sites, room};

/// The instance that a text of at most `MAX_INSTANCE_BYTES` means, of either version. The fault is
/// that of the first word that has one.
#[tactic(auto, unfolding(crate::specs::Own::own_meaning))]
pub fn read(alloc: Global, bytes: &[u8]) -> Result<Instance, FormFault>
    requires { length bytes.now ≤ MAX_INSTANCE_BYTES }
    ensures meaning { Means (λ inst. inst) result (own_meaning bytes.now) }
    ensures valid { IfOk result IsValid }
{
    reading::instance(alloc, WordReader::new(bytes))
}

/// The text of an instance: version 1 where every site is free, and else version 2. It fails only
/// where memory runs out.
pub fn write(alloc: Global, inst: &Instance) -> Result<Vec<u8>, NoMemory>
    ensures { IfOk result (λ text. text.items ≡ own_text inst.now) }
{
    let unsettled = is_unsettled(inst);
    let mut text = Vec::with_capacity(alloc, room(inst))?;
    push_head(&mut text, inst, unsettled)?;
    push_customers(&mut text, inst)?;
    push_sites(&mut text, inst, unsettled)?;
    text.extend_from_slice(b"end\n")?;
    Ok(text)
}

#[cfg(test)]
mod tests;
