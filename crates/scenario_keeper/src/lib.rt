//! Scenarios under names: the text of a base instance and the lines of the edits that lead on from it.
//! A keeper is a trait, and `MapKeeper` keeps them in memory.
//!
//! A keeper may tell its scenarios, as the one in memory does, or tell nothing. Each counts its faults, and
//! answers `Failed` only where that count rose. So what is proved over the trait speaks of scenarios where
//! they are told, and of causes everywhere.
#![tactic(auto)]

mod calls;
mod fault;
mod keeper;
mod map_keeper;
mod name;
mod name_list;
mod scenario;

pub use fault::{KeeperFault, NoMemory};
pub use keeper::Keeper;
pub use map_keeper::MapKeeper;
pub use name::{MAX_NAME_BYTES, as_name, is_name};
pub use name_list::NameList;
pub use scenario::Scenario;

#[cfg(test)]
mod tests;
