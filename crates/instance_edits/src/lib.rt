//! Edits of an instance, ten kinds of them, what takes each one back, and orders of lanes that follow.
#![tactic(auto)]

mod applying;
mod comings;
mod edit;
mod orders;
mod readers;
mod refusals;
mod undoing;
mod values;

pub use applying::apply;
pub use edit::{Edit, EditFault, Inverse, Touch};
pub use instance_store::{
    CustId, CustRow, Instance, LaneRow, NoMemory, SiteId, SiteRow, SiteStatus,
};
pub use orders::{apply_in_order, lead_back, lead_on, make_room, undo_in_order};
pub use refusals::allows;
pub use undoing::{UndoFault, undo};

#[cfg(test)]
mod tests;
