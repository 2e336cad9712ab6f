//! An instance that edits lead on and that is led back, with the edits in force and what takes each back.
#![tactic(auto)]

mod history;

pub use history::EditedInstance;
