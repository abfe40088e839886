//! Patches: what several edits make of a store, as exchanges of whole features and counters. All of them are made,
//! or none; what a patch holds afterwards takes it back. In two halves a patch can be looked at before it removes anything.
#![tactic(auto)]

mod exchanging;
mod halves;
pub mod laws;
mod patch;
mod slot;

pub use halves::Halves;
pub use patch::Patch;
pub use slot::Slot;
