//! Saving: the canonical bytes of a store with rules to a writer.
#![tactic(auto)]

mod columns;
mod demands;
mod features;
mod fields;
mod layers;
mod rules;
mod save_fault;
mod saving;
mod values;

pub use save_fault::SaveFault;
pub use saving::save;
pub use sf_format::Ruled;
