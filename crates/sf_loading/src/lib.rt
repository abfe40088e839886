//! A store with rules from the bytes of its file.
#![tactic(auto)]

mod asks;
mod columns;
mod demands;
mod features;
mod fields;
mod geometries;
mod halt;
mod layers;
mod load_fault;
mod loading;
mod numbers;
mod rules;
mod texts;
mod values;

pub use load_fault::LoadFault;
pub use loading::load;
pub use sf_format::Ruled;
