//! The refusals of the store, each with its number and its name.
#![tactic(auto)]

mod memory;
mod refusal;

pub use refusal::Refusal;
