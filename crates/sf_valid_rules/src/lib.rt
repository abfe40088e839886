//! The rules of validity and simplicity, over all points of the plane: definitions and laws.
#![tactic(auto)]

mod fault;
pub mod laws;

pub use fault::Fault;
