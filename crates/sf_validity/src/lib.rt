//! Valid geometries: what is checked of a geometry, and a type that holds only valid ones.
#![tactic(auto)]

mod beside;
mod changed;
mod checks;
mod refusal;
mod simple;
mod valid;

pub use checks::check;
pub use refusal::Refusal;
pub use sf_valid_rules::Fault;
pub use simple::is_simple;
pub use valid::{Invalid, Valid, validate};
