//! Whether lines and rings meet themselves or one another.
#![tactic(auto)]

mod beside;
mod changed;
mod far;
pub mod laws;
mod near;
mod pairs;
mod strands;
mod tangles;

pub use changed::edge_meets_others;
pub use tangles::{are_tangled, meets_itself};
