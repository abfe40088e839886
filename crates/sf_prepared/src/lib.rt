//! One geometry that many others are asked about: its edges, a tree of their boxes, and what the edges nearby show,
//! also of an area beside a small geometry.
#![tactic(auto)]

mod beside;
pub mod laws;
mod nearby;
mod prepared;
mod small;

pub use prepared::Prepared;
pub use small::{matrix_nearby, matrix_with_area};
