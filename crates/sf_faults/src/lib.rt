//! Where a geometry is wrong: the first place that has its first fault.
#![tactic(auto)]

mod comparing;
mod crossings;
mod earlier;
mod edges;
pub mod laws;
mod lines;
mod outside;
mod overlapping;
mod place;
mod places;
mod rings;
mod sharing;
mod spots;
mod written_edge;

pub use place::{Place, Spot};
pub use places::place_of;
