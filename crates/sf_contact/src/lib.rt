//! Contact of two geometries, and that they have none, by edges and first points alone, with no walk. Trees of edges take
//! memory where both geometries are large; nothing else here does.
#![tactic(auto)]

mod contact;
mod divided;
mod edges;
pub mod laws;
mod starts;

pub use contact::{FEW_POINTS, contact_between};
pub use divided::{SIDED_POINTS, known_by_sides};
