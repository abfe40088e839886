//! Exact squares of distances between points and edges of the grid, as fractions, and laws of distances over all points
//! of the plane.
#![tactic(auto)]

pub mod edges;
pub mod laws;
mod reach;
pub mod root;
mod square;
pub mod writing;

pub use reach::Reach;
pub use square::Square;
