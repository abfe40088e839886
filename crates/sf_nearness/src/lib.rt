//! The distance of valid geometries, exact over all points of the plane, and whether they are within a distance.
#![tactic(auto)]

mod contact;
pub mod laws;
mod listed;
mod nearness;
mod segments;

pub use listed::Listed;
pub use nearness::{is_within, square_between};
