//! The area and the length of a geometry: exact sums over its corners, and roots that are rounded down.
#![tactic(auto)]

mod area;
pub mod laws;
mod length;
mod measure;
mod writing;

pub use area::doubled_area;
pub use length::length_in_thousandths;
pub use measure::Measure;
pub use writing::push_measure;
