//! Whether edges of two geometries share a point, or cross at one that no other edge of them has, found among
//! edges near one another, with no sweep.
#![tactic(auto)]

mod crossing;
mod pair;
mod sharing;

pub use crossing::have_crossing;
pub use sharing::find_sharing;
