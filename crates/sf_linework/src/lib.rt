//! What lines show of a matrix without a walk: edges that cross, run along one another or lie in one another, ends, and what lies
//! beside.
#![tactic(auto)]

mod alongside;
mod beside;
mod cover;
mod crossed;
mod ends;
pub mod laws;
mod points;
mod within;

pub use alongside::known_alongside;
pub use beside::known_beside;
pub use cover::known_by_cover;
pub use crossed::known_by_crossed_lines;
pub use ends::known_by_ends;
pub use points::known_by_points;
