//! Whether an edge of one geometry runs along an edge of another, and whether each lies in one, found by sorting edges with no
//! sweep.
#![tactic(auto)]

mod along;
mod cover;
mod marks;
mod run;

pub use along::run_along;
pub use cover::uncovered_ends;
