//! The edges of lines and rings in the order in which they stand, with boxes over runs of them, so
//! that edges near a box, and pairs of edges whose boxes meet, are found with few looks. Where no tree is
//! kept, the edges near a box are found by one pass.
#![tactic(auto)]

mod against;
mod boxes;
mod budget;
mod meeting;
mod near;
mod node;
mod nodes;
mod outcome;
mod pairs;
mod search;
mod tests;
mod tree;

pub use budget::Budget;
pub use meeting::{edges_meeting, has_edge_meeting};
pub use outcome::Outcome;
pub use tests::{EdgeTest, PairTest};
pub use tree::EdgeTree;
