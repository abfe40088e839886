//! Pieces in groups, and what is counted of them at each point of the plane.
#![tactic(auto)]

mod grouped_pieces;
pub mod laws;

pub use grouped_pieces::GroupedPieces;
pub use sf_classes::CellSink;
