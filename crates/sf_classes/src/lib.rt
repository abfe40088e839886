//! The cells of pieces by classes: what is on them, and the parities of what is above.
#![tactic(auto)]

pub mod laws;

pub use sf_slabs::{CellSink, Piece};
