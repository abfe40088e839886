//! The cells of a column or slab, handed to a sink with their counts by group, or put down as a list.
#![tactic(auto)]

mod cell;
mod column;
mod listing;
mod sink;
mod tally;

pub use cell::{Cell, PieceNumbers};
pub use column::{Column, Tallies, hand_out, hand_part};
pub use listing::{Head, Measure, Recorder, recorded};
pub use sink::CellSink;
pub use tally::{add_edges, take_edges};
