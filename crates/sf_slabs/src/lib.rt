//! The cells into which edges and dots cut the plane, by a sweep over its columns.
#![tactic(auto)]

mod conditions;
mod decomposition;
mod sweep;

pub use conditions::{are_in_range, have_length};
pub use decomposition::decompose;
pub use sf_cells::{Cell, CellSink, PieceNumbers};
pub use sf_strips::{Piece, Vertex};
pub use sweep::{walk, walk_sorted};
