//! Tests of what a walk asks of its pieces and groups.

ghost use Rattle.std.specs.Prelude.{◌<◌, ◌↔◌, IsTrue};
ghost use Rattle.std.specs.List.{All};
ghost use Rattle.sf_cells.specs.Pieces.{HasLength};

use sf_strips::Piece;

/// Whether the ends of each edge differ.
pub fn have_length(pieces: &[Piece]) -> bool
    ensures { IsTrue result ↔ All HasLength pieces.now }
{
    pieces.iter().all(|piece| piece.has_length())
}

/// Whether the groups are numbers below that of the pieces.
pub fn are_in_range(groups: &[u32], pieces: usize) -> bool
    ensures { IsTrue result ↔ All (λ g. g < pieces) groups.now }
{
    groups.iter().all(|group| (*group as usize) < pieces)
}
