ghost use Rattle.std.specs.Prelude.{IsTrue, ◌↔◌};
ghost use Rattle.sf_strips.specs.Pieces.{HasLength};

use sf_grid::GridPoint;

/// What cuts the plane: an edge between two grid points that differ, or a dot.
#[derive(Clone, Copy, PartialEq, Eq, Debug)]
pub enum Piece {
    /// The closed edge between two grid points.
    Edge(GridPoint, GridPoint),
    /// A grid point alone.
    Dot(GridPoint),
}

impl Piece {
    /// Whether it is a dot, or an edge whose ends differ.
    pub fn has_length(&self) -> bool
        ensures { IsTrue result ↔ HasLength self.now }
    {
        match self {
            Piece::Edge(a, b) => *a != *b,
            Piece::Dot(_) => true,
        }
    }
}
