ghost use Rattle.std.specs.Prelude.{◌≡◌};
ghost use Rattle.sf_strips.specs.Levels.{goes_past as goes_past_of};
ghost use Rattle.sf_strips.specs.Parts.{is_over as is_over_of};

use crate::slanted::Slanted;
use crate::vertex::Vertex;
use std::cmp::Ordering;

/// An edge in the order of a column, with the number of its piece.
#[derive(Clone, Copy)]
pub struct Active {
    pub edge: Slanted,
    pub piece: u32,
}

impl Active {
    /// Whether the edge goes on past the column of the vertices of a level. Where there is no
    /// vertex, no edge ends.
    pub(crate) fn goes_past(&self, vertices: &[Vertex]) -> bool
        ensures { result ≡ goes_past_of vertices.now self.now }
    {
        match vertices.first() {
            Some(vertex) => vertex.at.x() < self.edge.right().x(),
            None => true,
        }
    }

    /// Whether the edge is above the first of the vertices of a column, where there is one.
    pub(crate) fn is_over(&self, vertices: &[Vertex]) -> bool
        ensures { result ≡ is_over_of vertices.now self.now }
    {
        match vertices.first() {
            Some(vertex) => self.edge.side(vertex.at) == Ordering::Less,
            None => true,
        }
    }
}
