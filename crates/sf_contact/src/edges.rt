//! Whether edges of two geometries share a point, pair by pair: no memory.

ghost use Rattle.sf_valid_rules.specs.Validity.{IsValid};
ghost use Rattle.sf_contact.specs.Absence.{on_edges};
ghost use Rattle.sf_contact.specs.Pairs.{Tells};

use sf_edge_tree::has_edge_meeting;
use sf_geometry::{EdgeTest, Geometry};
use sf_grid::edges::meet;
use sf_grid::{GridPoint, Meet};

/// Whether an edge of the one geometry shares a point with an edge of the other. Those of the first that are apart
/// from the second one's box are passed over, so the second should be the smaller one.
pub(crate) fn edges_meet(geometry: &Geometry, other: &Geometry) -> bool
    requires { IsValid other.now }
    ensures { Tells result (on_edges geometry.now) (on_edges other.now) }
{
    has_edge_meeting(geometry, &other.envelope(), &MeetingOther { other })
}

/// Searches for edges that share a point with one of the geometry's.
#[derive(Drop)]
struct MeetingOther<'a> {
    other: &'a Geometry,
}

impl EdgeTest for MeetingOther<'_> {
    ghost use Rattle.sf_grid.specs.Edge.{on_edge};
    ghost use Rattle.sf_contact.specs.Absence.{on_edges};
    ghost use Rattle.sf_contact.specs.EdgeContact.{Share};

    ghost Passes = { λ s edge. Share (on_edge edge) (on_edges s.other.now) };

    fn test(&self, from: GridPoint, to: GridPoint) -> bool {
        self.other.any_edge(&MeetingPair { from, to })
    }
}

/// Searches for edges that share a point with the edge between two points. Equal points have no edge.
#[derive(Drop)]
struct MeetingPair {
    from: GridPoint,
    to: GridPoint,
}

impl EdgeTest for MeetingPair {
    ghost use Rattle.std.specs.Prelude.{◌∷◌, []};
    ghost use Rattle.sf_grid.specs.Edge.{on_edge};
    ghost use Rattle.sf_geometry.specs.PointSets.{on_line};
    ghost use Rattle.sf_contact.specs.EdgeContact.{Share};

    ghost Passes = { λ s edge. Share (on_edge edge) (on_line (s.from ∷ s.to ∷ [])) };

    fn test(&self, from: GridPoint, to: GridPoint) -> bool {
        if self.from == self.to {
            return false;
        }
        match meet((self.from, self.to), (from, to)) {
            Meet::Apart => false,
            Meet::At(_) => true,
            Meet::Along(..) => true,
        }
    }
}
