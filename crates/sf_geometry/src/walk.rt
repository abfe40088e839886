//! A walk over the edges of a geometry, with no memory.

ghost use Rattle.std.specs.Prelude.{◌↔◌, ◌∷◌, [], IsTrue};
ghost use Rattle.std.specs.List.{flat_map};
ghost use Rattle.sf_geometry.specs.Lists.{edges_of as edges_of_list};
ghost use Rattle.sf_geometry.specs.Parts.{edges_of, joined};
ghost use Rattle.sf_geometry.specs.Walks.{HasEdge};

use super::geometry::Geometry;
use super::sequence::Sequence;
use sf_grid::GridPoint;

/// What is asked of single edges.
pub trait EdgeTest {
    ghost use Rattle.std.specs.Prelude.{◌≢◌, ◌↔◌, IsTrue};
    ghost use Rattle.sf_grid.specs.Edge.{Edge, edge_between};

    /// Which edges are searched for.
    ghost Passes: { Self → Edge → Type 0 };

    /// Whether the edge between two points, which differ, is searched for.
    fn test(&self, from: GridPoint, to: GridPoint) -> bool
        requires { from ≢ to }
        ensures { IsTrue result ↔ Passes self.now (edge_between from to) };
}

impl Geometry {
    /// Whether an edge of the geometry's lines and rings passes a test. They are tried in order, up to the first that
    /// passes, and no memory is taken.
    pub fn any_edge<T: EdgeTest>(&self, test: &T) -> bool
        ensures { IsTrue result ↔ HasEdge (T.Passes test.now) (edges_of self.now) }
    {
        match self {
            Geometry::Point(_) | Geometry::MultiPoint(_) => false,
            Geometry::LineString(points) => has_edge(points.as_slice(), test),
            Geometry::Polygon(lists) | Geometry::MultiLineString(lists) => {
                have_edge(lists.as_slice(), test)
            }
            Geometry::MultiPolygon(polygons) => polygons_have_edge(polygons.as_slice(), test),
        }
    }
}

/// Whether an edge of a ring of the polygons passes a test.
fn polygons_have_edge<T: EdgeTest>(polygons: &[Sequence<Sequence<GridPoint>>], test: &T) -> bool
    ensures { IsTrue result ↔ HasEdge (T.Passes test.now) (flat_map edges_of_list (joined polygons.now)) }
{
    for rings in polygons {
        if have_edge(rings.as_slice(), test) {
            return true;
        }
    }
    false
}

/// Whether an edge of one of the lines or rings passes a test.
fn have_edge<T: EdgeTest>(lists: &[Sequence<GridPoint>], test: &T) -> bool
    ensures { IsTrue result ↔ HasEdge (T.Passes test.now) (flat_map edges_of_list lists.now) }
{
    for points in lists {
        if has_edge(points.as_slice(), test) {
            return true;
        }
    }
    false
}

/// Whether an edge of a line or ring passes a test.
fn has_edge<T: EdgeTest>(points: &[GridPoint], test: &T) -> bool
    ensures { IsTrue result ↔ HasEdge (T.Passes test.now) (edges_of_list points.now) }
{
    let Some((first, others)) = points.split_first() else {
        return false;
    };
    let mut from = *first;
    for to in others {
        if is_edge_passing(from, *to, test) {
            return true;
        }
        from = *to;
    }
    false
}

/// Whether two neighbours differ, and the edge between them passes a test.
fn is_edge_passing<T: EdgeTest>(from: GridPoint, to: GridPoint, test: &T) -> bool
    ensures { IsTrue result ↔ HasEdge (T.Passes test.now) (edges_of_list (from ∷ to ∷ [])) }
{
    from != to && test.test(from, to)
}
