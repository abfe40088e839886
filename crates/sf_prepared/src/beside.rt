//! Edges that have no point of a box: their own boxes are apart from it, or it lies on one side of them.

ghost use Rattle.std.specs.Prelude.{◌≡◌, map, not, IsTrue};
ghost use Rattle.sf_geometry.specs.Envelope.{extents_meet};
ghost use Rattle.sf_geometry.specs.Parts.{edge_of};
ghost use Rattle.sf_edge_tree.specs.Boxes.{extent_of_edge};
ghost use Rattle.sf_interiors.specs.Paths.{IsOffBox};
ghost use Rattle.sf_validity.specs.Beside.{box_of_extent};
ghost use Rattle.sf_prepared.specs.Places.{AreClear, IsBoxLeft, IsLeft};

use sf_geometry::Extent;
use sf_grid::edges::orientation;
use sf_grid::{GridPoint, Turn};

/// Whether each edge's own box is apart from the box, or the box lies on one side of the edge.
pub(crate) fn all_miss(edges: &[(GridPoint, GridPoint)], extent: &Extent) -> bool
    ensures { IsTrue result → AreClear extent.now (map edge_of edges.now) }
{
    for edge in edges {
        if !misses(edge, extent) {
            return false;
        }
    }
    true
}

/// Whether the edge's own box is apart from the box, or the box lies on one side of the edge.
fn misses(edge: &(GridPoint, GridPoint), extent: &Extent) -> bool
    ensures { IsTrue result → IsOffBox (box_of_extent extent.now) (edge_of edge.now) }
{
    is_apart(edge, extent) || is_beside(edge, extent)
}

/// Whether the edge's own box is apart from the box.
fn is_apart(edge: &(GridPoint, GridPoint), extent: &Extent) -> bool
    ensures { result ≡ not (extents_meet (extent_of_edge edge.now) extent.now) }
{
    !Extent::at(edge.0).with(edge.1).meets(*extent)
}

/// Whether the box lies on one side of the edge.
fn is_beside(edge: &(GridPoint, GridPoint), extent: &Extent) -> bool
    ensures { IsTrue result → IsOffBox (box_of_extent extent.now) (edge_of edge.now) }
{
    let (a, b) = edge;
    is_box_left(*a, *b, extent) || is_box_left(*b, *a, extent)
}

/// Whether all corners of the box are to the left of the way from `a` to `b`.
fn is_box_left(a: GridPoint, b: GridPoint, extent: &Extent) -> bool
    ensures { IsTrue result → IsBoxLeft a b extent.now }
{
    is_side_left(a, b, extent.min_x, extent) && is_side_left(a, b, extent.max_x, extent)
}

/// Whether both corners in the column `x` are.
fn is_side_left(a: GridPoint, b: GridPoint, x: i32, extent: &Extent) -> bool
    ensures { IsTrue result → IsLeft a b x extent.now.min_y × IsLeft a b x extent.now.max_y }
{
    is_left(a, b, x, extent.min_y) && is_left(a, b, x, extent.max_y)
}

/// Whether the place is on the grid and to the left of the way from `a` to `b`.
fn is_left(a: GridPoint, b: GridPoint, x: i32, y: i32) -> bool
    ensures { IsTrue result → IsLeft a b x y }
{
    match GridPoint::new(x, y) {
        Some(corner) => matches!(orientation(a, b, corner), Turn::Left),
        None => false,
    }
}
