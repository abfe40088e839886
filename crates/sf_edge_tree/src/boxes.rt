//! Boxes of edges.

ghost use Rattle.std.specs.Prelude.{◌≡◌};
ghost use Rattle.std.specs.Int.{int_max, int_min};
ghost use Rattle.sf_edge_tree.specs.Boxes.{extent_of_edge, joined as joined_of};

use sf_geometry::Extent;
use sf_grid::GridPoint;

/// An edge, by its ends.
pub(crate) type Edge = (GridPoint, GridPoint);

/// The box of an edge.
pub(crate) fn box_of(edge: &Edge) -> Extent
    ensures { result ≡ extent_of_edge edge.now }
{
    Extent::at(edge.0).with(edge.1)
}

/// The least box that has two boxes.
pub(crate) fn joined(a: Extent, b: Extent) -> Extent
    ensures { result ≡ joined_of a b }
{
    Extent {
        min_x: lesser(a.min_x, b.min_x),
        min_y: lesser(a.min_y, b.min_y),
        max_x: greater(a.max_x, b.max_x),
        max_y: greater(a.max_y, b.max_y),
    }
}

fn lesser(a: i32, b: i32) -> i32
    ensures { result ≡ int_min a b }
{
    a.min(b)
}

fn greater(a: i32, b: i32) -> i32
    ensures { result ≡ int_max a b }
{
    a.max(b)
}
