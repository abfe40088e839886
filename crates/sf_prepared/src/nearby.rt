//! The edges of an area that can be on a point of a box or above one, how many are above a point, and the matrix by a walk
//! over these alone.

ghost use Rattle.std.specs.Prelude.{◌≡◌, IfSome, map};
ghost use Rattle.std.specs.List.{count_by, list_any};
ghost use Rattle.sf_grid.specs.Edge.{edge_above};
ghost use Rattle.sf_grid.specs.EvenOdd.{edges_above, is_odd};
ghost use Rattle.sf_grid.specs.Plane.{grid_point};
ghost use Rattle.sf_geometry.specs.Envelope.{envelope_of};
ghost use Rattle.sf_geometry.specs.Parts.{edge_of};
ghost use Rattle.sf_validity.specs.Held.{IsHeld};
ghost use Rattle.sf_relate.specs.Contact.{in_extent};
ghost use Rattle.sf_relate.specs.declared.shape.Shape.TheVariants.{Areas};
ghost use Rattle.sf_relate.specs.Matrices.{matrix_of};
ghost use Rattle.sf_relate.specs.Places.{shape_of};
ghost use Rattle.sf_prepared.specs.Boxes.{pairs_of};
ghost use Rattle.sf_prepared.specs.Nearby.{columns_over, leaves, nearby};

use sf_geometry::Extent;
use sf_grid::GridPoint;
use sf_grid::edges::is_above;
use sf_relate::{Matrix, relate_nearby};
use sf_validity::Valid;
use std::alloc::Global;

/// How many edges are walked nearby at most. Where more are near, a walk that stops once the question is answered
/// is the quicker one.
const MOST_NEARBY: usize = 256;

/// The box of the columns over a box, from its lower side up. No edge whose box is apart from it is on a point of the
/// box or above one.
pub(crate) fn columns_over(extent: &Extent) -> Extent
    ensures { result ≡ columns_over extent.now }
{
    Extent {
        min_x: extent.min_x,
        min_y: extent.min_y,
        max_x: extent.max_x,
        max_y: i32::MAX,
    }
}

/// The matrix of a geometry with an area, by a walk over the area's edges nearby: those in the columns over the box of
/// the geometry, `extent`. None where they are many or none of them leaves the box, and where no memory is found.
pub(crate) fn walked_nearby(
    alloc: Global,
    geometry: &Valid,
    area: &Valid,
    extent: &Extent,
    edges: &[(GridPoint, GridPoint)],
) -> Option<Matrix>
    requires held { IsHeld geometry.now }
    requires held_area { IsHeld area.now }
    requires area { shape_of area.now ≡ Areas }
    requires extent { extent.now ≡ envelope_of geometry.now }
    requires edges { edges.now ≡ nearby extent.now (pairs_of area.now) }
    ensures { IfSome result (λ matrix. matrix.0 ≡ matrix_of geometry.now area.now) }
{
    if edges.len() > MOST_NEARBY {
        return None;
    }
    if !one_leaves(edges, extent) {
        return None;
    }
    relate_nearby(alloc, geometry, area, edges).ok()
}

/// Whether an end of one of the edges is outside of the box.
fn one_leaves(edges: &[(GridPoint, GridPoint)], extent: &Extent) -> bool
    ensures { result ≡ list_any (leaves extent.now) edges.now }
{
    edges.iter().any(|edge| leaves(edge, extent))
}

/// Whether an end of the edge is outside of the box.
fn leaves(edge: &(GridPoint, GridPoint), extent: &Extent) -> bool
    ensures { result ≡ leaves extent.now edge.now }
{
    let (a, b) = edge;
    !is_in(*a, extent) || !is_in(*b, extent)
}

/// Whether the point is in the box.
fn is_in(point: GridPoint, extent: &Extent) -> bool
    ensures { result ≡ in_extent extent.now (grid_point point) }
{
    Extent::at(point).meets(*extent)
}

/// Whether an odd number of the edges is above a point.
pub(crate) fn has_odd_above(edges: &[(GridPoint, GridPoint)], point: GridPoint) -> bool
    ensures { result ≡ is_odd (edges_above (grid_point point) (map edge_of edges.now)) }
{
    count_above(edges, point) % 2 == 1
}

/// How many of the edges are above a point.
fn count_above(edges: &[(GridPoint, GridPoint)], point: GridPoint) -> usize
    ensures { result ≡ count_by (λ edge. edge_above (edge_of edge) (grid_point point)) edges.now }
{
    edges
        .iter()
        .filter(|edge| is_above(edge.0, edge.1, point))
        .count()
}
