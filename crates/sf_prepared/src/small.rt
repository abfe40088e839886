//! The matrix of an area with a small geometry, by a walk over the edges of the area nearby.

ghost use Rattle.std.specs.Prelude.{◌≡◌, IfSome};
ghost use Rattle.sf_relate.specs.declared.shape.Shape.TheVariants.{Areas};
ghost use Rattle.sf_relate.specs.Matrices.{matrix_of};
ghost use Rattle.sf_relate.specs.Places.{shape_of};

use crate::nearby::{columns_over, walked_nearby};
use sf_edge_tree::edges_meeting;
use sf_geometry::Geometry;
use sf_relate::Matrix;
use sf_validity::Valid;
use std::alloc::Global;

/// The matrix of an area with a small geometry, by those edges of the area that can be on a point of the small one or
/// above one. None where the first is no area, where many of its edges are near or none of these leaves the small
/// one's box, and where no memory is found.
pub fn matrix_nearby(alloc: Global, area: &Valid, small: &Valid) -> Option<Matrix>
    ensures { IfSome result (λ matrix. matrix.0 ≡ matrix_of area.now small.now) }
{
    let matrix = matrix_with_area(alloc, small, area)?;
    Some(matrix.transposed())
}

/// The same of the two the other way round: the matrix of a small geometry with an area.
pub fn matrix_with_area(alloc: Global, small: &Valid, area: &Valid) -> Option<Matrix>
    ensures { IfSome result (λ matrix. matrix.0 ≡ matrix_of small.now area.now) }
{
    match area.geometry() {
        Geometry::Polygon(_) | Geometry::MultiPolygon(_) => by_edges_nearby(alloc, small, area),
        _ => None,
    }
}

/// The matrix of a small geometry with what is known to be an area.
fn by_edges_nearby(alloc: Global, small: &Valid, area: &Valid) -> Option<Matrix>
    requires { shape_of area.now ≡ Areas }
    ensures { IfSome result (λ matrix. matrix.0 ≡ matrix_of small.now area.now) }
{
    let extent = small.geometry().envelope();
    let columns = columns_over(&extent);
    let Ok(edges) = edges_meeting(alloc, area.geometry(), &columns) else {
        return None;
    };
    walked_nearby(alloc, small, area, &extent, edges.as_slice())
}
