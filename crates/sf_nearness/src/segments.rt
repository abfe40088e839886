//! The segments of a geometry: its points, or the edges of its lines and rings.

ghost use Rattle.std.specs.Prelude.{◌≡◌, ◌<◌, IfOk, length, map};
ghost use Rattle.sf_geometry.specs.Parts.{edge_of};
ghost use Rattle.sf_nearness.specs.Segments.{segments_of as segments_of_geometry};

use sf_geometry::Geometry;
use sf_grid::GridPoint;
use sf_validity::Valid;
use std::alloc::{AllocError, Global};

/// A segment by its ends, which may be one point.
pub(crate) type Segment = (GridPoint, GridPoint);

/// The segments of a valid geometry, of which there is one at least.
///
/// # Errors
///
/// Out of memory alone.
pub(crate) fn segments_of(alloc: Global, geometry: &Valid) -> Result<Vec<Segment>, AllocError>
    ensures are { IfOk result (λ found. map edge_of found.items ≡ segments_of_geometry geometry.now) }
    ensures some { IfOk result (λ found. 0 < length found.items) }
{
    listed(alloc, geometry.geometry())
}

/// The segments of a geometry.
fn listed(alloc: Global, geometry: &Geometry) -> Result<Vec<Segment>, AllocError>
    ensures { IfOk result (λ found. map edge_of found.items ≡ segments_of_geometry geometry.now) }
{
    match geometry {
        Geometry::Point(point) => dots(alloc, &[*point]),
        Geometry::MultiPoint(points) => dots(alloc, points.as_slice()),
        Geometry::LineString(_)
        | Geometry::MultiLineString(_)
        | Geometry::Polygon(_)
        | Geometry::MultiPolygon(_) => geometry.edges(alloc),
    }
}

/// Points, each as a segment from itself to itself.
fn dots(alloc: Global, points: &[GridPoint]) -> Result<Vec<Segment>, AllocError>
    ensures { IfOk result (λ found. found.items ≡ map (λ p. (p, p)) points.now) }
{
    points.iter().map(|point| (*point, *point)).collect(alloc)
}
