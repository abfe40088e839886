//! Whether two geometries are written alike.

ghost use Rattle.std.specs.Prelude.{◌≡◌, ◌↔◌, IsTrue};

use sf_geometry::{Geometry, Sequence};
use sf_grid::GridPoint;

/// Whether two geometries are written alike: of one kind, with the same points in the same order.
pub(crate) fn are_alike(a: &Geometry, b: &Geometry) -> bool
    ensures { IsTrue result ↔ (a.now ≡ b.now) }
{
    match (a, b) {
        (Geometry::Point(a), Geometry::Point(b)) => a == b,
        (Geometry::LineString(a), Geometry::LineString(b))
        | (Geometry::MultiPoint(a), Geometry::MultiPoint(b)) => {
            are_same_points(a.as_slice(), b.as_slice())
        }
        (Geometry::Polygon(a), Geometry::Polygon(b))
        | (Geometry::MultiLineString(a), Geometry::MultiLineString(b)) => {
            are_same_lists(a.as_slice(), b.as_slice())
        }
        (Geometry::MultiPolygon(a), Geometry::MultiPolygon(b)) => {
            are_same_polygons(a.as_slice(), b.as_slice())
        }
        _ => false,
    }
}

/// Whether two polygons of each place are the same.
fn are_same_polygons(
    a: &[Sequence<Sequence<GridPoint>>],
    b: &[Sequence<Sequence<GridPoint>>],
) -> bool
    ensures { IsTrue result ↔ (a.now ≡ b.now) }
{
    a.len() == b.len()
        && a.iter()
            .zip(b.iter())
            .all(|(a, b)| are_same_lists(a.as_slice(), b.as_slice()))
}

/// Whether two rings or lines of each place are the same.
fn are_same_lists(a: &[Sequence<GridPoint>], b: &[Sequence<GridPoint>]) -> bool
    ensures { IsTrue result ↔ (a.now ≡ b.now) }
{
    a.len() == b.len()
        && a.iter()
            .zip(b.iter())
            .all(|(a, b)| are_same_points(a.as_slice(), b.as_slice()))
}

/// Whether two points of each place are the same.
fn are_same_points(a: &[GridPoint], b: &[GridPoint]) -> bool
    ensures { IsTrue result ↔ (a.now ≡ b.now) }
{
    a == b
}
