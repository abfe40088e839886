//! Whether a part of one geometry begins in another.

ghost use Rattle.std.specs.Prelude.{◌≡◌};
ghost use Rattle.std.specs.List.{list_any};
ghost use Rattle.sf_grid.specs.Plane.{grid_point};
ghost use Rattle.sf_relate.specs.Contact.{is_in};
ghost use Rattle.sf_contact.specs.Absence.{begins_in, has_start_in};

use sf_geometry::{Geometry, Sequence};
use sf_grid::GridPoint;
use sf_relate::is_in;
use sf_validity::Valid;

/// Whether a point, or the first point of a line or of a ring, of `a` lies in `b`.
pub(crate) fn has_start_in(a: &Valid, b: &Valid) -> bool
    ensures { result ≡ has_start_in a.now b.now }
{
    match a.geometry() {
        Geometry::Point(point) => is_in(b, *point),
        Geometry::MultiPoint(points) => has_point_in(b, points.as_slice()),
        Geometry::LineString(line) => begins_in(b, line.as_slice()),
        Geometry::MultiLineString(lines) => do_begin_in(b, lines.as_slice()),
        Geometry::Polygon(rings) => do_begin_in(b, rings.as_slice()),
        Geometry::MultiPolygon(polygons) => do_polygons_begin_in(b, polygons.as_slice()),
    }
}

/// Whether one of the points lies in a geometry.
fn has_point_in(geometry: &Valid, points: &[GridPoint]) -> bool
    ensures { result ≡ list_any (λ p. is_in geometry.now (grid_point p)) points.now }
{
    points.iter().any(|point| is_in(geometry, *point))
}

/// Whether a ring of one of the polygons begins in a geometry.
fn do_polygons_begin_in(geometry: &Valid, polygons: &[Sequence<Sequence<GridPoint>>]) -> bool
    ensures { result ≡ list_any (λ rings. list_any (begins_in geometry.now) rings) polygons.now }
{
    polygons
        .iter()
        .any(|rings| do_begin_in(geometry, rings.as_slice()))
}

/// Whether one of the lines or rings begins in a geometry.
fn do_begin_in(geometry: &Valid, lines: &[Sequence<GridPoint>]) -> bool
    ensures { result ≡ list_any (begins_in geometry.now) lines.now }
{
    lines
        .iter()
        .any(|line| begins_in(geometry, line.as_slice()))
}

/// Whether the first point of a line or ring lies in a geometry.
fn begins_in(geometry: &Valid, line: &[GridPoint]) -> bool
    ensures { result ≡ begins_in geometry.now line.now }
{
    match line.first() {
        Some(point) => is_in(geometry, *point),
        None => false,
    }
}
