//! Areas, by sums over the corners of rings.

ghost use Rattle.std.specs.Prelude.{◌≡◌, ◌≤◌, ◌+◌, ◌*◌, ◌^◌, ◌+ℤ◌, ◌-ℤ◌, ◌*ℤ◌, length, unsigned_abs};
ghost use Rattle.sf_geometry.specs.Parts.{joined};
ghost use Rattle.sf_geometry.specs.Size.{IsSized, points_max};
ghost use Rattle.sf_measure.specs.Areas.{doubled_area_of, doubled_in_polygon, doubled_in_polygons, doubled_in_ring, doubled_in_rings, shoelace as shoelace_of};

use sf_geometry::{Geometry, Sequence};
use sf_grid::GridPoint;
use sf_grid::exact::coordinate_product;

/// Twice the area of a geometry, in squared grid steps: of each polygon that of its shell less those of its holes. Of points
/// and lines it is 0. It is exact. One pass, with no memory.
pub fn doubled_area(geometry: &Geometry) -> i128
    requires sized { IsSized geometry.now }
    ensures { result ≡ doubled_area_of geometry.now }
{
    match geometry {
        Geometry::Polygon(rings) => of_polygon(rings.as_slice()),
        Geometry::MultiPolygon(polygons) => of_polygons(polygons.as_slice()),
        Geometry::Point(_)
        | Geometry::LineString(_)
        | Geometry::MultiPoint(_)
        | Geometry::MultiLineString(_) => 0,
    }
}

/// Twice the area of some polygons together.
fn of_polygons(polygons: &[Sequence<Sequence<GridPoint>>]) -> i128
    requires few { length (joined (joined polygons.now)) ≤ points_max }
    ensures { result ≡ doubled_in_polygons polygons.now }
{
    let mut sum: i128 = 0;
    for rings in polygons {
        sum += of_polygon(rings.as_slice());
    }
    sum
}

/// Twice the area of a polygon.
fn of_polygon(rings: &[Sequence<GridPoint>]) -> i128
    requires few { length (joined rings.now) ≤ points_max }
    ensures value { result ≡ doubled_in_polygon rings.now }
    ensures bound { unsigned_abs result ≤ 2 ^ 61 * length (joined rings.now) }
{
    let Some((shell, holes)) = rings.split_first() else {
        return 0;
    };
    of_ring(shell.as_slice()) - of_rings(holes)
}

/// Twice the area of some rings together.
fn of_rings(rings: &[Sequence<GridPoint>]) -> i128
    requires few { length (joined rings.now) ≤ points_max }
    ensures value { result ≡ doubled_in_rings rings.now }
    ensures bound { unsigned_abs result ≤ 2 ^ 61 * length (joined rings.now) }
{
    let mut sum: i128 = 0;
    for ring in rings {
        sum += of_ring(ring.as_slice());
    }
    sum
}

/// Twice the area of a ring.
fn of_ring(ring: &[GridPoint]) -> i128
    requires few { length ring.now ≤ points_max }
    ensures value { result ≡ doubled_in_ring ring.now }
    ensures bound { unsigned_abs result ≤ 2 ^ 61 * length ring.now }
{
    shoelace(ring).abs()
}

/// The sum over the steps of a chain, which is twice the area that a closed one goes round to the left.
fn shoelace(points: &[GridPoint]) -> i128
    requires few { length points.now ≤ points_max }
    ensures value { result ≡ shoelace_of points.now }
    ensures bound { unsigned_abs result ≤ 2 ^ 61 * length points.now }
{
    let Some((first, others)) = points.split_first() else {
        return 0;
    };
    let mut from = *first;
    let mut sum: i128 = 0;
    for to in others {
        sum = with_step(sum, from, *to);
        from = *to;
    }
    sum
}

/// The sum and what one more step adds.
fn with_step(sum: i128, from: GridPoint, to: GridPoint) -> i128
    requires { unsigned_abs sum ≤ 2 ^ 61 * points_max }
    ensures value { result ≡ sum +ℤ (from.x *ℤ to.y -ℤ from.y *ℤ to.x) }
    ensures bound { unsigned_abs result ≤ unsigned_abs sum + 2 ^ 61 }
{
    sum + i128::from(step(from, to))
}

/// What a step adds.
fn step(from: GridPoint, to: GridPoint) -> i64
    ensures value { result ≡ from.x *ℤ to.y -ℤ from.y *ℤ to.x }
    ensures bound { unsigned_abs result ≤ 2 ^ 61 }
{
    coordinate_product(from.x(), to.y()) - coordinate_product(from.y(), to.x())
}
