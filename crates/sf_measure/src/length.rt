//! Lengths, by the roots of the squares of edges.

ghost use Rattle.std.specs.Prelude.{◌≡◌, ◌≤◌, ◌*◌, ◌^◌, ◌/◌, ◌∷◌, [], length};
ghost use Rattle.std.specs.List.{flat_map};
ghost use Rattle.sf_grid.specs.Bounds.{cross_bound};
ghost use Rattle.sf_grid.specs.Edge.{edge_between};
ghost use Rattle.sf_geometry.specs.Lists.{edges_of as edges_of_list};
ghost use Rattle.sf_geometry.specs.Parts.{joined};
ghost use Rattle.sf_geometry.specs.Size.{IsSized, points_max};
ghost use Rattle.sf_measure.specs.Lengths.{length_square, parts_of_edge, parts_of_edges, parts_of_step, thousandths_of};

use sf_geometry::{Geometry, Sequence};
use sf_grid::GridPoint;
use sf_grid::exact::{difference, product};

/// How many parts a grid step has.
const PARTS_OF_STEP: u128 = 1 << 32;

/// The length of a geometry's lines, or of all rings of its polygons, in thousandths of a grid step. Of points it is 0.
///
/// The length of each edge is rounded down to 1/2^32 of a step, and their sum to a thousandth. So of a geometry of 65,536 points
/// the answer is at most the length, and the length less than 0.001016 steps above it. One pass, with no memory.
pub fn length_in_thousandths(geometry: &Geometry) -> u64
    requires sized { IsSized geometry.now }
    ensures { result ≡ thousandths_of geometry.now }
{
    in_thousandths(match geometry {
        Geometry::Point(_) | Geometry::MultiPoint(_) => 0,
        Geometry::LineString(points) => of_list(points.as_slice()),
        Geometry::Polygon(lists) | Geometry::MultiLineString(lists) => of_lists(lists.as_slice()),
        Geometry::MultiPolygon(polygons) => of_polygons(polygons.as_slice()),
    })
}

/// Parts of a step in thousandths of one, rounded down.
fn in_thousandths(parts: u128) -> u64
    requires { parts ≤ 2 ^ 64 * points_max }
    ensures { result ≡ (parts * 1000) / parts_of_step }
{
    (parts * 1000 / PARTS_OF_STEP) as u64
}

/// The length of the rings of some polygons.
fn of_polygons(polygons: &[Sequence<Sequence<GridPoint>>]) -> u128
    requires few { length (joined (joined polygons.now)) ≤ points_max }
    ensures value { result ≡ parts_of_edges (flat_map edges_of_list (joined polygons.now)) }
    ensures bound { result ≤ 2 ^ 64 * length (joined (joined polygons.now)) }
{
    let mut parts: u128 = 0;
    for rings in polygons {
        parts += of_lists(rings.as_slice());
    }
    parts
}

/// The length of some lines or rings.
fn of_lists(lists: &[Sequence<GridPoint>]) -> u128
    requires few { length (joined lists.now) ≤ points_max }
    ensures value { result ≡ parts_of_edges (flat_map edges_of_list lists.now) }
    ensures bound { result ≤ 2 ^ 64 * length (joined lists.now) }
{
    let mut parts: u128 = 0;
    for points in lists {
        parts += of_list(points.as_slice());
    }
    parts
}

/// The length of a line or ring.
fn of_list(points: &[GridPoint]) -> u128
    requires few { length points.now ≤ points_max }
    ensures value { result ≡ parts_of_edges (edges_of_list points.now) }
    ensures bound { result ≤ 2 ^ 64 * length points.now }
{
    let Some((first, others)) = points.split_first() else {
        return 0;
    };
    let mut from = *first;
    let mut parts: u128 = 0;
    for to in others {
        parts += of_step(from, *to);
        from = *to;
    }
    parts
}

/// The length of the step from a point to the next, which may be the same.
fn of_step(from: GridPoint, to: GridPoint) -> u128
    ensures value { result ≡ parts_of_edges (edges_of_list (from ∷ to ∷ [])) }
    ensures bound { result ≤ 2 ^ 64 }
{
    if from == to {
        return 0;
    }
    of_edge(from, to)
}

/// The length of an edge.
fn of_edge(from: GridPoint, to: GridPoint) -> u128
    ensures value { result ≡ parts_of_edge (edge_between from to) }
    ensures bound { result ≤ 2 ^ 64 }
{
    (square_of(from, to) * (PARTS_OF_STEP * PARTS_OF_STEP)).isqrt()
}

/// The square of the distance of two points.
fn square_of(from: GridPoint, to: GridPoint) -> u128
    ensures value { result ≡ length_square (edge_between from to) }
    ensures bound { result ≤ cross_bound }
{
    let x = difference(to.x(), from.x());
    let y = difference(to.y(), from.y());
    u128::from((product(x, x) + product(y, y)).unsigned_abs())
}
