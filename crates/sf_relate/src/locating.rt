//! Where a point of the grid lies in a geometry, by one pass over its edges.

ghost use Rattle.std.specs.Prelude.{◌≡◌, ◌||◌, ◌∷◌, [], int_lt};
ghost use Rattle.std.specs.Int.{int_max, int_min};
ghost use Rattle.std.specs.List.{flat_map, list_any};
ghost use Rattle.sf_grid.specs.Edge.{on_edge};
ghost use Rattle.sf_grid.specs.Plane.{grid_point, same_point};
ghost use Rattle.sf_geometry.specs.Lists.{edges_of as edges_of_list, ends_of};
ghost use Rattle.sf_geometry.specs.Parts.{edges_of, joined};
ghost use Rattle.sf_geometry.specs.PointSets.{is_among, on_line};
ghost use Rattle.sf_relate.specs.Contact.{is_in};
ghost use Rattle.sf_relate.specs.Locating.{edges_place, line_place, place_by_tests, point_place};
ghost use Rattle.sf_relate.specs.Places.{IsPlaceOf};

use super::by_kinds::is_odd_end;
use super::place::Place;
use sf_geometry::{EdgeTest, Geometry, Sequence, line_ends};
use sf_grid::GridPoint;
use sf_grid::edges::{is_above, on_edge};
use sf_validity::Valid;

/// Where a point of the grid lies in a geometry. One pass over its edges, with no memory.
pub fn locate(geometry: &Valid, point: GridPoint) -> Place
    ensures { IsPlaceOf geometry.now (grid_point point) result }
{
    place_in(geometry.geometry(), point)
}

/// Whether a point of the grid lies in a geometry.
pub fn is_in(geometry: &Valid, point: GridPoint) -> bool
    ensures { result ≡ is_in geometry.now (grid_point point) }
{
    locate(geometry, point).is_in()
}

/// The place in a geometry, by the tests of its kind.
fn place_in(geometry: &Geometry, point: GridPoint) -> Place
    ensures { result ≡ place_by_tests geometry.now (grid_point point) }
{
    match geometry {
        Geometry::Point(at) => place_by_presence(is_at(*at, point)),
        Geometry::MultiPoint(points) => place_by_presence(is_one_of(points.as_slice(), point)),
        Geometry::LineString(line) => place_on_lines(
            geometry,
            is_end(line.as_slice(), point),
            point,
        ),
        Geometry::MultiLineString(lines) => {
            place_on_lines(geometry, is_odd_end(lines.as_slice(), point), point)
        }
        Geometry::Polygon(rings) => place_in_rings(rings.as_slice(), point),
        Geometry::MultiPolygon(polygons) => place_in_polygons(polygons.as_slice(), point),
    }
}

/// The place in points, by whether one of them is there.
fn place_by_presence(is_there: bool) -> Place
    ensures { result ≡ point_place is_there }
{
    if is_there {
        Place::Interior
    } else {
        Place::Exterior
    }
}

/// The place in lines, by whether an odd number of them ends there.
fn place_on_lines(geometry: &Geometry, is_odd_end: bool, point: GridPoint) -> Place
    ensures { result ≡ line_place (list_any (λ e. on_edge e (grid_point point)) (edges_of geometry.now)) is_odd_end }
{
    if is_odd_end {
        Place::Boundary
    } else if geometry.any_edge(&EdgesAt { point }) {
        Place::Interior
    } else {
        Place::Exterior
    }
}

/// Searches for edges that have a point.
#[derive(Drop)]
struct EdgesAt {
    point: GridPoint,
}

impl EdgeTest for EdgesAt {
    ghost use Rattle.sf_grid.specs.Edge.{IsOnEdge};

    ghost Passes = { λ s edge. IsOnEdge edge (grid_point s.point) };

    fn test(&self, from: GridPoint, to: GridPoint) -> bool {
        on_edge(self.point, from, to)
    }
}

/// Whether the point is the first or the last one of a line that isn't closed.
pub(crate) fn is_end(line: &[GridPoint], point: GridPoint) -> bool
    ensures { result ≡ is_among (ends_of line.now) (grid_point point) }
{
    match line_ends(line) {
        Some((first, last)) => is_at(first, point) || is_at(last, point),
        None => false,
    }
}

/// Whether both are one point.
fn is_at(a: GridPoint, b: GridPoint) -> bool
    ensures { result ≡ same_point (grid_point a) (grid_point b) }
{
    a == b
}

/// Whether the point is one of several.
fn is_one_of(points: &[GridPoint], point: GridPoint) -> bool
    ensures { result ≡ is_among points.now (grid_point point) }
{
    points.iter().any(|at| is_at(*at, point))
}

/// Whether the edge between two neighbours has the point. Equal ones have no edge.
fn is_on_neighbours(from: GridPoint, to: GridPoint, point: GridPoint) -> bool
    ensures { result ≡ on_line (from ∷ to ∷ []) (grid_point point) }
{
    from != to && on_edge(point, from, to)
}

/// The place in polygons, by the edges of all their rings.
fn place_in_polygons(polygons: &[Sequence<Sequence<GridPoint>>], point: GridPoint) -> Place
    ensures { result ≡ edges_place (flat_map edges_of_list (joined polygons.now)) (grid_point point) }
{
    let mut place = Place::Exterior;
    for rings in polygons {
        place = place.in_one_alone(place_in_rings(rings.as_slice(), point));
        if let Place::Boundary = place {
            return place;
        }
    }
    place
}

/// The place in a polygon, by the edges of its rings.
fn place_in_rings(rings: &[Sequence<GridPoint>], point: GridPoint) -> Place
    ensures { result ≡ edges_place (flat_map edges_of_list rings.now) (grid_point point) }
{
    let mut place = Place::Exterior;
    for ring in rings {
        place = place.in_one_alone(place_in_ring(ring.as_slice(), point));
        if let Place::Boundary = place {
            return place;
        }
    }
    place
}

/// The place in one ring, by its edges.
fn place_in_ring(ring: &[GridPoint], point: GridPoint) -> Place
    ensures { result ≡ edges_place (edges_of_list ring.now) (grid_point point) }
{
    let Some((first, others)) = ring.split_first() else {
        return Place::Exterior;
    };
    let mut from = *first;
    let mut place = Place::Exterior;
    for to in others {
        place = place.in_one_alone(place_by_neighbours(from, *to, point));
        if let Place::Boundary = place {
            return place;
        }
        from = *to;
    }
    place
}

/// What the edge between two neighbours says of the place: that the point is on it, or below it.
/// Equal ones have no edge. Most edges lie in columns beside it, which is told soonest.
fn place_by_neighbours(from: GridPoint, to: GridPoint, point: GridPoint) -> Place
    ensures { result ≡ edges_place (edges_of_list (from ∷ to ∷ [])) (grid_point point) }
{
    if are_beside(from, to, point) {
        Place::Exterior
    } else if is_on_neighbours(from, to, point) {
        Place::Boundary
    } else if is_above(from, to, point) {
        Place::Interior
    } else {
        Place::Exterior
    }
}

/// Whether two points are both in columns on the left of a point's, or both on the right.
fn are_beside(a: GridPoint, b: GridPoint, point: GridPoint) -> bool
    ensures { result ≡ (int_lt (int_max a.x b.x) point.x || int_lt point.x (int_min a.x b.x)) }
{
    a.x().max(b.x()) < point.x() || point.x() < a.x().min(b.x())
}
