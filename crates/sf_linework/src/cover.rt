//! What it shows of two lines, or of a line and an area, whether the edges of one lie in those of the other, and where they end.

ghost use Rattle.std.specs.Prelude.{◌≡◌, IfSome, IsTrue, is_some, take};
ghost use Rattle.std.specs.List.{list_any};
ghost use Rattle.sf_along.specs.Covers.{LieAlong};
ghost use Rattle.sf_geometry.specs.PointSets.{in_exterior, in_interior};
ghost use Rattle.sf_grid.specs.Plane.{grid_point};
ghost use Rattle.sf_known.specs.Known.{Holds};
ghost use Rattle.sf_linework.specs.Cover.{EndsAreSeen, IsKnownByCover, have_cover, if_long, known_of_covered, known_of_ends_at, seen_starts};
ghost use Rattle.sf_linework.specs.Points.{seen_points};
ghost use Rattle.sf_linework.specs.declared.cover.Cover.TheVariants.{Ends, Whole};
ghost use Rattle.sf_linework.specs.declared.cover.TheConstants.{FEW_ENDS};
ghost use Rattle.sf_linework.specs.declared.ends.Seen.{Seen};
ghost use Rattle.sf_relate.specs.Matrices.{matrix_of};
ghost use Rattle.sf_relate.specs.Places.{shape_of};

use super::alongside::{entry_alongside, known_of_length};
use super::ends::Seen;
use super::within::has_edge_within;
use sf_along::uncovered_ends;
use sf_grid::GridPoint;
use sf_known::Known;
use sf_plane::Dim::{self, Nothing, One, Two};
use sf_relate::{Shape, locate};
use sf_validity::Valid;
use std::alloc::Global;

/// How many ends of edges are looked up in the other geometry at a time. One that is off it is found soon, where there are some.
const FEW_ENDS: usize = 16;

/// What it shows of the matrix of two lines, or of a line and an area, whether the edges of each lie in edges of the other. None of
/// other geometries.
pub fn known_by_cover(alloc: Global, a: &Valid, b: &Valid) -> Option<Known>
    ensures holds { IfSome result (λ known. Holds known (matrix_of a.now b.now)) }
    ensures answers { is_some result ≡ have_cover (shape_of a.now) (shape_of b.now) }
{
    if !have_cover(Shape::of(a.geometry()), Shape::of(b.geometry())) {
        return None;
    }
    let first = known_by_own_cover(alloc, a, b);
    let second = known_by_own_cover(alloc, b, a).transposed();
    let along = known_by_few_edges(alloc, a, b);
    Some(first.and(&second).and(&along))
}

/// That interiors, or interior and border, share a length, where one of a few edges of the first geometry lies in an edge of the second.
fn known_by_few_edges(alloc: Global, a: &Valid, b: &Valid) -> Known
    ensures { Holds result (matrix_of a.now b.now) }
{
    let Some(entry) = entry_alongside(Shape::of(a.geometry()), Shape::of(b.geometry())) else {
        return Known::nothing();
    };
    match has_edge_within(alloc, a.geometry(), b.geometry()) {
        Ok(along) if along => known_of_length(entry, true),
        _ => Known::nothing(),
    }
}

/// Whether they are two lines, or a line and an area.
fn have_cover(a: Shape, b: Shape) -> bool
    ensures { result ≡ have_cover a b }
{
    matches!(
        (a, b),
        (Shape::Lines, Shape::Lines | Shape::Areas) | (Shape::Areas, Shape::Lines)
    )
}

/// What the edges of the first geometry show.
fn known_by_own_cover(alloc: Global, a: &Valid, b: &Valid) -> Known
    ensures holds { Holds result (matrix_of a.now b.now) }
    ensures known { IsKnownByCover a.now b.now result }
{
    let first = Shape::of(a.geometry());
    let second = Shape::of(b.geometry());
    match cover_of(alloc, a, b, second) {
        Cover::Whole => known_of_covered(first, second),
        Cover::Ends(seen) => known_of_ends_at(first, second, seen),
    }
}

/// Whether the edges of a geometry lie in those of another.
enum Cover {
    /// Each lies in one.
    Whole,
    /// That was not found; some of them end in these places of the other geometry.
    Ends(Seen),
}

/// Whether the edges of the first geometry lie in those of the second, of which the shape is given. Where a few of them start is looked
/// at before all are sorted.
fn cover_of(alloc: Global, a: &Valid, b: &Valid, shape: Shape) -> Cover
    ensures whole { result ≡ Whole → LieAlong a.now b.now }
    ensures ends { (seen : Seen) → result ≡ Ends seen → EndsAreSeen a.now b.now seen }
{
    let Ok(edges) = a.geometry().edges(alloc) else {
        return Cover::Ends(Seen::none());
    };
    let seen = seen_at_starts(b, edges.as_slice(), shape);
    if is_told(shape, seen) {
        return Cover::Ends(seen);
    }
    let Ok(ends) = uncovered_ends(alloc, a.geometry(), b.geometry()) else {
        return Cover::Ends(seen);
    };
    if ends.is_empty() {
        return Cover::Whole;
    }
    Cover::Ends(seen.or(seen_of_points(b, first_few(ends.as_slice()))))
}

/// Whether such ends show something of a geometry of that shape.
fn is_told(shape: Shape, seen: Seen) -> bool {
    match shape {
        Shape::Areas => seen.interior || seen.exterior,
        _ => seen.exterior,
    }
}

/// In which places of a geometry of a shape a few edges start: the first ones, and where these don't show all, some from the middle on.
fn seen_at_starts(geometry: &Valid, edges: &[(GridPoint, GridPoint)], shape: Shape) -> Seen
    ensures interior { IsTrue result.interior → IsTrue (list_any (λ edge. in_interior geometry.now (grid_point edge.0)) edges.now) }
    ensures exterior { IsTrue result.exterior → IsTrue (list_any (λ edge. in_exterior geometry.now (grid_point edge.0)) edges.now) }
{
    let (early, late) = edges.split_at(edges.len() / 2);
    let first = seen_of_starts(geometry, first_few(early));
    if is_all_told(shape, first) {
        return first;
    }
    let second = seen_of_starts(geometry, first_few(late));
    first.or(second)
}

/// Whether further ends show nothing more of a geometry of that shape.
fn is_all_told(shape: Shape, seen: Seen) -> bool {
    match shape {
        Shape::Areas => seen.interior && seen.exterior,
        _ => seen.exterior,
    }
}

/// The first few of them.
fn first_few<T>(items: &[T]) -> &[T]
    ensures { result.now ≡ take FEW_ENDS items.now }
{
    &items[..items.len().min(FEW_ENDS)]
}

/// In which places of a geometry these edges start.
fn seen_of_starts(geometry: &Valid, edges: &[(GridPoint, GridPoint)]) -> Seen
    ensures { result ≡ seen_starts geometry.now edges.now }
{
    let mut seen = Seen::none();
    for edge in edges {
        seen = seen.or(Seen::at(locate(geometry, edge.0)));
    }
    seen
}

/// In which places of a geometry these points are.
fn seen_of_points(geometry: &Valid, points: &[GridPoint]) -> Seen
    ensures { result ≡ seen_points geometry.now points.now }
{
    let mut seen = Seen::none();
    for point in points {
        seen = seen.or(Seen::at(locate(geometry, *point)));
    }
    seen
}

/// What is known where each edge of the first one lies in an edge of the second.
fn known_of_covered(a: Shape, b: Shape) -> Known
    ensures { result ≡ known_of_covered a b }
{
    let (least, most) = match (a, b) {
        (Shape::Lines, Shape::Lines) => (
            [
                One, Nothing, Nothing, Nothing, Nothing, Nothing, Nothing, Nothing, Nothing,
            ],
            [Two, Two, Nothing, Two, Two, Nothing, Two, Two, Two],
        ),
        (Shape::Lines, Shape::Areas) => (
            [
                Nothing, One, Nothing, Nothing, Nothing, Nothing, Nothing, Nothing, Nothing,
            ],
            [Nothing, Two, Nothing, Nothing, Two, Nothing, Two, Two, Two],
        ),
        (Shape::Areas, Shape::Lines) => (
            [Nothing; 9],
            [Two, Two, Two, Two, Two, Nothing, Two, Two, Two],
        ),
        _ => return Known::nothing(),
    };
    Known {
        least,
        most,
        contact: false,
    }
}

/// What is known where edges of the first one end in these places of the second.
fn known_of_ends_at(a: Shape, b: Shape, seen: Seen) -> Known
    ensures { result ≡ known_of_ends_at a b seen }
{
    let mut least = [Nothing; 9];
    match (a, b) {
        (Shape::Lines, Shape::Lines) => least[2] = if_long(seen.exterior),
        (Shape::Lines, Shape::Areas) => {
            least[0] = if_long(seen.interior);
            least[2] = if_long(seen.exterior);
        }
        (Shape::Areas, Shape::Lines) => least[5] = if_long(seen.exterior),
        _ => return Known::nothing(),
    }
    Known {
        least,
        ..Known::nothing()
    }
}

/// A length, if an end was seen.
fn if_long(seen: bool) -> Dim
    ensures { result ≡ if_long seen }
{
    if seen { One } else { Nothing }
}
