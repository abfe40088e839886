//! Squares of distances of edges and points.

ghost use Rattle.std.specs.Prelude.{◌≡◌, ◌≢◌, ◌≤◌, ◌+ℤ◌, ◌*ℤ◌, pos, unsigned_abs};
ghost use Rattle.sf_grid.specs.Bounds.{cross_bound, difference_bound};
ghost use Rattle.sf_grid.specs.Edge.{IsOnEdge, cross as cross_of, edge_between};
ghost use Rattle.sf_grid.specs.Plane.{IsSamePoint, grid_point};
ghost use Rattle.sf_distance.specs.Mixed.{number_of};
ghost use Rattle.sf_distance.specs.Nearest.{along as along_of, lesser as lesser_of, square_of as square_of_points, square_of_ends, square_to_edge as square_to_edge_of};
ghost use Rattle.sf_distance.specs.Squares.{IsLeastSquare};

use crate::square::Square;
use sf_grid::edges::meet;
use sf_grid::exact::{cross, difference, product};
use sf_grid::{GridPoint, Meet};

/// The square of the distance of two edges, in squared grid steps: no two points of theirs are nearer, and two are so near.
/// The ends of an edge may be one point here, which is then all that it has.
pub fn square_between_edges(e: &(GridPoint, GridPoint), f: &(GridPoint, GridPoint)) -> Square
    ensures { IsLeastSquare (IsOnEdge (edge_between e.now.0 e.now.1)) (IsOnEdge (edge_between f.now.0 f.now.1)) (number_of result) }
{
    if e.0 == e.1 {
        return square_from_point(e.0, f);
    }
    if f.0 == f.1 {
        return square_to_edge(e, f.0);
    }
    square_of_long(e, f)
}

/// The square of the distance of a grid point from an edge, whose ends may be one point.
fn square_from_point(p: GridPoint, e: &(GridPoint, GridPoint)) -> Square
    ensures { IsLeastSquare (λ q. IsSamePoint q (grid_point p)) (IsOnEdge (edge_between e.now.0 e.now.1)) (number_of result) }
{
    if e.0 == e.1 {
        return Square::whole(square_of(p, e.0));
    }
    square_to_edge(e, p)
}

/// The square of the distance of a grid point from an edge: no point of the edge is nearer, and one is so near.
fn square_to_edge(e: &(GridPoint, GridPoint), p: GridPoint) -> Square
    requires { e.now.0 ≢ e.now.1 }
    ensures { IsLeastSquare (λ q. IsSamePoint q (grid_point p)) (IsOnEdge (edge_between e.now.0 e.now.1)) (number_of result) }
{
    computed(e, p)
}

/// The square of the distance of two edges whose ends differ.
fn square_of_long(e: &(GridPoint, GridPoint), f: &(GridPoint, GridPoint)) -> Square
    requires first { e.now.0 ≢ e.now.1 }
    requires second { f.now.0 ≢ f.now.1 }
    ensures { IsLeastSquare (IsOnEdge (edge_between e.now.0 e.now.1)) (IsOnEdge (edge_between f.now.0 f.now.1)) (number_of result) }
{
    match meet(*e, *f) {
        Meet::Apart => of_ends(e, f),
        Meet::At(_) => Square::whole(0),
        Meet::Along(_, _) => Square::whole(0),
    }
}

/// The least square of the distance of an end of one of two edges from the other.
fn of_ends(e: &(GridPoint, GridPoint), f: &(GridPoint, GridPoint)) -> Square
    requires first { e.now.0 ≢ e.now.1 }
    requires second { f.now.0 ≢ f.now.1 }
    ensures { number_of result ≡ square_of_ends (edge_between e.now.0 e.now.1) (edge_between f.now.0 f.now.1) }
{
    lesser(
        lesser(computed(f, e.0), computed(f, e.1)),
        lesser(computed(e, f.0), computed(e, f.1)),
    )
}

/// The lesser of two squares.
fn lesser(a: Square, b: Square) -> Square
    ensures { number_of result ≡ lesser_of (number_of a) (number_of b) }
{
    if a.is_at_most(&b) { a } else { b }
}

/// The square of the distance of a grid point from an edge, as it is computed: from the edge's start, its end, or its line.
fn computed(e: &(GridPoint, GridPoint), p: GridPoint) -> Square
    requires { e.now.0 ≢ e.now.1 }
    ensures { number_of result ≡ square_to_edge_of (edge_between e.now.0 e.now.1) p }
{
    let along = along(e, p);
    let start = square_of(e.0, p);
    if along <= 0 {
        return Square::whole(start);
    }
    let length = square_of(e.0, e.1);
    if (along as u64) >= length {
        return Square::whole(square_of(e.1, p));
    }
    from_line(e, p, start, length)
}

/// The square of the distance of a point from the line of an edge, where those of its distance from the start and of the edge's
/// length are given.
fn from_line(e: &(GridPoint, GridPoint), p: GridPoint, start: u64, length: u64) -> Square
    requires some { 1 ≤ length }
    requires is { pos length ≡ square_of_points e.now.0 e.now.1 }
    requires small { length ≤ cross_bound }
    requires start_is { pos start ≡ square_of_points e.now.0 p }
    requires start_small { start ≤ cross_bound }
    ensures { number_of result ≡ record { num = cross_of e.now.0 e.now.1 (grid_point p) *ℤ cross_of e.now.0 e.now.1 (grid_point p); den = length } }
{
    let cross = u128::from(cross(e.0, e.1, p).unsigned_abs());
    Square::ratio(cross * cross, length)
}

/// How far along an edge a point lies, times the edge's length.
fn along(e: &(GridPoint, GridPoint), p: GridPoint) -> i64
    ensures { result ≡ along_of (edge_between e.now.0 e.now.1) p }
{
    sum_of_products(
        difference(e.1.x(), e.0.x()),
        difference(p.x(), e.0.x()),
        difference(e.1.y(), e.0.y()),
        difference(p.y(), e.0.y()),
    )
}

/// The square of the distance of two grid points.
fn square_of(a: GridPoint, b: GridPoint) -> u64
    ensures value { pos result ≡ square_of_points a b }
    ensures bound { result ≤ cross_bound }
{
    signed_square(a, b).unsigned_abs()
}

/// The same, with a sign.
fn signed_square(a: GridPoint, b: GridPoint) -> i64
    ensures value { result ≡ square_of_points a b }
    ensures bound { unsigned_abs result ≤ cross_bound }
{
    sum_of_products(
        difference(b.x(), a.x()),
        difference(b.x(), a.x()),
        difference(b.y(), a.y()),
        difference(b.y(), a.y()),
    )
}

/// The sum of two products of differences of coordinates.
fn sum_of_products(a: i64, b: i64, c: i64, d: i64) -> i64
    requires first { unsigned_abs a ≤ difference_bound }
    requires second { unsigned_abs b ≤ difference_bound }
    requires third { unsigned_abs c ≤ difference_bound }
    requires fourth { unsigned_abs d ≤ difference_bound }
    ensures value { result ≡ a *ℤ b +ℤ c *ℤ d }
    ensures bound { unsigned_abs result ≤ cross_bound }
{
    product(a, b) + product(c, d)
}
