//! Boxes of edges, and how far boxes are apart.

ghost use Rattle.std.specs.Prelude.{◌≡◌, ◌<◌, ◌-◌, ◌^◌, ◌-ℤ◌, ◌<ℤ◌, fold, length, min, negsuc, pos};
ghost use Rattle.std.specs.Int.{int_max};
ghost use Rattle.sf_edge_distance.specs.Boxes.{AreApartBy, IsOver, axis_gap, gap_square, with_edge};

use sf_distance::Square;
use sf_geometry::Extent;
use sf_grid::GridPoint;

/// An edge by its ends, which may be one point.
pub(crate) type Edge = (GridPoint, GridPoint);

/// A box that has all points of some edges.
pub(crate) fn extent_of(edges: &[Edge]) -> Extent
    requires { 0 < length edges.now }
    ensures { IsOver result edges.now }
{
    extent_from(Extent::at(edges[0].0), edges)
}

/// A box that has all points of some edges, and all of another box.
fn extent_from(extent: Extent, edges: &[Edge]) -> Extent
    ensures { result ≡ fold with_edge extent edges.now }
{
    edges
        .iter()
        .fold(extent, |extent, edge| extent_with(extent, edge))
}

/// A box with an edge beside what it has.
fn extent_with(extent: Extent, edge: &Edge) -> Extent
    ensures { result ≡ with_edge extent edge.now }
{
    extent.with(edge.0).with(edge.1)
}

/// The square of how far two boxes are apart, or 2^64 - 1 where it is more, in squared grid steps: no point of the one is
/// nearer to a point of the other.
pub fn square_of_gap(a: Extent, b: Extent) -> Square
    ensures value { result ≡ record { whole = min (gap_square a b) (2 ^ 64 - 1); rest = 0; den = 1 } }
    ensures apart { AreApartBy a b result }
{
    let across = gap_of(a.min_x, a.max_x, b.min_x, b.max_x);
    let up = gap_of(a.min_y, a.max_y, b.min_y, b.max_y);
    Square::whole((across * across).saturating_add(up * up))
}

/// How far the numbers from `low` to `high` are apart from those from `other_low` to `other_high`.
fn gap_of(low: i32, high: i32, other_low: i32, other_high: i32) -> u64
    ensures value { pos result ≡ axis_gap low high other_low other_high }
    ensures small { result < 2 ^ 32 }
{
    let after = difference(other_low, high);
    let before = difference(low, other_high);
    positive(greater(after, before))
}

/// How much greater one number is than another.
fn difference(a: i32, b: i32) -> i64
    ensures value { result ≡ a -ℤ b }
    ensures low { negsuc (2 ^ 32) <ℤ result }
    ensures high { result <ℤ pos (2 ^ 32) }
{
    i64::from(a) - i64::from(b)
}

fn greater(a: i64, b: i64) -> i64
    ensures { result ≡ int_max a b }
{
    a.max(b)
}

/// A number, or 0 where it is negative.
fn positive(n: i64) -> u64
    ensures { pos result ≡ int_max (pos 0) n }
{
    if n > 0 { n as u64 } else { 0 }
}
