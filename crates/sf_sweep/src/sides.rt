//! On which side of an edge a point with rational coordinates lies.

ghost use Rattle.std.specs.Prelude.{◌≡◌, ◌≤◌, ◌<◌, ◌*◌, ◌^◌, true, false, length, pos, ◌-ℤ◌, ◌*ℤ◌, unsigned_abs};
ghost use Rattle.sf_grid.specs.Bounds.{IsCoordinate, difference_bound};
ghost use Rattle.std.specs.List.{prefix_len};
ghost use Rattle.std.specs.List.Sorted.{IsPartitionPoint, IsPartitionedBy};
ghost use Rattle.sf_strips.specs.Slanted.{side_of};
ghost use Rattle.sf_sweep.specs.Sides.{is_below_edge, is_not_above};

use sf_grid::{Frac, FracPoint};
use sf_strips::{Active, Slanted};
use std::cmp::Ordering;

/// Where `p` lies in its column: below the line of the edge, on it, or above it.
pub fn side_at(edge: &Slanted, p: &FracPoint) -> Ordering
    ensures { result ≡ side_of edge.now.left edge.now.right p.now }
{
    let left = edge.left();
    let right = edge.right();
    let up = product(difference(left.x(), right.x()), distance(left.y(), &p.y()));
    let risen = product(difference(left.y(), right.y()), distance(left.x(), &p.x()));
    up.cmp(&risen)
}

/// How many edges from the first one on a point is below; it is below no further one.
pub fn above_len(edges: &[Active], p: &FracPoint) -> usize
    requires falling { IsPartitionedBy (is_below_edge p.now) edges.now }
    ensures bound { result ≤ length edges.now }
    ensures parted { IsPartitionPoint (λ a. is_below_edge p.now a ≡ true) (λ a. is_below_edge p.now a ≡ false) edges.now result }
{
    edges.partition_point(|edge| is_under(p, edge))
}

/// How many edges from the first one on a point isn't above; it is above all further ones. Few are level with it as a
/// rule, and each of these is looked at again, so they are counted one by one.
pub fn reached_len(edges: &[Active], p: &FracPoint) -> usize
    requires falling { IsPartitionedBy (is_not_above p.now) edges.now }
    ensures bound { result ≤ length edges.now }
    ensures parted { IsPartitionPoint (λ a. is_not_above p.now a ≡ true) (λ a. is_not_above p.now a ≡ false) edges.now result }
{
    not_over_len(edges, p)
}

/// How many edges from the first one on a point isn't above.
fn not_over_len(edges: &[Active], p: &FracPoint) -> usize
    ensures value { result ≡ prefix_len (is_not_above p.now) edges.now }
    ensures bound { result ≤ length edges.now }
{
    edges.iter().take_while(|edge| is_not_over(p, edge)).count()
}

/// Whether the point is below the edge.
fn is_under(p: &FracPoint, edge: &Active) -> bool
    ensures { result ≡ is_below_edge p.now edge.now }
{
    side_at(&edge.edge, p) == Ordering::Less
}

/// Whether the point isn't above the edge.
fn is_not_over(p: &FracPoint, edge: &Active) -> bool
    ensures { result ≡ is_not_above p.now edge.now }
{
    side_at(&edge.edge, p) != Ordering::Greater
}

/// How far `to` is from `from`.
fn difference(from: i32, to: i32) -> i128
    requires from { IsCoordinate from }
    requires to { IsCoordinate to }
    ensures value { result ≡ to -ℤ from }
    ensures bound { unsigned_abs result ≤ difference_bound }
{
    i128::from(to) - i128::from(from)
}

/// How far a place is from a coordinate, as often as the place's denominator says.
fn distance(from: i32, to: &Frac) -> i128
    requires from { IsCoordinate from }
    ensures value { result ≡ to.now.num -ℤ from *ℤ pos to.now.den }
    ensures bound { unsigned_abs result ≤ 2 ^ 94 }
{
    to.num() - product(i128::from(from), i128::from(to.den()))
}

/// The product of a coordinate, or a difference of two, and a number that isn't much larger than
/// those that stand for places.
fn product(a: i128, b: i128) -> i128
    requires first_small { unsigned_abs a ≤ difference_bound }
    requires second_small { unsigned_abs b ≤ 2 ^ 94 }
    ensures value { result ≡ a *ℤ b }
    ensures bound { unsigned_abs result ≤ difference_bound * unsigned_abs b }
{
    a * b
}
