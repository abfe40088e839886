//! Two edges that cross, and whether other edges have the point where they do.

ghost use Rattle.std.specs.Prelude.{◌≡◌, ◌≢◌, ◌↔◌, ◌<◌, length, IsTrue};
ghost use Rattle.std.specs.List.{AllByRecursion};
ghost use Rattle.sf_grid.specs.Edge.{IsOnEdge};
ghost use Rattle.sf_grid.specs.Plane.{same_point};
ghost use Rattle.sf_geometry.specs.Envelope.{extents_meet};
ghost use Rattle.sf_geometry.specs.Parts.{edge_of};
ghost use Rattle.sf_edge_tree.specs.Boxes.{extent_of_edge};
ghost use Rattle.sf_crossing.specs.Crossing.{CrossAlone, IsAlone, MayHave, are_parted, do_cross};

use sf_geometry::Extent;
use sf_grid::edges::{meet, orientation};
use sf_grid::{FracPoint, GridPoint, Meet, Turn};
use std::cmp::Ordering;

/// An edge, by its ends.
pub(crate) type Edge = (GridPoint, GridPoint);

/// Whether two edges, by their numbers in two lists, cross at a point that no other edge of the lists has.
pub(crate) fn cross_alone(first: &[Edge], second: &[Edge], i: usize, j: usize) -> bool
    requires first_long { AllByRecursion (λ pair. pair.0 ≢ pair.1) first.now }
    requires second_long { AllByRecursion (λ pair. pair.0 ≢ pair.1) second.now }
    requires in_first { i < length first.now }
    requires in_second { j < length second.now }
    ensures { IsTrue result ↔ CrossAlone first.now second.now i j }
{
    let edge = &first[i];
    let other = &second[j];
    if !do_cross(edge, other) {
        return false;
    }
    match meet(*edge, *other) {
        Meet::At(point) => is_alone(first, i, other, &point) && is_alone(second, j, edge, &point),
        Meet::Apart => false,
        Meet::Along(..) => false,
    }
}

/// Whether each of two edges leads from one side of the other to the other side.
pub(crate) fn do_cross(e: &Edge, f: &Edge) -> bool
    ensures { result ≡ do_cross (edge_of e.now) (edge_of f.now) }
{
    are_parted(e, f.0, f.1) && are_parted(f, e.0, e.1)
}

/// Whether two points are on different sides of the line through the ends of an edge.
fn are_parted(edge: &Edge, c: GridPoint, d: GridPoint) -> bool
    ensures { result ≡ are_parted (edge_of edge.now) c d }
{
    match (
        orientation(edge.0, edge.1, c),
        orientation(edge.0, edge.1, d),
    ) {
        (Turn::Left, Turn::Right) | (Turn::Right, Turn::Left) => true,
        _ => false,
    }
}

/// Whether none of the edges has a point of the edge `line`, but the one with this number. An edge that runs along `line`
/// is taken to have it.
fn is_alone(edges: &[Edge], number: usize, line: &Edge, point: &FracPoint) -> bool
    requires long { AllByRecursion (λ pair. pair.0 ≢ pair.1) edges.now }
    requires line_long { line.now.0 ≢ line.now.1 }
    requires on_line { IsOnEdge (edge_of line.now) point.now }
    ensures { IsTrue result ↔ IsAlone edges.now number (edge_of line.now) point.now }
{
    for other in 0..edges.len() {
        if other != number && may_have(&edges[other], line, point) {
            return false;
        }
    }
    true
}

/// Whether an edge has a point of the edge `line`, or runs along it.
fn may_have(edge: &Edge, line: &Edge, point: &FracPoint) -> bool
    requires long { edge.now.0 ≢ edge.now.1 }
    requires line_long { line.now.0 ≢ line.now.1 }
    requires on_line { IsOnEdge (edge_of line.now) point.now }
    ensures { IsTrue result ↔ MayHave (edge_of edge.now) (edge_of line.now) point.now }
{
    // only a reader of the point tells that it is one of the plane
    let _column = point.x();
    if !are_near(edge, line) {
        return false;
    }
    match meet(*edge, *line) {
        Meet::Apart => false,
        Meet::At(shared) => is_same(&shared, point),
        Meet::Along(..) => true,
    }
}

/// Whether the boxes of two edges share a point.
fn are_near(a: &Edge, b: &Edge) -> bool
    ensures { result ≡ extents_meet (extent_of_edge a.now) (extent_of_edge b.now) }
{
    Extent::at(a.0).with(a.1).meets(Extent::at(b.0).with(b.1))
}

/// Whether two points are one.
fn is_same(a: &FracPoint, b: &FracPoint) -> bool
    ensures { result ≡ same_point a.now b.now }
{
    a.x().compare(&b.x()) == Ordering::Equal && a.y().compare(&b.y()) == Ordering::Equal
}
