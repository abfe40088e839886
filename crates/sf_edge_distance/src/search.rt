//! The nearest edges of two lists.

ghost use Rattle.std.specs.Prelude.{◌≡◌, ◌↔◌, ◌<◌, IsTrue, length};
ghost use Rattle.sf_grid.specs.Fraction.{IsFraction};
ghost use Rattle.sf_distance.specs.Mixed.{number_of};
ghost use Rattle.sf_distance.specs.Nearest.{lesser as lesser_of};
ghost use Rattle.sf_distance.specs.Squares.{IsLeastSquare, IsWithin};
ghost use Rattle.sf_edge_distance.specs.Boxes.{IsOver};
ghost use Rattle.sf_edge_distance.specs.Edges.{IsOnSome};
ghost use Rattle.sf_edge_distance.specs.Improved.{IsImproved};

use crate::boxes::{Edge, extent_of, square_of_gap};
use sf_distance::Square;
use sf_distance::edges::square_between_edges;
use sf_geometry::Extent;

/// The square of the distance of two lists of edges, in squared grid steps: no two points of theirs are nearer, and two are
/// so near. The ends of an edge may be one point.
pub fn least_square(first: &[Edge], second: &[Edge]) -> Square
    requires some_first { 0 < length first.now }
    requires some_second { 0 < length second.now }
    ensures { IsLeastSquare (IsOnSome first.now) (IsOnSome second.now) (number_of result) }
{
    let begun = square_between_edges(&first[0], &second[0]);
    improved(first, extent_of(first), second, extent_of(second), begun)
}

/// Whether some points of two lists of edges are no farther apart than the root of a bound, which is in squared grid steps.
pub fn are_within(first: &[Edge], second: &[Edge], bound: &Square) -> bool
    requires some_first { 0 < length first.now }
    requires some_second { 0 < length second.now }
    ensures { IsTrue result ↔ IsWithin (IsOnSome first.now) (IsOnSome second.now) (number_of bound.now) }
{
    some_within(first, extent_of(first), second, extent_of(second), bound)
}

/// The least of a square and those of the distances of two lists of edges in their boxes. The longer list is halved, and its half
/// that is nearer to the other list's box comes first. Boxes that are no nearer than the best so far are left.
fn improved(
    first: &[Edge],
    first_box: Extent,
    second: &[Edge],
    second_box: Extent,
    best: Square,
) -> Square
    requires some_first { 0 < length first.now }
    requires some_second { 0 < length second.now }
    requires first_over { IsOver first_box first.now }
    requires second_over { IsOver second_box second.now }
    requires number { IsFraction (number_of best) }
    ensures { IsImproved (IsOnSome first.now) (IsOnSome second.now) (number_of best) (number_of result) }
{
    if first.len() < second.len() {
        return improved(second, second_box, first, first_box, best);
    }
    if best.is_at_most(&square_of_gap(first_box, second_box)) {
        return best;
    }
    if first.len() == 1 {
        return lesser(square_between_edges(&first[0], &second[0]), best);
    }
    let (front, back) = first.split_at(first.len() / 2);
    let front_box = extent_of(front);
    let back_box = extent_of(back);
    if is_nearer(back_box, front_box, second_box) {
        let better = improved(back, back_box, second, second_box, best);
        improved(front, front_box, second, second_box, better)
    } else {
        let better = improved(front, front_box, second, second_box, best);
        improved(back, back_box, second, second_box, better)
    }
}

/// Whether some points of two lists of edges in their boxes are no farther apart than the root of a bound. They are halved as in
/// [`improved`].
fn some_within(
    first: &[Edge],
    first_box: Extent,
    second: &[Edge],
    second_box: Extent,
    bound: &Square,
) -> bool
    requires some_first { 0 < length first.now }
    requires some_second { 0 < length second.now }
    requires first_over { IsOver first_box first.now }
    requires second_over { IsOver second_box second.now }
    ensures { IsTrue result ↔ IsWithin (IsOnSome first.now) (IsOnSome second.now) (number_of bound.now) }
{
    if first.len() < second.len() {
        return some_within(second, second_box, first, first_box, bound);
    }
    if !square_of_gap(first_box, second_box).is_at_most(bound) {
        return false;
    }
    if first.len() == 1 {
        return square_between_edges(&first[0], &second[0]).is_at_most(bound);
    }
    let (front, back) = first.split_at(first.len() / 2);
    let front_box = extent_of(front);
    let back_box = extent_of(back);
    if is_nearer(back_box, front_box, second_box) {
        some_within(back, back_box, second, second_box, bound)
            || some_within(front, front_box, second, second_box, bound)
    } else {
        some_within(front, front_box, second, second_box, bound)
            || some_within(back, back_box, second, second_box, bound)
    }
}

/// Whether a box is nearer to a third one than another box is.
fn is_nearer(a: Extent, b: Extent, to: Extent) -> bool {
    !square_of_gap(b, to).is_at_most(&square_of_gap(a, to))
}

/// The lesser of two squares.
fn lesser(a: Square, b: Square) -> Square
    ensures { number_of result ≡ lesser_of (number_of a) (number_of b) }
{
    if a.is_at_most(&b) { a } else { b }
}
