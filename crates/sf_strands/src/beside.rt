//! Points on one side of an edge's line: edges between them do not meet it.

ghost use Rattle.std.specs.Prelude.{◌≡◌, ◌+◌, ◌<◌, IsTrue, length};
ghost use Rattle.sf_strands.specs.Beside.{AreAll, AreBeside, is_left as is_left_of, is_right as is_right_of};

use sf_grid::edges::orientation;
use sf_grid::{GridPoint, Turn};

/// Whether the points from one to another, both of them too, are all on one side of the line of an edge, and not on it.
pub(crate) fn is_beside(points: &[GridPoint], edge: usize, start: usize, end: usize) -> bool
    requires edge_in { edge + 1 < length points.now }
    requires end_in { end < length points.now }
    ensures { IsTrue result → AreBeside points.now edge start end }
{
    are_left(points, edge, start, end) || are_right(points, edge, start, end)
}

/// Whether these points are all to the left of the line of an edge.
fn are_left(points: &[GridPoint], edge: usize, start: usize, end: usize) -> bool
    requires edge_in { edge + 1 < length points.now }
    requires end_in { end < length points.now }
    ensures { IsTrue result → AreAll is_left_of points.now edge start end }
{
    for number in start..end + 1 {
        if !is_left(points[edge], points[edge + 1], points[number]) {
            return false;
        }
    }
    true
}

/// Whether these points are all to the right of the line of an edge.
fn are_right(points: &[GridPoint], edge: usize, start: usize, end: usize) -> bool
    requires edge_in { edge + 1 < length points.now }
    requires end_in { end < length points.now }
    ensures { IsTrue result → AreAll is_right_of points.now edge start end }
{
    for number in start..end + 1 {
        if !is_right(points[edge], points[edge + 1], points[number]) {
            return false;
        }
    }
    true
}

/// Whether a point is to the left of the line from one point to another.
fn is_left(from: GridPoint, to: GridPoint, point: GridPoint) -> bool
    ensures { result ≡ is_left_of from to point }
{
    match orientation(from, to, point) {
        Turn::Left => true,
        _ => false,
    }
}

/// Whether a point is to the right of the line from one point to another.
fn is_right(from: GridPoint, to: GridPoint, point: GridPoint) -> bool
    ensures { result ≡ is_right_of from to point }
{
    match orientation(from, to, point) {
        Turn::Right => true,
        _ => false,
    }
}
