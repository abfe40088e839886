//! The ends of edges from the left, and the sides of edges on which points lie. In order from the
//! left are points by x and then y.

ghost use Rattle.std.specs.Prelude.{◌≡◌, ◌+◌, ◌<◌, ◌<ℤ◌, IsTrue, length, pos};
ghost use Rattle.sf_grid.specs.Edge.{cross};
ghost use Rattle.sf_grid.specs.Plane.{grid_point};
ghost use Rattle.sf_grid.specs.Sharing.{earlier_of, later_of};
ghost use Rattle.sf_first_meeting.specs.Numbered.{point_of};
ghost use Rattle.sf_first_meeting.specs.Sheared.{rising};
ghost use Rattle.sf_first_meeting.specs.Sweeps.{IsOver, IsUnder};

use sf_grid::edges::{comes_before, orientation};
use sf_grid::{GridPoint, Turn};

/// The ends of an edge, from the left.
pub(crate) fn ends(points: &[GridPoint], edge: usize) -> (GridPoint, GridPoint)
    requires { edge + 1 < length points.now }
    ensures left { result.0 ≡ earlier_of (point_of points.now edge) (point_of points.now (edge + 1)) }
    ensures right { result.1 ≡ later_of (point_of points.now edge) (point_of points.now (edge + 1)) }
{
    let from = points[edge];
    let to = points[edge + 1];
    if comes_before(to, from) {
        (to, from)
    } else {
        (from, to)
    }
}

/// Whether an edge is below a point.
pub(crate) fn is_under(points: &[GridPoint], edge: usize, at: GridPoint) -> bool
    requires { edge + 1 < length points.now }
    ensures { IsTrue result → IsUnder points.now at edge }
{
    let (left, right) = ends(points, edge);
    match orientation(left, right, at) {
        Turn::Left => true,
        _ => false,
    }
}

/// Whether an edge is above a point.
pub(crate) fn is_over(points: &[GridPoint], edge: usize, at: GridPoint) -> bool
    requires { edge + 1 < length points.now }
    ensures { IsTrue result → IsOver points.now at edge }
{
    let (left, right) = ends(points, edge);
    match orientation(left, right, at) {
        Turn::Right => true,
        _ => false,
    }
}

/// Whether the right end of an edge is to the left of another one.
pub(crate) fn is_left_of(points: &[GridPoint], edge: usize, other: usize) -> bool
    requires edge_in { edge + 1 < length points.now }
    requires other_in { other + 1 < length points.now }
    ensures { IsTrue result → pos 0 <ℤ cross
        (rising points.now other).a
        (rising points.now other).b
        (grid_point (rising points.now edge).b) }
{
    let (left, right) = ends(points, other);
    let (_, end) = ends(points, edge);
    match orientation(left, right, end) {
        Turn::Left => true,
        _ => false,
    }
}
