//! Whether two edges share a point that isn't their common vertex as neighbours.

ghost use Rattle.std.specs.Prelude.{◌↔◌, ◌+◌, ◌<◌, IsTrue, length};
ghost use Rattle.sf_first_meeting.specs.Numbered.{AreApart, AreNeighbours, HasLengths, IsClosedBy};
ghost use Rattle.sf_first_meeting.specs.Sweeps.{ArePlain};

use sf_grid::edges::meet;
use sf_grid::{GridPoint, Meet};

/// Whether two different edges, both of the list, share no point but ends, in whichever order.
pub(crate) fn share_ends(points: &[GridPoint], edge: usize, other: usize) -> bool
    requires { HasLengths points.now }
    ensures { IsTrue result → ArePlain points.now edge other }
{
    let edge_count = points.len().saturating_sub(1);
    if edge >= edge_count || other >= edge_count {
        return false;
    }
    if edge < other {
        are_apart(points, edge, other)
    } else {
        other < edge && are_apart(points, other, edge)
    }
}

/// Whether two edges share no point but their common vertex as neighbours.
fn are_apart(points: &[GridPoint], earlier: usize, later: usize) -> bool
    requires lengths { HasLengths points.now }
    requires in_order { earlier < later }
    requires in_range { later + 1 < length points.now }
    ensures { IsTrue result → AreApart points.now earlier later }
{
    let edge = (points[earlier], points[earlier + 1]);
    let other = (points[later], points[later + 1]);
    match meet(edge, other) {
        Meet::Apart => true,
        Meet::At(_) => are_neighbours(points, earlier, later),
        Meet::Along(..) => false,
    }
}

/// Whether two edges are neighbours: one after the other, or the first and the last of a closed list.
fn are_neighbours(points: &[GridPoint], earlier: usize, later: usize) -> bool
    requires in_order { earlier < later }
    requires in_range { later + 1 < length points.now }
    ensures { IsTrue result → AreNeighbours points.now earlier later }
{
    later == earlier + 1 || (earlier == 0 && closes_ring(points, later))
}

/// Whether a list is closed, by this edge.
pub(crate) fn closes_ring(points: &[GridPoint], edge: usize) -> bool
    requires { edge + 1 < length points.now }
    ensures { IsTrue result ↔ IsClosedBy points.now edge }
{
    edge + 2 == points.len() && points[0] == points[edge + 1]
}
