//! Lines and rings that meet themselves, by looking at each pair of their edges.

ghost use Rattle.std.specs.Prelude.{◌≡◌, ◌↔◌, ◌+◌, ◌<◌, IsTrue, length};
ghost use Rattle.sf_valid_rules.specs.Conditions.{Applies, Condition};
ghost use Rattle.sf_valid_rules.specs.Shapes.{meets_itself as meets_itself_at};
ghost use Rattle.sf_strands.specs.Pairs.{are_neighbours as are_neighbours_at, closes_ring as closes_ring_at, pair_meets};
ghost use Rattle.sf_strands.specs.Tight.{IsTight};

use sf_grid::edges::meet;
use sf_grid::{GridPoint, Meet};

/// Whether a line or ring, given as a tight list, meets itself.
pub(crate) fn some_pair_meets(points: &[GridPoint]) -> bool
    requires { IsTight points.now }
    ensures { IsTrue result ↔ Applies (Condition.AtPoint (meets_itself_at points.now)) }
{
    let edge_count = points.len().saturating_sub(1);
    for later in 0..edge_count {
        for earlier in 0..later {
            if does_pair_meet(points, earlier, later) {
                return true;
            }
        }
    }
    false
}

/// Whether two edges of a tight list share a point that isn't their common vertex as neighbours.
pub(crate) fn does_pair_meet(points: &[GridPoint], earlier: usize, later: usize) -> bool
    requires tight { IsTight points.now }
    requires in_order { earlier < later }
    requires in_range { later + 1 < length points.now }
    ensures { IsTrue result ↔ Applies (Condition.AtPoint (pair_meets points.now earlier later)) }
{
    let edge = (points[earlier], points[earlier + 1]);
    let other = (points[later], points[later + 1]);
    match meet(edge, other) {
        Meet::Apart => false,
        Meet::At(_) => !are_neighbours(points, earlier, later),
        Meet::Along(..) => true,
    }
}

/// Whether two edges of a tight list are neighbours: one after the other, or the first and the last
/// of a closed list.
fn are_neighbours(points: &[GridPoint], earlier: usize, later: usize) -> bool
    requires tight { IsTight points.now }
    requires in_order { earlier < later }
    requires in_range { later + 1 < length points.now }
    ensures { result ≡ are_neighbours_at points.now earlier later }
{
    later == earlier + 1 || (earlier == 0 && closes_ring(points, later))
}

/// Whether a tight list is closed, by this edge.
fn closes_ring(points: &[GridPoint], edge: usize) -> bool
    requires tight { IsTight points.now }
    requires in_range { edge + 1 < length points.now }
    ensures { result ≡ closes_ring_at points.now edge }
{
    edge + 2 == points.len() && points[0] == points[edge + 1]
}
