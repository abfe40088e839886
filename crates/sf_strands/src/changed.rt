//! One edge of a line or ring against all the others: where all but one are known not to meet, this
//! decides whether the whole does.

ghost use Rattle.std.specs.Prelude.{◌↔◌, ◌+◌, ◌<◌, IsTrue, length};
ghost use Rattle.sf_valid_rules.specs.Conditions.{Applies, Condition};
ghost use Rattle.sf_strands.specs.Changed.{MeetsEarlier, MeetsLater, edge_meets};
ghost use Rattle.sf_strands.specs.Tight.{IsTight};

use crate::pairs::does_pair_meet;
use sf_grid::GridPoint;

/// Whether the edge with this number, counted from 0, of a tight list shares a point with another
/// one that isn't their common vertex as neighbours.
pub fn edge_meets_others(points: &[GridPoint], number: usize) -> bool
    requires tight { IsTight points.now }
    requires in_range { number + 1 < length points.now }
    ensures { IsTrue result ↔ Applies (Condition.AtPoint (edge_meets points.now number)) }
{
    does_earlier_meet(points, number) || does_later_meet(points, number)
}

/// Whether one of the edges before it does so with this edge.
fn does_earlier_meet(points: &[GridPoint], number: usize) -> bool
    requires tight { IsTight points.now }
    requires in_range { number + 1 < length points.now }
    ensures { IsTrue result ↔ MeetsEarlier points.now number }
{
    for earlier in 0..number {
        if does_pair_meet(points, earlier, number) {
            return true;
        }
    }
    false
}

/// Whether one of the edges after it does so with this edge.
fn does_later_meet(points: &[GridPoint], number: usize) -> bool
    requires tight { IsTight points.now }
    requires in_range { number + 1 < length points.now }
    ensures { IsTrue result ↔ MeetsLater points.now number }
{
    let edge_count = points.len().saturating_sub(1);
    for later in number + 1..edge_count {
        if does_pair_meet(points, number, later) {
            return true;
        }
    }
    false
}
