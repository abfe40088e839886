//! Lines and rings that meet themselves, by looking at the pairs of their edges whose boxes meet.

ghost use Rattle.std.specs.Prelude.{◌≡◌, IfOk, drop};
ghost use Rattle.std.specs.List.{zip};
ghost use Rattle.sf_valid_rules.specs.Conditions.{Applies, Condition};
ghost use Rattle.sf_valid_rules.specs.Shapes.{meets_itself as meets_itself_at};
ghost use Rattle.sf_edge_tree.specs.Searches.{Answers};
ghost use Rattle.sf_strands.specs.Tight.{IsTight};

use crate::beside::is_beside;
use crate::pairs::does_pair_meet;
use sf_edge_tree::{Budget, EdgeTree, Outcome, PairTest};
use sf_grid::GridPoint;
use std::alloc::{AllocError, Global};

/// What a search costs at most. As measured, the pairs of some hundred edges are found sooner than a sweep ends, however far
/// they reach. More edges that reach far are given up after a small part of the time that a sweep takes.
const BUDGET: Budget = Budget {
    at_first: 8_192,
    for_each_run: 256,
};

/// Whether a line or ring, given as a tight list, meets itself. Where its edges reach far, the search is given up.
pub(crate) fn some_near_pair_meets(
    alloc: Global,
    points: &[GridPoint],
) -> Result<Outcome, AllocError>
    requires { IsTight points.now }
    ensures { IfOk result (λ outcome. Answers (Applies (Condition.AtPoint (meets_itself_at points.now))) outcome) }
{
    let tree = EdgeTree::new(alloc, edges_between(alloc, points)?)?;
    Ok(tree.find_pair(&NearPairs { points }, &BUDGET))
}

/// The edges of a tight list, in order.
fn edges_between(
    alloc: Global,
    points: &[GridPoint],
) -> Result<Vec<(GridPoint, GridPoint)>, AllocError>
    ensures { IfOk result (λ edges. edges.items ≡ zip points.now (drop 1 points.now)) }
{
    points
        .iter()
        .zip(points.iter().skip(1))
        .map(|(from, to)| (*from, *to))
        .collect(alloc)
}

/// Pairs of edges of a tight list, asked whether they share a point that isn't their common vertex as neighbours.
#[derive(Drop)]
struct NearPairs<'a> {
    points: &'a [GridPoint],
}

impl PairTest for NearPairs<'_> {
    ghost use Rattle.std.specs.Prelude.{◌+◌, ◌<◌, length};
    ghost use Rattle.sf_valid_rules.specs.Conditions.{Applies, AtPoint};
    ghost use Rattle.sf_strands.specs.Pairs.{pair_meets};
    ghost use Rattle.sf_strands.specs.Tight.{IsTight};

    ghost CanTest = { λ s first second. IsTight s.points.now × (first < second) × (second + 1 < length s.points.now) };

    ghost Passes = { λ s first second. Applies (AtPoint (pair_meets s.points.now first second)) };

    fn test(&self, first: usize, second: usize) -> bool {
        does_pair_meet(self.points, first, second)
    }

    fn is_clear(&self, first: usize, start: usize, end: usize) -> bool {
        start < end && is_beside(self.points, first, start, end)
    }
}
