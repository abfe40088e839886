//! Whether an edge of a ring meets an earlier one, by the boxes of edges.

ghost use Rattle.std.specs.Prelude.{◌≡◌, ◌+◌, ◌<◌, ℕ, IfOk, IsTrue, drop, length};
ghost use Rattle.std.specs.List.{zip};
ghost use Rattle.sf_valid_rules.specs.Conditions.{Applies, Condition};
ghost use Rattle.sf_strands.specs.Pairs.{pair_meets};
ghost use Rattle.sf_strands.specs.Tight.{IsTight};

use crate::crossings::does_pair_meet;
use sf_edge_tree::{EdgeTest, EdgeTree};
use sf_geometry::Extent;
use sf_grid::GridPoint;
use std::alloc::{AllocError, Global};

/// The edges of a tight list, in order, with boxes over runs of them.
pub(crate) fn edge_tree(alloc: Global, points: &[GridPoint]) -> Result<EdgeTree, AllocError>
    ensures { IfOk result (λ tree. tree ≡ zip points.now (drop 1 points.now)) }
{
    EdgeTree::new(alloc, edges_between(alloc, points)?)
}

/// The edges of a tight list, in order.
fn edges_between(
    alloc: Global,
    points: &[GridPoint],
) -> Result<Vec<(GridPoint, GridPoint)>, AllocError>
    ensures { IfOk result (λ edges. edges.items ≡ zip points.now (drop 1 points.now)) }
{
    points
        .iter()
        .zip(points.iter().skip(1))
        .map(|(from, to)| (*from, *to))
        .collect(alloc)
}

/// Whether an edge of a tight list, of whose edges this is the tree, meets no earlier one; false also where that is not known.
pub(crate) fn meets_no_earlier(tree: &EdgeTree, points: &[GridPoint], edge: usize) -> bool
    requires edges { tree.now ≡ zip points.now (drop 1 points.now) }
    requires tight { IsTight points.now }
    requires in_range { edge + 1 < length points.now }
    ensures { IsTrue result → (earlier : ℕ) → earlier < edge → ¬ (Applies (Condition.AtPoint (pair_meets points.now earlier edge))) }
{
    let own = tree.edges()[edge];
    let extent = Extent::at(own.0).with(own.1);
    let mut looks = usize::MAX;
    tree.find_near(extent, &MeetingEarlier { points, edge }, &mut looks)
        .is_absent()
}

/// Searches for edges of a tight list that stand before an edge and meet it.
#[derive(Drop)]
struct MeetingEarlier<'a> {
    points: &'a [GridPoint],
    edge: usize,
}

impl EdgeTest for MeetingEarlier<'_> {
    ghost use Rattle.std.specs.Prelude.{◌+◌, ◌<◌, length};
    ghost use Rattle.sf_valid_rules.specs.Conditions.{Applies, AtPoint};
    ghost use Rattle.sf_strands.specs.Pairs.{pair_meets};
    ghost use Rattle.sf_strands.specs.Tight.{IsTight};

    ghost CanTest = { λ s earlier. IsTight s.points.now × (s.edge + 1 < length s.points.now) };

    ghost Passes = { λ s earlier. (earlier < s.edge) × Applies (AtPoint (pair_meets s.points.now earlier s.edge)) };

    fn test(&self, edge: usize, _looks: &mut usize) -> bool {
        edge < self.edge && does_pair_meet(self.points, edge, self.edge)
    }
}
