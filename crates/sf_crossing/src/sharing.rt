//! Edges of two geometries that share a point.

ghost use Rattle.std.specs.Prelude.{map, IfOk};
ghost use Rattle.sf_geometry.specs.Parts.{edge_of, edges_of};
ghost use Rattle.sf_edge_tree.specs.Meeting.{ends_meeting};
ghost use Rattle.sf_edge_tree.specs.Searches.{Answers};
ghost use Rattle.sf_crossing.specs.Sharing.{ShareOne};

use crate::crossing::LOOKS_FOR_EACH;
use crate::pair::Edge;
use sf_edge_tree::{Budget, EdgeTree, Outcome, PairTest, edges_meeting};
use sf_geometry::{Extent, Geometry};
use sf_grid::Meet;
use sf_grid::edges::meet;
use std::alloc::{AllocError, Global};

/// Whether an edge of one geometry shares a point with an edge of the other, of the edges whose boxes share a point with a
/// box. Those are tried that are near one another, and the search is given up where it takes long.
///
/// # Errors
///
/// Out of memory alone.
pub fn find_sharing(
    alloc: Global,
    a: &Geometry,
    b: &Geometry,
    common: &Extent,
) -> Result<Outcome, AllocError>
    ensures { IfOk result (Answers (ShareOne
        (map edge_of (ends_meeting common.now (edges_of a.now)))
        (map edge_of (ends_meeting common.now (edges_of b.now))))) }
{
    let first = EdgeTree::new(alloc, edges_meeting(alloc, a, common)?)?;
    let second = EdgeTree::new(alloc, edges_meeting(alloc, b, common)?)?;
    let pairs = Sharing {
        first: first.edges(),
        second: second.edges(),
    };
    let edge_count = pairs.first.len().saturating_add(pairs.second.len());
    let budget = Budget {
        at_first: LOOKS_FOR_EACH.saturating_mul(edge_count),
        for_each_run: 0,
    };
    Ok(first.find_pair_with(&second, &pairs, &budget))
}

/// Pairs of edges of two lists, asked whether they share a point.
#[derive(Drop)]
struct Sharing<'a> {
    first: &'a [Edge],
    second: &'a [Edge],
}

impl PairTest for Sharing<'_> {
    ghost use Rattle.std.specs.Prelude.{◌≢◌, ◌<◌, length};
    ghost use Rattle.std.specs.List.{AllByRecursion};
    ghost use Rattle.sf_crossing.specs.Sharing.{AreSharing};

    ghost CanTest = { λ s i j. AllByRecursion (λ pair. pair.0 ≢ pair.1) s.first.now
        × AllByRecursion (λ pair. pair.0 ≢ pair.1) s.second.now × (i < length s.first.now) × (j < length s.second.now) };

    ghost Passes = { λ s i j. AreSharing s.first.now s.second.now i j };

    fn test(&self, first: usize, second: usize) -> bool {
        match meet(self.first[first], self.second[second]) {
            Meet::Apart => false,
            Meet::At(_) => true,
            Meet::Along(..) => true,
        }
    }

    fn is_clear(&self, _first: usize, _start: usize, _end: usize) -> bool {
        false
    }
}
