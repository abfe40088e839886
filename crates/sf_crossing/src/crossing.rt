//! Edges of two geometries that cross at a point of no other edge.

ghost use Rattle.std.specs.Prelude.{◌≡◌, ◌≢◌, map, IfOk, IsTrue};
ghost use Rattle.std.specs.List.{AllByRecursion};
ghost use Rattle.sf_geometry.specs.Parts.{edge_of, edges_of};
ghost use Rattle.sf_edge_tree.specs.Meeting.{ends_meeting};
ghost use Rattle.sf_crossing.specs.Crossing.{HaveCrossing};

use crate::pair::{Edge, cross_alone, do_cross};
use sf_edge_tree::{Budget, EdgeTree, Outcome, PairTest, edges_meeting};
use sf_geometry::{Extent, Geometry};
use std::alloc::{AllocError, Global};

/// Of how few edges each is tried with all of the other list: that takes less time than a tree of those.
const FEW_EDGES: usize = 6;

/// How many looks there are for each edge of two geometries, on the average, before a search is given up.
pub(crate) const LOOKS_FOR_EACH: usize = 16;

/// How many there are where one of the two is of lines. Their edges may cover one another, so that no crossing is one of two edges
/// alone, and to see that takes a pass over the edges each time.
const LOOKS_AT_LINES: usize = 2_048;

/// How many pairs of edges that cross are looked at, where each is tried with all, before the search is given up.
const CROSSINGS: usize = 64;

/// Whether an edge of one geometry is found that crosses an edge of the other at a point that no other edge has, of the
/// edges whose boxes share a point with a box. Of many edges those are tried that are near one another, and the search is
/// given up where it takes long: where none is found nothing is known.
///
/// # Errors
///
/// Out of memory alone.
pub fn have_crossing(
    alloc: Global,
    a: &Geometry,
    b: &Geometry,
    common: &Extent,
) -> Result<bool, AllocError>
    ensures { IfOk result (λ told. IsTrue told → HaveCrossing
        (map edge_of (ends_meeting common.now (edges_of a.now)))
        (map edge_of (ends_meeting common.now (edges_of b.now)))) }
{
    let first = edges_meeting(alloc, a, common)?;
    let second = edges_meeting(alloc, b, common)?;
    let edge_count = first.len().saturating_add(second.len());
    let looks = if is_areal(a) && is_areal(b) {
        LOOKS_FOR_EACH.saturating_mul(edge_count)
    } else {
        LOOKS_AT_LINES
    };
    are_crossed(alloc, first, second, looks)
}

/// Whether a geometry is of polygons.
fn is_areal(geometry: &Geometry) -> bool {
    matches!(geometry, Geometry::Polygon(_) | Geometry::MultiPolygon(_))
}

/// Whether an edge of the first is found that crosses one of the second at a point of no other edge, in about so many looks.
fn are_crossed(
    alloc: Global,
    first: Vec<Edge>,
    second: Vec<Edge>,
    looks: usize,
) -> Result<bool, AllocError>
    requires first_long { AllByRecursion (λ pair. pair.0 ≢ pair.1) first.items }
    requires second_long { AllByRecursion (λ pair. pair.0 ≢ pair.1) second.items }
    ensures { IfOk result (λ told. IsTrue told → HaveCrossing
        (map edge_of first.items) (map edge_of second.items)) }
{
    if first.len().min(second.len()) <= FEW_EDGES {
        Ok(some_pair_crosses(first.as_slice(), second.as_slice()))
    } else {
        some_near_pair_crosses(alloc, first, second, looks)
    }
}

/// The same, where each pair is tried, up to so many that cross.
fn some_pair_crosses(first: &[Edge], second: &[Edge]) -> bool
    requires first_long { AllByRecursion (λ pair. pair.0 ≢ pair.1) first.now }
    requires second_long { AllByRecursion (λ pair. pair.0 ≢ pair.1) second.now }
    ensures { IsTrue result → HaveCrossing (map edge_of first.now) (map edge_of second.now) }
{
    let mut left = CROSSINGS;
    for i in 0..first.len() {
        for j in 0..second.len() {
            if !do_cross(&first[i], &second[j]) {
                continue;
            }
            if cross_alone(first, second, i, j) {
                return true;
            }
            left = left.saturating_sub(1);
            if left == 0 {
                return false;
            }
        }
    }
    false
}

/// The same, where those are tried whose boxes meet, in about so many looks.
fn some_near_pair_crosses(
    alloc: Global,
    first: Vec<Edge>,
    second: Vec<Edge>,
    looks: usize,
) -> Result<bool, AllocError>
    requires first_long { AllByRecursion (λ pair. pair.0 ≢ pair.1) first.items }
    requires second_long { AllByRecursion (λ pair. pair.0 ≢ pair.1) second.items }
    ensures { IfOk result (λ told. IsTrue told → HaveCrossing
        (map edge_of first.items) (map edge_of second.items)) }
{
    let budget = Budget {
        at_first: looks,
        for_each_run: 0,
    };
    let tree = EdgeTree::new(alloc, first)?;
    let other = EdgeTree::new(alloc, second)?;
    let pairs = PairsOf {
        first: tree.edges(),
        second: other.edges(),
    };
    match tree.find_pair_with(&other, &pairs, &budget) {
        Outcome::Found => Ok(true),
        Outcome::Absent | Outcome::GaveUp => Ok(false),
    }
}

/// Pairs of edges of two lists, asked whether they cross at a point of no other edge.
#[derive(Drop)]
struct PairsOf<'a> {
    first: &'a [Edge],
    second: &'a [Edge],
}

impl PairTest for PairsOf<'_> {
    ghost use Rattle.std.specs.Prelude.{◌≢◌, ◌<◌, length};
    ghost use Rattle.std.specs.List.{AllByRecursion};
    ghost use Rattle.sf_crossing.specs.Crossing.{CrossAlone};

    ghost CanTest = { λ s i j. AllByRecursion (λ pair. pair.0 ≢ pair.1) s.first.now
        × AllByRecursion (λ pair. pair.0 ≢ pair.1) s.second.now × (i < length s.first.now) × (j < length s.second.now) };

    ghost Passes = { λ s i j. CrossAlone s.first.now s.second.now i j };

    fn test(&self, first: usize, second: usize) -> bool {
        cross_alone(self.first, self.second, first, second)
    }

    fn is_clear(&self, _first: usize, _start: usize, _end: usize) -> bool {
        false
    }
}
