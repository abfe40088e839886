//! Rings that meet themselves, and the first two edges of such a ring that do.

ghost use Rattle.std.specs.Prelude.{◌≡◌, ◌↔◌, ◌+◌, ◌<◌, IfOk, IsTrue, length};
ghost use Rattle.std.specs.List.{flat_map};
ghost use Rattle.sf_valid_rules.specs.Conditions.{Applies, Condition};
ghost use Rattle.sf_strands.specs.Pairs.{are_neighbours as are_neighbours_at, closes_ring, pair_meets};
ghost use Rattle.sf_strands.specs.Tight.{IsTight};
ghost use Rattle.sf_faults.specs.Candidates.{crossings_of};
ghost use Rattle.sf_faults.specs.Orders.{placed_rings, spots};
ghost use Rattle.sf_faults.specs.Places.{IsFirstAmong};

use crate::earlier::{edge_tree, meets_no_earlier};
use crate::edges::edges_of;
use crate::place::{Place, Spot};
use crate::spots::ring_at;
use sf_geometry::{Sequence, tight};
use sf_grid::edges::meet;
use sf_grid::{GridPoint, Meet};
use std::alloc::{AllocError, Global};

/// The first two edges that meet, of the first ring that meets itself.
pub(crate) fn first_crossing(
    alloc: Global,
    polygons: &[Sequence<Sequence<GridPoint>>],
    rings: &[Spot],
) -> Result<Option<Place>, AllocError>
    requires { rings.now ≡ spots polygons.now }
    ensures { IfOk result (IsFirstAmong (flat_map crossings_of (placed_rings polygons.now))) }
{
    for ring in rings {
        let place = crossing_in(alloc, *ring, ring_at(polygons, *ring))?;
        if place.is_some() {
            return Ok(place);
        }
    }
    Ok(None)
}

/// The first two edges of a ring that meet: the first one that meets an earlier one, and the first of those. Most meet none, which
/// the boxes of edges tell; so a pass over all earlier ones is made once at most.
fn crossing_in(alloc: Global, ring: Spot, points: &[GridPoint]) -> Result<Option<Place>, AllocError>
    ensures { IfOk result (IsFirstAmong (crossings_of (ring, points.now))) }
{
    let edges = edges_of(alloc, points)?;
    let edges = edges.as_slice();
    let kept = tight(alloc, points)?;
    let points = kept.as_slice();
    let tree = edge_tree(alloc, points)?;
    for second in 0..edges.len() {
        if meets_no_earlier(&tree, points, second) {
            continue;
        }
        for first in 0..second {
            if does_pair_meet(points, first, second) {
                return Ok(Some(Place::Edges {
                    ring,
                    first: edges[first].number,
                    second: edges[second].number,
                }));
            }
        }
    }
    Ok(None)
}

/// Whether two edges of a tight list share a point that isn't their common vertex as neighbours.
pub(crate) fn does_pair_meet(points: &[GridPoint], first: usize, second: usize) -> bool
    requires tight { IsTight points.now }
    requires in_order { first < second }
    requires in_range { second + 1 < length points.now }
    ensures { IsTrue result ↔ Applies (Condition.AtPoint (pair_meets points.now first second)) }
{
    let edge = (points[first], points[first + 1]);
    let other = (points[second], points[second + 1]);
    match meet(edge, other) {
        Meet::Apart => false,
        Meet::At(_) => !are_neighbours(points, first, second),
        Meet::Along(..) => true,
    }
}

/// Whether two edges of a tight list are neighbours: one after the other, or the first and the last of a closed
/// list.
fn are_neighbours(points: &[GridPoint], first: usize, second: usize) -> bool
    requires tight { IsTight points.now }
    requires in_order { first < second }
    requires in_range { second + 1 < length points.now }
    ensures { result ≡ are_neighbours_at points.now first second }
{
    second == first + 1 || (first == 0 && closes_list(points, second))
}

/// Whether a tight list is closed, by this edge.
fn closes_list(points: &[GridPoint], edge: usize) -> bool
    requires tight { IsTight points.now }
    requires in_range { edge + 1 < length points.now }
    ensures { result ≡ closes_ring points.now edge }
{
    edge + 2 == points.len() && points[0] == points[edge + 1]
}
