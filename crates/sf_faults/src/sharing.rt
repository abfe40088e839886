//! Rings that share a piece with another one, and the first edges of such rings that do.

ghost use Rattle.std.specs.Prelude.{◌≡◌, ◌↔◌, false, IfOk, IsSome, IsTrue};
ghost use Rattle.std.specs.List.{flat_map};
ghost use Rattle.sf_geometry.specs.Envelope.{extent_of, extents_meet};
ghost use Rattle.sf_valid_rules.specs.Conditions.{Applies, Condition};
ghost use Rattle.sf_faults.specs.Candidates.{share_two, shared_by};
ghost use Rattle.sf_faults.specs.Orders.{pairs, placed_rings, ring_of, spots};
ghost use Rattle.sf_faults.specs.Places.{IsFirstAmong};
ghost use Rattle.sf_faults.specs.Written.{AreRingsSharing, edge_of, edges_shared_by};

use crate::edges::edges_of;
use crate::place::{Place, Spot};
use crate::spots::ring_at;
use crate::written_edge::WrittenEdge;
use sf_geometry::{Extent, Sequence};
use sf_grid::edges::meet;
use sf_grid::{GridPoint, Meet};
use std::alloc::{AllocError, Global};

/// The first ring that shares a piece with an earlier one, the first of those, and their first edges that share
/// it: the first one of the later ring, and with it the first one of the earlier ring.
pub(crate) fn first_sharing(
    alloc: Global,
    polygons: &[Sequence<Sequence<GridPoint>>],
    rings: &[Spot],
) -> Result<Option<Place>, AllocError>
    requires { rings.now ≡ spots polygons.now }
    ensures { IfOk result (IsFirstAmong (flat_map shared_by (pairs (placed_rings polygons.now)))) }
{
    for second in 0..rings.len() {
        for first in 0..second {
            let place = rings_sharing(alloc, polygons, rings[first], rings[second])?;
            if place.is_some() {
                return Ok(place);
            }
        }
    }
    Ok(None)
}

/// The first edges of two rings that share a piece. Where the boxes of the rings share no point, none do.
fn rings_sharing(
    alloc: Global,
    polygons: &[Sequence<Sequence<GridPoint>>],
    first: Spot,
    second: Spot,
) -> Result<Option<Place>, AllocError>
    requires first { IsSome (ring_of polygons.now first) }
    requires second { IsSome (ring_of polygons.now second) }
    ensures { IfOk result (AreRingsSharing polygons.now first second) }
{
    let first_ring = ring_at(polygons, first);
    let second_ring = ring_at(polygons, second);
    if are_apart(first_ring, second_ring) {
        return Ok(None);
    }
    let first_edges = edges_of(alloc, first_ring)?;
    let second_edges = edges_of(alloc, second_ring)?;
    Ok(edges_sharing(
        first,
        first_edges.as_slice(),
        second,
        second_edges.as_slice(),
    ))
}

/// Whether the boxes of two rings share no point.
fn are_apart(a: &[GridPoint], b: &[GridPoint]) -> bool
    ensures { IsTrue result → extents_meet (extent_of a.now) (extent_of b.now) ≡ false }
{
    match (Extent::of_points(a), Extent::of_points(b)) {
        (Some(first), Some(second)) => !first.meets(second),
        _ => false,
    }
}

/// The first of these edges that share a piece: the first one of the second ring, and with it the first one of the
/// first ring.
fn edges_sharing(
    first: Spot,
    first_edges: &[WrittenEdge],
    second: Spot,
    second_edges: &[WrittenEdge],
) -> Option<Place>
    ensures { IsFirstAmong (edges_shared_by first first_edges.now second second_edges.now) result }
{
    for second_edge in second_edges {
        for first_edge in first_edges {
            if do_share(first_edge, second_edge) {
                return Some(Place::Rings {
                    first,
                    first_edge: first_edge.number,
                    second,
                    second_edge: second_edge.number,
                });
            }
        }
    }
    None
}

/// Whether two edges share two points.
fn do_share(e: &WrittenEdge, f: &WrittenEdge) -> bool
    ensures { IsTrue result ↔ Applies (Condition.AtTwoPoints (share_two (edge_of e.now) (edge_of f.now))) }
{
    match meet((e.from, e.to), (f.from, f.to)) {
        Meet::Apart => false,
        Meet::At(_) => false,
        Meet::Along(..) => true,
    }
}
