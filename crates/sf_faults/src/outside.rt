//! Holes that have a point outside their shell.

ghost use Rattle.std.specs.Prelude.{◌≡◌, ◌∷◌, [], IfOk, List};
ghost use Rattle.std.specs.List.{enumerate_from, flat_map};
ghost use Rattle.sf_grid.specs.Plane.{Coordinates};
ghost use Rattle.sf_geometry.specs.declared.geometry.Geometry.TheVariants.{Polygon};
ghost use Rattle.sf_faults.specs.Candidates.{outside_at as outside_at_hole, outside_in};
ghost use Rattle.sf_faults.specs.Orders.{numbered};
ghost use Rattle.sf_faults.specs.Places.{IsFirstAmong};
ghost use Rattle.sf_faults.specs.Written.{IsFirstEdge, outside_of};

use crate::comparing::{leaves_area, line_of, polygon_of};
use crate::edges::edges_of;
use crate::place::{Place, Spot};
use sf_geometry::Sequence;
use sf_grid::GridPoint;
use sf_validity::Valid;
use std::alloc::{AllocError, Global};
use std::slice;

/// The first hole that has a point outside its shell, and its first edge that has one. Each ring by itself has no
/// fault.
pub(crate) fn first_hole_outside(
    alloc: Global,
    polygons: &[Sequence<Sequence<GridPoint>>],
) -> Result<Option<Place>, AllocError>
    ensures { IfOk result (IsFirstAmong (flat_map outside_in (numbered polygons.now))) }
{
    for (part, rings) in polygons.iter().enumerate() {
        let place = hole_outside_in(alloc, part, rings.as_slice())?;
        if place.is_some() {
            return Ok(place);
        }
    }
    Ok(None)
}

/// The same of one part.
fn hole_outside_in(
    alloc: Global,
    part: usize,
    rings: &[Sequence<GridPoint>],
) -> Result<Option<Place>, AllocError>
    ensures { IfOk result (IsFirstAmong (outside_in (part, rings.now))) }
{
    let Some((shell, holes)) = rings.split_first() else {
        return Ok(None);
    };
    let area = polygon_of(alloc, slice::from_ref(shell))?;
    first_outside(alloc, &area, part, holes)
}

/// The same of the holes of a part, whose shell is the area.
fn first_outside(
    alloc: Global,
    area: &Valid,
    part: usize,
    holes: &[Sequence<GridPoint>],
) -> Result<Option<Place>, AllocError>
    ensures { IfOk result (λ place. (shell : List Coordinates) → area.now ≡ Polygon (shell ∷ [])
        → IsFirstAmong (flat_map (outside_at_hole part shell) (enumerate_from 1 holes.now)) place) }
{
    for (index, hole) in holes.iter().enumerate() {
        let ring = index + 1;
        let place = outside_at(alloc, area, Spot { part, ring }, hole)?;
        if place.is_some() {
            return Ok(place);
        }
    }
    Ok(None)
}

/// The same of one hole.
fn outside_at(
    alloc: Global,
    area: &Valid,
    hole: Spot,
    points: &Sequence<GridPoint>,
) -> Result<Option<Place>, AllocError>
    ensures { IfOk result (λ place. (shell : List Coordinates) → area.now ≡ Polygon (shell ∷ [])
        → IsFirstAmong (outside_of shell hole points.now) place) }
{
    let ring = polygon_of(alloc, slice::from_ref(points))?;
    if !leaves_area(alloc, area, &ring)? {
        return Ok(None);
    }
    let edge = edge_outside(alloc, area, points.as_slice())?;
    Ok(Some(Place::Hole { hole, edge }))
}

/// The first edge of a ring that has a point outside an area.
fn edge_outside(
    alloc: Global,
    area: &Valid,
    points: &[GridPoint],
) -> Result<Option<usize>, AllocError>
    ensures { IfOk result (λ edge. (shell : List Coordinates) → area.now ≡ Polygon (shell ∷ [])
        → IsFirstEdge shell points.now edge) }
{
    let edges = edges_of(alloc, points)?;
    for edge in edges.as_slice() {
        let line = line_of(alloc, edge.from, edge.to)?;
        if leaves_area(alloc, area, &line)? {
            return Ok(Some(edge.number));
        }
    }
    Ok(None)
}
