//! Polygons, and holes of one polygon, that have an inner point in common.

ghost use Rattle.std.specs.Prelude.{◌≡◌, ◌<◌, IfOk, IfSome, length, map};
ghost use Rattle.std.specs.List.{flat_map};
ghost use Rattle.sf_geometry.specs.declared.geometry.Geometry.TheVariants.{Polygon};
ghost use Rattle.sf_faults.specs.Candidates.{nested_in, parts_overlap};
ghost use Rattle.sf_faults.specs.Orders.{numbered, pairs};
ghost use Rattle.sf_faults.specs.Places.{IsFirstAmong};
ghost use Rattle.sf_faults.specs.Written.{AreFirstOverlapping, single_ring};

use crate::comparing::{do_overlap, polygon_of};
use crate::place::Place;
use sf_geometry::Sequence;
use sf_grid::GridPoint;
use sf_validity::Valid;
use std::alloc::{AllocError, Global};
use std::slice;

/// The first polygon that has an inner point in common with an earlier one, and the first of those. Each polygon by
/// itself has no fault.
pub(crate) fn first_overlap(
    alloc: Global,
    polygons: &[Sequence<Sequence<GridPoint>>],
) -> Result<Option<Place>, AllocError>
    ensures { IfOk result (IsFirstAmong (map parts_overlap (pairs (numbered polygons.now)))) }
{
    let areas = areas_of(alloc, polygons)?;
    let Some((first, second)) = first_overlapping(alloc, areas.as_slice())? else {
        return Ok(None);
    };
    Ok(Some(Place::Parts { first, second }))
}

/// The first hole that has an inner point in common with an earlier one of its polygon, and the first of those. Each
/// ring by itself has no fault.
pub(crate) fn first_nested(
    alloc: Global,
    polygons: &[Sequence<Sequence<GridPoint>>],
) -> Result<Option<Place>, AllocError>
    ensures { IfOk result (IsFirstAmong (flat_map nested_in (numbered polygons.now))) }
{
    for (part, rings) in polygons.iter().enumerate() {
        let place = nested_holes_in(alloc, part, rings.as_slice())?;
        if place.is_some() {
            return Ok(place);
        }
    }
    Ok(None)
}

/// The same of one part.
fn nested_holes_in(
    alloc: Global,
    part: usize,
    rings: &[Sequence<GridPoint>],
) -> Result<Option<Place>, AllocError>
    ensures { IfOk result (IsFirstAmong (nested_in (part, rings.now))) }
{
    let Some((_, holes)) = rings.split_first() else {
        return Ok(None);
    };
    let areas = areas_of_rings(alloc, holes)?;
    let Some((first, second)) = first_overlapping(alloc, areas.as_slice())? else {
        return Ok(None);
    };
    Ok(Some(Place::Holes {
        part,
        first: first + 1,
        second: second + 1,
    }))
}

/// Polygons, each as a valid one.
fn areas_of(
    alloc: Global,
    polygons: &[Sequence<Sequence<GridPoint>>],
) -> Result<Vec<Valid>, AllocError>
    ensures { IfOk result (λ areas. areas.items ≡ map Polygon polygons.now) }
{
    let mut areas = Vec::with_capacity(alloc, polygons.len())?;
    for rings in polygons {
        areas.push(polygon_of(alloc, rings.as_slice())?)?;
    }
    Ok(areas)
}

/// Rings, each as a polygon of its own.
fn areas_of_rings(alloc: Global, rings: &[Sequence<GridPoint>]) -> Result<Vec<Valid>, AllocError>
    ensures { IfOk result (λ areas. areas.items ≡ map single_ring rings.now) }
{
    let mut areas = Vec::with_capacity(alloc, rings.len())?;
    for ring in rings {
        areas.push(polygon_of(alloc, slice::from_ref(ring))?)?;
    }
    Ok(areas)
}

/// The first area that has an inner point in common with an earlier one, behind the first of those.
fn first_overlapping(alloc: Global, areas: &[Valid]) -> Result<Option<(usize, usize)>, AllocError>
    ensures found { IfOk result (AreFirstOverlapping areas.now) }
    ensures within { IfOk result (λ found. IfSome found (λ pair. (pair.0 < length areas.now) × (pair.1 < length areas.now))) }
{
    for second in 0..areas.len() {
        for first in 0..second {
            if do_overlap(alloc, &areas[first], &areas[second])? {
                return Ok(Some((first, second)));
            }
        }
    }
    Ok(None)
}
