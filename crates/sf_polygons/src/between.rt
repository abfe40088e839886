//! The faults of polygons among one another.

ghost use Rattle.sf_geometry.specs.Size.{points_max};
ghost use Rattle.std.specs.Prelude.{◌≡◌, ◌++◌, ◌==◌, ◌≤◌, IfOk, OnOk, length, map};
ghost use Rattle.std.specs.List.{flat_map, list_all};
ghost use Rattle.sf_geometry.specs.Parts.{joined};
ghost use Rattle.sf_valid_rules.specs.Rules.{ring_rules};
ghost use Rattle.sf_valid_rules.specs.Validity.{NoneApplies};
ghost use Rattle.sf_polygons.specs.Colours.{box_of};
ghost use Rattle.sf_polygons.specs.Found.{ArePolygonFaults};
ghost use Rattle.sf_polygons.specs.Rings.{grouped, pieces_in, polygons_in};

use crate::colours::colours_of;
use crate::found::PolygonFaults;
use sf_geometry::{Extent, Sequence};
use sf_grid::GridPoint;
use sf_pieces::GroupedPieces;
use std::alloc::{AllocError, Global};

/// The faults of polygons among one another. Polygons whose boxes share no point may be of one
/// group; where all are, none of them meet, and no edge is looked at.
pub(crate) fn faults_between(
    alloc: Global,
    polygons: &[Sequence<Sequence<GridPoint>>],
) -> Result<PolygonFaults, AllocError>
    requires few { length (joined (joined polygons.now)) ≤ points_max }
    requires sound { NoneApplies (flat_map ring_rules (joined polygons.now)) }
    ensures { IfOk result (λ found. ArePolygonFaults polygons.now found) }
{
    let mut found = PolygonFaults {
        meet: false,
        overlap: false,
    };
    if polygons.len() < 2 {
        return Ok(found);
    }
    let boxes = boxes_of(alloc, polygons)?;
    let colours = colours_of(alloc, &boxes)?;
    if are_zero(&colours) {
        return Ok(found);
    }
    let mut pieces = GroupedPieces::new(alloc);
    push_polygons(&mut pieces, polygons, &colours)?;
    let areal = vec![in alloc; true; polygons.len()]?;
    pieces.walk(alloc, &areal, &mut found)?;
    Ok(found)
}

/// The box of each polygon's rings.
fn boxes_of(
    alloc: Global,
    polygons: &[Sequence<Sequence<GridPoint>>],
) -> Result<Vec<Option<Extent>>, AllocError>
    ensures { IfOk result (λ boxes. boxes.items ≡ map (λ rings. box_of (joined rings)) polygons.now) }
{
    polygons
        .iter()
        .map(|rings| Extent::of_lists(rings.as_slice()))
        .collect(alloc)
}

/// Whether all numbers are 0.
fn are_zero(numbers: &[u32]) -> bool
    ensures { result ≡ list_all (λ number. number == 0) numbers.now }
{
    numbers.iter().all(|number| *number == 0)
}

/// Adds the edges of polygons, each polygon's rings in the group of its colour.
fn push_polygons(
    pieces: &mut GroupedPieces,
    polygons: &[Sequence<Sequence<GridPoint>>],
    colours: &[u32],
) -> Result<(), AllocError>
    requires { length colours.now ≡ length polygons.now }
    ensures { OnOk result (pieces.new ≡ pieces.old ++ pieces_in (polygons_in polygons.now colours.now)) }
{
    for (rings, colour) in polygons.iter().zip(colours) {
        push_rings(pieces, rings.as_slice(), *colour)?;
    }
    Ok(())
}

/// Adds the edges of rings to a group.
fn push_rings(
    pieces: &mut GroupedPieces,
    rings: &[Sequence<GridPoint>],
    group: u32,
) -> Result<(), AllocError>
    ensures { OnOk result (pieces.new ≡ pieces.old ++ pieces_in (grouped group rings.now)) }
{
    for ring in rings {
        pieces.push_edges(ring.as_slice(), group)?;
    }
    Ok(())
}
