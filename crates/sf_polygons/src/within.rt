//! The faults of one polygon's rings.

ghost use Rattle.sf_geometry.specs.Size.{points_max};
ghost use Rattle.std.specs.Prelude.{◌≡◌, ◌∷◌, ◌++◌, ◌<◌, ◌≤◌, [], ◌+◌, ◌^◌, IfOk, OnOk, length, map};
ghost use Rattle.std.specs.List.{All, flat_map};
ghost use Rattle.sf_geometry.specs.Parts.{joined};
ghost use Rattle.sf_valid_rules.specs.Rules.{ring_rules};
ghost use Rattle.sf_valid_rules.specs.Validity.{NoneApplies};
ghost use Rattle.sf_polygons.specs.Colours.{box_of};
ghost use Rattle.sf_polygons.specs.Found.{AreRingFaults};
ghost use Rattle.sf_polygons.specs.Rings.{holes_in, pieces_in};

use crate::colours::colours_of;
use crate::found::RingFaults;
use sf_geometry::{Extent, Sequence};
use sf_grid::GridPoint;
use sf_pieces::GroupedPieces;
use std::alloc::{AllocError, Global};

/// The faults of a polygon's rings, the shell first. Holes whose boxes share no point may be of one
/// group, so that few groups are counted.
pub(crate) fn faults_within(
    alloc: Global,
    rings: &[Sequence<GridPoint>],
) -> Result<RingFaults, AllocError>
    requires few { length (joined rings.now) ≤ points_max }
    requires sound { NoneApplies (flat_map ring_rules rings.now) }
    ensures { IfOk result (λ found. AreRingFaults (rings.now ∷ []) found) }
{
    let mut found = RingFaults {
        meet: false,
        outside: false,
        nested: false,
    };
    let Some((shell, holes)) = rings.split_first() else {
        return Ok(found);
    };
    if holes.is_empty() {
        return Ok(found);
    }
    let boxes = boxes_of(alloc, holes)?;
    let colours = colours_of(alloc, &boxes)?;
    let mut pieces = GroupedPieces::new(alloc);
    pieces.push_edges(shell.as_slice(), 0)?;
    push_holes(&mut pieces, holes, &colours)?;
    let areal = vec![in alloc; true; rings.len()]?;
    pieces.walk(alloc, &areal, &mut found)?;
    Ok(found)
}

/// The box of each ring.
fn boxes_of(alloc: Global, rings: &[Sequence<GridPoint>]) -> Result<Vec<Option<Extent>>, AllocError>
    ensures { IfOk result (λ boxes. boxes.items ≡ map box_of rings.now) }
{
    rings
        .iter()
        .map(|ring| Extent::of_points(ring.as_slice()))
        .collect(alloc)
}

/// Adds the edges of holes, in the groups from 1 on by their colours.
fn push_holes(
    pieces: &mut GroupedPieces,
    holes: &[Sequence<GridPoint>],
    colours: &[u32],
) -> Result<(), AllocError>
    requires one_each { length colours.now ≡ length holes.now }
    requires small { All (λ colour. colour + 1 < 2 ^ 32) colours.now }
    ensures { OnOk result (pieces.new ≡ pieces.old ++ pieces_in (holes_in holes.now colours.now)) }
{
    for (hole, colour) in holes.iter().zip(colours) {
        pieces.push_edges(hole.as_slice(), *colour + 1)?;
    }
    Ok(())
}
