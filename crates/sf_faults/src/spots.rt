//! The rings of polygons, one after another.

ghost use Rattle.std.specs.Prelude.{◌≡◌, ◌++◌, Some, IfOk, IsSome, OnOk, map};
ghost use Rattle.sf_faults.specs.Orders.{placed_in, ring_of, spots};

use crate::place::Spot;
use sf_geometry::Sequence;
use sf_grid::GridPoint;
use std::alloc::{AllocError, Global};

/// The part and the number of each ring, in the order in which they are written.
pub(crate) fn spots_of(
    alloc: Global,
    polygons: &[Sequence<Sequence<GridPoint>>],
) -> Result<Vec<Spot>, AllocError>
    ensures { IfOk result (λ found. found.items ≡ spots polygons.now) }
{
    let mut found = Vec::new(alloc);
    for (part, rings) in polygons.iter().enumerate() {
        push_spots(&mut found, part, rings.as_slice())?;
    }
    Ok(found)
}

/// Adds the rings of a part.
fn push_spots(
    found: &mut Vec<Spot>,
    part: usize,
    rings: &[Sequence<GridPoint>],
) -> Result<(), AllocError>
    ensures { OnOk result (found.new.items ≡ found.old.items ++ map (λ r. r.0) (placed_in part rings.now)) }
{
    for ring in 0..rings.len() {
        found.push(Spot { part, ring })?;
    }
    Ok(())
}

/// The points of a ring.
pub(crate) fn ring_at(polygons: &[Sequence<Sequence<GridPoint>>], spot: Spot) -> &[GridPoint]
    requires { IsSome (ring_of polygons.now spot) }
    ensures { ring_of polygons.now spot ≡ Some result.now }
{
    polygons[spot.part].as_slice()[spot.ring].as_slice()
}
