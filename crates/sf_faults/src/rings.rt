//! Rings that are wrong by themselves.

ghost use Rattle.std.specs.Prelude.{◌≡◌, map};
ghost use Rattle.sf_faults.specs.Candidates.{open_ring, short_ring};
ghost use Rattle.sf_faults.specs.Orders.{placed_rings, spots};
ghost use Rattle.sf_faults.specs.Places.{IsFirstAmong};

use crate::place::{Place, Spot};
use crate::spots::ring_at;
use sf_geometry::{Sequence, is_closed, tight_length};
use sf_grid::GridPoint;

/// The first ring whose first and last point differ.
pub(crate) fn first_open_ring(
    polygons: &[Sequence<Sequence<GridPoint>>],
    rings: &[Spot],
) -> Option<Place>
    requires { rings.now ≡ spots polygons.now }
    ensures { IsFirstAmong (map open_ring (placed_rings polygons.now)) result }
{
    for ring in rings {
        if !is_closed(ring_at(polygons, *ring)) {
            return Some(Place::Ring { ring: *ring });
        }
    }
    None
}

/// The first ring that has too few points.
pub(crate) fn first_short_ring(
    polygons: &[Sequence<Sequence<GridPoint>>],
    rings: &[Spot],
) -> Option<Place>
    requires { rings.now ≡ spots polygons.now }
    ensures { IsFirstAmong (map short_ring (placed_rings polygons.now)) result }
{
    for ring in rings {
        if tight_length(ring_at(polygons, *ring)) < 4 {
            return Some(Place::Ring { ring: *ring });
        }
    }
    None
}
