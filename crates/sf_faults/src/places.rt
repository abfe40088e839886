//! The place of a fault.

ghost use Rattle.std.specs.Prelude.{IfOk};
ghost use Rattle.sf_faults.specs.Candidates.{candidates_among};
ghost use Rattle.sf_faults.specs.Places.{IsFirstAmong, IsPlaceOf};

use crate::crossings::first_crossing;
use crate::lines::first_short_line;
use crate::outside::first_hole_outside;
use crate::overlapping::{first_nested, first_overlap};
use crate::place::Place;
use crate::rings::{first_open_ring, first_short_ring};
use crate::sharing::first_sharing;
use crate::spots::spots_of;
use sf_geometry::{Geometry, Sequence};
use sf_grid::GridPoint;
use sf_valid_rules::Fault;
use std::alloc::{AllocError, Global};
use std::slice;

/// Where a geometry has its first fault: the first place in the order in which it is written; of two lines, rings or
/// parts that are at fault with one another the first that is so with an earlier one, and the first of those. None where
/// no place has the fault.
///
/// # Errors
///
/// Out of memory; it also stands for a ring or polygon that has an earlier fault than the one asked for.
pub fn place_of(
    alloc: Global,
    geometry: &Geometry,
    fault: Fault,
) -> Result<Option<Place>, AllocError>
    ensures { IfOk result (IsPlaceOf geometry.now fault) }
{
    match geometry {
        Geometry::Point(_) | Geometry::MultiPoint(_) => place_among(alloc, &[], &[], fault),
        Geometry::LineString(points) => place_among(alloc, slice::from_ref(points), &[], fault),
        Geometry::MultiLineString(lines) => place_among(alloc, lines.as_slice(), &[], fault),
        Geometry::Polygon(rings) => place_among(alloc, &[], slice::from_ref(rings), fault),
        Geometry::MultiPolygon(polygons) => place_among(alloc, &[], polygons.as_slice(), fault),
    }
}

/// The same of lines and polygons.
fn place_among(
    alloc: Global,
    lines: &[Sequence<GridPoint>],
    polygons: &[Sequence<Sequence<GridPoint>>],
    fault: Fault,
) -> Result<Option<Place>, AllocError>
    ensures { IfOk result (IsFirstAmong (candidates_among lines.now polygons.now fault)) }
{
    let rings = spots_of(alloc, polygons)?;
    let rings = rings.as_slice();
    match fault {
        Fault::ShortLine => Ok(first_short_line(lines)),
        Fault::OpenRing => Ok(first_open_ring(polygons, rings)),
        Fault::ShortRing => Ok(first_short_ring(polygons, rings)),
        Fault::RingNotSimple => first_crossing(alloc, polygons, rings),
        Fault::RingsMeet => first_sharing(alloc, polygons, rings),
        Fault::HoleOutside => first_hole_outside(alloc, polygons),
        Fault::HolesNested => first_nested(alloc, polygons),
        Fault::PolygonsOverlap => first_overlap(alloc, polygons),
    }
}
