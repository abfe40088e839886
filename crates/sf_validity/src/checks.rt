//! The rules of validity, checked in their order.

ghost use Rattle.std.specs.Prelude.{◌≤◌, ◌++◌, IfErr, OnOk, length};
ghost use Rattle.std.specs.List.{flat_map};
ghost use Rattle.sf_geometry.specs.Parts.{joined};
ghost use Rattle.sf_geometry.specs.Size.{IsSized, points_max};
ghost use Rattle.sf_valid_rules.specs.Rules.{line_rules, polygon_rules, ring_rules};
ghost use Rattle.sf_valid_rules.specs.Validity.{IsValid, NoneApplies};
ghost use Rattle.sf_validity.specs.Refusals.{Refuses, RefusesBy};

use super::refusal::Refusal;
use sf_geometry::{Geometry, Sequence, is_closed, tight_length};
use sf_grid::GridPoint;
use sf_valid_rules::Fault;
use std::alloc::Global;
use std::slice;

/// Whether a geometry is valid.
///
/// # Errors
///
/// The first fault of the geometry, in the order of the rules; or `Memory` where none is found.
pub fn check(alloc: Global, geometry: &Geometry) -> Result<(), Refusal>
    requires { IsSized geometry.now }
    ensures valid { OnOk result (IsValid geometry.now) }
    ensures refused { IfErr result (Refuses geometry.now) }
{
    match geometry {
        Geometry::Point(_) | Geometry::MultiPoint(_) => Ok(()),
        Geometry::LineString(points) => check_lines(slice::from_ref(points)),
        Geometry::MultiLineString(lines) => check_lines(lines.as_slice()),
        Geometry::Polygon(rings) => check_polygons(alloc, slice::from_ref(rings)),
        Geometry::MultiPolygon(polygons) => check_polygons(alloc, polygons.as_slice()),
    }
}

/// Checks lines, from the first on.
fn check_lines(lines: &[Sequence<GridPoint>]) -> Result<(), Refusal>
    ensures valid { OnOk result (NoneApplies (flat_map line_rules lines.now)) }
    ensures refused { IfErr result (RefusesBy (flat_map line_rules lines.now)) }
{
    for points in lines {
        check_line(points.as_slice())?;
    }
    Ok(())
}

/// Checks a line.
fn check_line(points: &[GridPoint]) -> Result<(), Refusal>
    ensures valid { OnOk result (NoneApplies (line_rules points.now)) }
    ensures refused { IfErr result (RefusesBy (line_rules points.now)) }
{
    if tight_length(points) < 2 {
        return Err(Refusal::Invalid(Fault::ShortLine));
    }
    Ok(())
}

/// Checks polygons: all their rings, from the first on, and then how these lie to one another.
fn check_polygons(alloc: Global, polygons: &[Sequence<Sequence<GridPoint>>]) -> Result<(), Refusal>
    requires few { length (joined (joined polygons.now)) ≤ points_max }
    ensures valid { OnOk result
        (NoneApplies (flat_map ring_rules (joined polygons.now) ++ polygon_rules polygons.now)) }
    ensures refused { IfErr result
        (RefusesBy (flat_map ring_rules (joined polygons.now) ++ polygon_rules polygons.now)) }
{
    for rings in polygons {
        check_rings(alloc, rings.as_slice())?;
    }
    match sf_polygons::first_fault(alloc, polygons)? {
        Some(fault) => Err(Refusal::Invalid(fault)),
        None => Ok(()),
    }
}

/// Checks rings, from the first on.
fn check_rings(alloc: Global, rings: &[Sequence<GridPoint>]) -> Result<(), Refusal>
    requires few { length (joined rings.now) ≤ points_max }
    ensures valid { OnOk result (NoneApplies (flat_map ring_rules rings.now)) }
    ensures refused { IfErr result (RefusesBy (flat_map ring_rules rings.now)) }
{
    for points in rings {
        check_ring(alloc, points.as_slice())?;
    }
    Ok(())
}

/// Checks a ring by itself.
fn check_ring(alloc: Global, points: &[GridPoint]) -> Result<(), Refusal>
    requires few { length points.now ≤ points_max }
    ensures valid { OnOk result (NoneApplies (ring_rules points.now)) }
    ensures refused { IfErr result (RefusesBy (ring_rules points.now)) }
{
    if !is_closed(points) {
        return Err(Refusal::Invalid(Fault::OpenRing));
    }
    if tight_length(points) < 4 {
        return Err(Refusal::Invalid(Fault::ShortRing));
    }
    if sf_strands::meets_itself(alloc, points)? {
        return Err(Refusal::Invalid(Fault::RingNotSimple));
    }
    Ok(())
}
