//! The rules after a change of one vertex: where a polygon was valid, and all other rings are apart from what
//! changed, its new edges against all others of the ring decide.

ghost use Rattle.std.specs.Prelude.{◌≡◌, ◌+◌, ◌-◌, ◌<◌, IfErr, IfSome, IsTrue, OnOk, Some, length};
ghost use Rattle.sf_geometry.specs.declared.geometry.Geometry.{Geometry as Shape};
ghost use Rattle.sf_geometry.specs.Parts.{polygons_of as polygons_of_geometry};
ghost use Rattle.sf_geometry.specs.Size.{IsSized};
ghost use Rattle.sf_valid_rules.specs.Conditions.{Applies, Condition};
ghost use Rattle.sf_valid_rules.specs.Shapes.{meets_itself};
ghost use Rattle.sf_valid_rules.specs.Validity.{IsValid};
ghost use Rattle.sf_strands.specs.Tight.{IsTight};
ghost use Rattle.sf_validity.specs.Beside.{ring_in};
ghost use Rattle.sf_validity.specs.Changed.{IsChange, IsInside, IsTightAt, NoneMeets};
ghost use Rattle.sf_validity.specs.Refusals.{Refuses};

use super::beside::{is_alone, polygons_of};
use super::checks::check;
use super::refusal::Refusal;
use sf_geometry::{Geometry, Sequence, is_closed, tight_length};
use sf_grid::GridPoint;
use sf_valid_rules::Fault;
use std::alloc::Global;

/// New points in the ring of a part and number: so many from an index on, and the point that stood there, if any.
#[derive(Drop)]
pub(crate) struct Stretch {
    pub(crate) part: u32,
    pub(crate) ring: u32,
    pub(crate) index: u32,
    pub(crate) count: u32,
    pub(crate) gone: Option<GridPoint>,
}

/// Whether a geometry has a ring of this part and number, and no two neighbours in it are equal.
pub(crate) fn is_tight_at(geometry: &Geometry, part: u32, ring: u32) -> bool
    ensures { IsTrue result → IsTightAt geometry.now part ring }
{
    match ring_at(polygons_of(geometry), part as usize, ring as usize) {
        Some(points) => is_tight(points),
        None => false,
    }
}

/// Whether a geometry is valid that was a valid one before such a change, given whether the ring was tight.
///
/// # Errors
///
/// The first fault of the geometry, in the order of the rules; or `Memory` where none is found.
pub(crate) fn check_changed(
    alloc: Global,
    geometry: &Geometry,
    was_tight: bool,
    stretch: &Stretch,
) -> Result<(), Refusal>
    requires { IsSized geometry.now }
    ensures valid { OnOk result ((before : Shape)
        → IsChange before geometry.now was_tight stretch.now → IsValid geometry.now) }
    ensures refused { IfErr result (λ refusal. (before : Shape)
        → IsChange before geometry.now was_tight stretch.now → Refuses geometry.now refusal) }
{
    if !was_tight {
        return check(alloc, geometry);
    }
    let polygons = polygons_of(geometry);
    let Some(points) = ring_at(polygons, stretch.part as usize, stretch.ring as usize) else {
        return check(alloc, geometry);
    };
    if !is_inside(points, stretch.index as usize, stretch.count as usize) {
        return check(alloc, geometry);
    }
    if !is_alone(polygons, points, stretch) {
        return check(alloc, geometry);
    }
    if does_new_edge_meet(points, stretch.index as usize, stretch.count as usize) {
        return Err(Refusal::Invalid(Fault::RingNotSimple));
    }
    Ok(())
}

/// The ring of a part and number, or None where there is none.
fn ring_at(
    polygons: &[Sequence<Sequence<GridPoint>>],
    part: usize,
    ring: usize,
) -> Option<&[GridPoint]>
    ensures { IfSome result (λ points. ring_in polygons.now part ring ≡ Some points.now) }
{
    match polygons.get(part) {
        Some(rings) => match rings.as_slice().get(ring) {
            Some(points) => Some(points.as_slice()),
            None => None,
        },
        None => None,
    }
}

/// Whether no two neighbours in a list are equal.
fn is_tight(points: &[GridPoint]) -> bool
    ensures { IsTrue result → IsTight points.now }
{
    tight_length(points) == points.len()
}

/// Whether a ring is closed and tight, has four points and more, and others before and after the
/// points at an index, so many.
fn is_inside(points: &[GridPoint], index: usize, count: usize) -> bool
    ensures { IsTrue result → IsInside points.now index count }
{
    if index == 0 || points.len() < 4 {
        return false;
    }
    if index.saturating_add(count) >= points.len() {
        return false;
    }
    if !is_closed(points) {
        return false;
    }
    is_tight(points)
}

/// Whether one of the edges to these points, or from the last of them, meets another edge.
fn does_new_edge_meet(points: &[GridPoint], index: usize, count: usize) -> bool
    requires inside { IsInside points.now index count }
    ensures found { IsTrue result → Applies (Condition.AtPoint (meets_itself points.now)) }
    ensures none { ¬ (IsTrue result) → NoneMeets points.now (index - 1) (index + count) }
{
    let end = index.saturating_add(count);
    for number in index.saturating_sub(1)..end {
        if sf_strands::edge_meets_others(points, number) {
            return true;
        }
    }
    false
}
