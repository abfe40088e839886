//! Whether the box of a changed stretch lies apart from all rings but the one that was changed: no edge of them has a
//! point of it, and it isn't inside of them.

ghost use Rattle.std.specs.Prelude.{◌≡◌, ◌∷◌, [], IfSome, IsTrue};
ghost use Rattle.std.specs.List.{AllByRecursion};
ghost use Rattle.sf_geometry.specs.Lists.{edges_of};
ghost use Rattle.sf_geometry.specs.Parts.{polygons_of as polygons_of_geometry};
ghost use Rattle.sf_interiors.specs.Paths.{IsOffBox};
ghost use Rattle.sf_ring_stretches.specs.Exchange.{AreIn};
ghost use Rattle.sf_validity.specs.Beside.{AreOthersApart, AreRingsApart, IsAlone, IsApart, IsFrontOff, box_of_extent, stood, stretch_of as stretch_of_ring};
ghost use Rattle.sf_validity.specs.Changed.{IsInside};

use super::changed::Stretch;
use sf_geometry::{Extent, Geometry, Sequence};
use sf_grid::GridPoint;
use std::slice;

/// The polygons of a geometry.
pub(crate) fn polygons_of(geometry: &Geometry) -> &[Sequence<Sequence<GridPoint>>]
    ensures { result.now ≡ polygons_of_geometry geometry.now }
{
    match geometry {
        Geometry::Polygon(rings) => slice::from_ref(rings),
        Geometry::MultiPolygon(polygons) => polygons.as_slice(),
        _ => &[],
    }
}

/// The points from the one before an index to the one behind so many.
fn stretch_of(points: &[GridPoint], index: usize, count: usize) -> &[GridPoint]
    requires inside { IsInside points.now index count }
    ensures { result.now ≡ stretch_of_ring points.now index count }
{
    points.split_at(index - 1).1.split_at(count + 2).0
}

/// A box that has these points and one more, if any.
fn extent_with_gone(points: &[GridPoint], gone: Option<GridPoint>) -> Option<Extent>
    ensures points { IfSome result (λ extent. AreIn (box_of_extent extent) points.now) }
    ensures gone { IfSome result (λ extent. AreIn (box_of_extent extent) (stood gone)) }
{
    let Some(extent) = Extent::of_points(points) else {
        return None;
    };
    match gone {
        None => Some(extent),
        Some(point) => Some(extent.with(point)),
    }
}

/// Whether the box of these points shares no point with another one.
fn is_apart(points: &[GridPoint], extent: Extent) -> bool
    ensures { IsTrue result → IsApart (box_of_extent extent) points.now }
{
    match Extent::of_points(points) {
        Some(own) => !own.meets(extent),
        None => true,
    }
}

/// Whether that holds of each of these rings.
fn are_apart(rings: &[Sequence<GridPoint>], extent: Extent) -> bool
    ensures { IsTrue result → AllByRecursion (IsApart (box_of_extent extent)) rings.now }
{
    for points in rings {
        if !is_apart(points.as_slice(), extent) {
            return false;
        }
    }
    true
}

/// Whether it holds of each ring of these polygons.
fn are_polygons_apart(polygons: &[Sequence<Sequence<GridPoint>>], extent: Extent) -> bool
    ensures { IsTrue result
        → AllByRecursion (AllByRecursion (IsApart (box_of_extent extent))) polygons.now }
{
    for rings in polygons {
        if !are_apart(rings.as_slice(), extent) {
            return false;
        }
    }
    true
}

/// Whether the box of each edge of a ring shares no point with another one, which may lie inside of the ring.
fn are_edges_apart(points: &[GridPoint], extent: Extent) -> bool
    ensures { IsTrue result
        → AllByRecursion (IsOffBox (box_of_extent extent)) (edges_of points.now) }
{
    let Some((first, others)) = points.split_first() else {
        return true;
    };
    let mut from = *first;
    for to in others {
        if !is_edge_apart(from, *to, extent) {
            return false;
        }
        from = *to;
    }
    true
}

/// Whether the box of two points shares no point with another one.
fn is_edge_apart(from: GridPoint, to: GridPoint, extent: Extent) -> bool
    ensures { IsTrue result → IsApart (box_of_extent extent) (from ∷ to ∷ []) }
{
    is_apart(&[from, to], extent)
}

/// Of the rings before a hole, whether the shell's edges are apart from a box, and the holes.
fn is_front_apart(rings: &[Sequence<GridPoint>], extent: Extent) -> bool
    ensures { IsTrue result → IsFrontOff (box_of_extent extent) rings.now }
{
    match rings.split_first() {
        Some((shell, holes)) => {
            are_edges_apart(shell.as_slice(), extent) && are_apart(holes, extent)
        }
        None => true,
    }
}

/// Whether all rings of a polygon but the one with this number are apart from a box. A shell may have the box inside.
fn are_rings_apart(rings: &[Sequence<GridPoint>], ring: usize, extent: Extent) -> bool
    ensures { IsTrue result → AreRingsApart (box_of_extent extent) rings.now ring }
{
    if ring >= rings.len() {
        return false;
    }
    let (front, rest) = rings.split_at(ring);
    match rest.split_first() {
        Some((_, back)) => is_front_apart(front, extent) && are_apart(back, extent),
        None => false,
    }
}

/// Whether all rings of polygons but the one of this part and number are apart from a box. The shell of that
/// one's polygon may have the box inside.
fn are_others_apart(
    polygons: &[Sequence<Sequence<GridPoint>>],
    part: usize,
    ring: usize,
    extent: Extent,
) -> bool
    ensures { IsTrue result → AreOthersApart (box_of_extent extent) polygons.now part ring }
{
    if part >= polygons.len() {
        return false;
    }
    let (front, rest) = polygons.split_at(part);
    match rest.split_first() {
        Some((rings, back)) => {
            are_polygons_apart(front, extent)
                && are_polygons_apart(back, extent)
                && are_rings_apart(rings.as_slice(), ring, extent)
        }
        None => false,
    }
}

/// Whether the box of the points round new ones, and of the point that stood there before, is apart from all rings
/// but the one of this part and number. The points are those of that ring.
pub(crate) fn is_alone(
    polygons: &[Sequence<Sequence<GridPoint>>],
    points: &[GridPoint],
    stretch: &Stretch,
) -> bool
    requires inside { IsInside points.now stretch.now.index stretch.now.count }
    ensures { IsTrue result → IsAlone polygons.now points.now stretch.now }
{
    let index = stretch.index as usize;
    let round = stretch_of(points, index, stretch.count as usize);
    match extent_with_gone(round, stretch.gone) {
        Some(extent) => are_others_apart(
            polygons,
            stretch.part as usize,
            stretch.ring as usize,
            extent,
        ),
        None => false,
    }
}
