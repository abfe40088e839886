//! Valid geometries made of rings and edges, and what two of them have in common.

ghost use Rattle.std.specs.Prelude.{◌≡◌, ◌↔◌, ◌∷◌, ◌&&◌, ◌||◌, [], IfOk, IfSome, IsTrue};
ghost use Rattle.sf_geometry.specs.declared.geometry.Geometry.TheVariants.{LineString, Polygon};
ghost use Rattle.sf_geometry.specs.PointSets.{in_boundary, in_exterior, in_interior};
ghost use Rattle.sf_relate.specs.Matrices.{matrix_of};
ghost use Rattle.sf_known.specs.Patterns.{is_filled as is_filled_by};
ghost use Rattle.sf_valid_rules.specs.Conditions.{Applies, Condition};

use sf_geometry::{Geometry, Sequence};
use sf_grid::GridPoint;
use sf_prepared::matrix_nearby;
use sf_relate::{Dim, Matrix, relate};
use sf_validity::{Valid, validate};
use std::alloc::{AllocError, Global};

/// The polygon of rings that make a valid one.
///
/// # Errors
///
/// Out of memory; it also stands for a fault, which the rings must not have.
pub(crate) fn polygon_of(alloc: Global, rings: &[Sequence<GridPoint>]) -> Result<Valid, AllocError>
    ensures { IfOk result (λ valid. valid ≡ Polygon rings.now) }
{
    let rings = copy_of(alloc, rings)?;
    valid_from(alloc, Geometry::Polygon(rings))
}

/// The line from a point to another one.
///
/// # Errors
///
/// As of `polygon_of`.
pub(crate) fn line_of(alloc: Global, from: GridPoint, to: GridPoint) -> Result<Valid, AllocError>
    ensures { IfOk result (λ valid. valid ≡ LineString (from ∷ to ∷ [])) }
{
    let mut points = Vec::with_capacity(alloc, 2)?;
    points.push(from)?;
    points.push(to)?;
    valid_from(alloc, Geometry::LineString(Sequence::from_vec(points)))
}

/// A geometry that has no fault, as a valid one.
fn valid_from(alloc: Global, geometry: Geometry) -> Result<Valid, AllocError>
    ensures { IfOk result (λ valid. valid ≡ geometry) }
{
    if geometry.check_size().is_err() {
        return Err(AllocError);
    }
    match validate(alloc, geometry) {
        Ok(valid) => Ok(valid),
        Err(_) => Err(AllocError),
    }
}

/// A copy of rings.
fn copy_of(
    alloc: Global,
    rings: &[Sequence<GridPoint>],
) -> Result<Sequence<Sequence<GridPoint>>, AllocError>
    ensures { IfOk result (λ copy. copy ≡ rings.now) }
{
    let mut copy = Vec::with_capacity(alloc, rings.len())?;
    for points in rings {
        copy.push(Sequence::from_vec(points.as_slice().to_vec(alloc)?))?;
    }
    Ok(Sequence::from_vec(copy))
}

/// Whether a point is inside both geometries. Where their boxes share no point, none is.
pub(crate) fn do_overlap(alloc: Global, a: &Valid, b: &Valid) -> Result<bool, AllocError>
    ensures { IfOk result (λ found. IsTrue found
        ↔ Applies (Condition.AtPoint (λ p. in_interior a.now p && in_interior b.now p))) }
{
    if !a.geometry().envelope().meets(b.geometry().envelope()) {
        return Ok(false);
    }
    let matrix = matrix_between(alloc, a, b)?;
    Ok(is_filled(matrix.0[0]))
}

/// Whether a point of a geometry is outside an area.
pub(crate) fn leaves_area(alloc: Global, area: &Valid, other: &Valid) -> Result<bool, AllocError>
    ensures { IfOk result (λ found. IsTrue found
        ↔ Applies (Condition.AtPoint (λ p. in_exterior area.now p && (in_interior other.now p || in_boundary other.now p)))) }
{
    let matrix = matrix_between(alloc, area, other)?;
    Ok(is_one_filled(matrix.0[6], matrix.0[7]))
}

/// The matrix of an area with another geometry.
fn matrix_between(alloc: Global, area: &Valid, other: &Valid) -> Result<Matrix, AllocError>
    ensures { IfOk result (λ matrix. matrix.0 ≡ matrix_of area.now other.now) }
{
    match decided_nearby(alloc, area, other) {
        Some(matrix) => Ok(matrix),
        None => relate(alloc, area, other),
    }
}

/// The matrix, where the edges of the area near the other geometry show it. Where the boxes of both share no point
/// these are not looked for, since the boxes alone tell it.
fn decided_nearby(alloc: Global, area: &Valid, other: &Valid) -> Option<Matrix>
    ensures { IfSome result (λ matrix. matrix.0 ≡ matrix_of area.now other.now) }
{
    let extent = area.geometry().envelope();
    if extent.meets(other.geometry().envelope()) {
        matrix_nearby(alloc, area, other)
    } else {
        None
    }
}

/// Whether one of two entries of a matrix isn't empty.
fn is_one_filled(first: Dim, second: Dim) -> bool
    ensures { result ≡ (is_filled_by first || is_filled_by second) }
{
    is_filled(first) || is_filled(second)
}

/// Whether an entry of a matrix isn't empty.
fn is_filled(dim: Dim) -> bool
    ensures { result ≡ is_filled_by dim }
{
    match dim {
        Dim::Nothing => false,
        Dim::Zero | Dim::One | Dim::Two => true,
    }
}
