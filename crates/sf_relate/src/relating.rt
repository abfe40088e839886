//! Matrices of two geometries.

ghost use Rattle.std.specs.Prelude.{◌≡◌, IfOk};
ghost use Rattle.sf_known.specs.Known.{Holds};
ghost use Rattle.sf_relate.specs.Matrices.{IsMatrix, matrix_of};

use super::areas::{are_areas, known_by_crossing, matrix_along};
use super::by_kinds::matrix_by_boxes;
use super::walking::found_from;
use sf_along::run_along;
use sf_known::{Aim, Known, Matrix};
use sf_validity::Valid;
use std::alloc::{AllocError, Global};

/// The matrix of two geometries. Where their boxes share no point it follows from their kinds and ends.
///
/// # Errors
///
/// Out of memory alone.
pub fn relate(alloc: Global, a: &Valid, b: &Valid) -> Result<Matrix, AllocError>
    ensures plane { IfOk result (λ matrix. IsMatrix a.now b.now matrix.0) }
    ensures computed { IfOk result (λ matrix. matrix.0 ≡ matrix_of a.now b.now) }
{
    let extent = b.geometry().envelope();
    if let Some(matrix) = matrix_by_boxes(a, b, extent) {
        return Ok(matrix);
    }
    let known = known_by_crossing(alloc, a, b).unwrap_or(Known::nothing());
    relate_from(alloc, a, b, &known)
}

/// The matrix of two geometries of which this is known. A walk over the pieces of two areas ends once they are known to
/// overlap.
///
/// # Errors
///
/// Out of memory alone.
pub fn relate_from(alloc: Global, a: &Valid, b: &Valid, known: &Known) -> Result<Matrix, AllocError>
    requires { Holds known.now (matrix_of a.now b.now) }
    ensures plane { IfOk result (λ matrix. IsMatrix a.now b.now matrix.0) }
    ensures computed { IfOk result (λ matrix. matrix.0 ≡ matrix_of a.now b.now) }
{
    let aim = if are_areas(a, b) {
        Aim::ButBoundaries
    } else {
        Aim::Entries
    };
    let found = found_from(alloc, a, b, &aim, known)?;
    match found.matrix() {
        Some(matrix) => Ok(matrix),
        None => {
            let along = run_along(alloc, a.geometry(), b.geometry())?;
            Ok(matrix_along(&found, along))
        }
    }
}
