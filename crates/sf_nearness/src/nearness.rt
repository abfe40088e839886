//! The distance of geometries.

ghost use Rattle.std.specs.Prelude.{◌↔◌, IfOk, IsTrue};
ghost use Rattle.sf_grid.specs.Fraction.{fraction_eq};
ghost use Rattle.sf_distance.specs.Mixed.{number_of};
ghost use Rattle.sf_distance.specs.Squares.{IsLeastSquare, IsWithin};
ghost use Rattle.sf_nearness.specs.Least.{least_square_of};
ghost use Rattle.sf_nearness.specs.Segments.{IsOnSegments};
ghost use Rattle.sf_nearness.specs.Sets.{IsOf};

use super::contact::share_inside;
use super::listed::Listed;
use super::segments::segments_of;
use sf_distance::Square;
use sf_edge_distance::least_square;
use sf_validity::Valid;
use std::alloc::{AllocError, Global};

/// The square of the distance of two geometries, in squared grid steps: some points of theirs, of all points of the plane that are
/// not in the exterior, are so far apart, and no two are nearer. It is 0 where they share a point.
///
/// # Errors
///
/// Out of memory alone.
pub fn square_between(alloc: Global, a: &Valid, b: &Valid) -> Result<Square, AllocError>
    ensures least { IfOk result (λ square. IsLeastSquare (IsOf a.now) (IsOf b.now) (number_of square)) }
    ensures equal { IfOk result (λ square. IsTrue (fraction_eq (number_of square) (least_square_of a.now b.now))) }
{
    if share_inside(alloc, a, b)? {
        return Ok(Square::whole(0));
    }
    square_of_segments(alloc, a, b)
}

/// Whether some points of two geometries, of all points of the plane that are not in the exterior, are no farther apart than the
/// root of a bound, which is in squared grid steps.
///
/// # Errors
///
/// Out of memory alone.
pub fn is_within(alloc: Global, a: &Valid, b: &Valid, bound: &Square) -> Result<bool, AllocError>
    ensures { IfOk result (λ answer. IsTrue answer ↔ IsWithin (IsOf a.now) (IsOf b.now) (number_of bound.now)) }
{
    Listed::new(alloc, b)?.is_within(alloc, a, bound)
}

/// The square of the distance of the segments of two geometries.
fn square_of_segments(alloc: Global, a: &Valid, b: &Valid) -> Result<Square, AllocError>
    ensures { IfOk result (λ square. IsLeastSquare (IsOnSegments a.now) (IsOnSegments b.now) (number_of square)) }
{
    let first = segments_of(alloc, a)?;
    let second = segments_of(alloc, b)?;
    Ok(least_square(first.as_slice(), second.as_slice()))
}
