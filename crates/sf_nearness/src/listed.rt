ghost use Rattle.std.specs.Prelude.{◌≡◌, ◌↔◌, IfOk, IsTrue};
ghost use Rattle.sf_distance.specs.Mixed.{number_of};
ghost use Rattle.sf_distance.specs.Squares.{IsWithin};
ghost use Rattle.sf_nearness.specs.Segments.{IsOnSegments};
ghost use Rattle.sf_nearness.specs.Sets.{IsOf};

use super::contact::share_inside;
use super::segments::{Segment, segments_of};
use sf_distance::Square;
use sf_edge_distance::are_within;
use sf_validity::Valid;
use std::alloc::{AllocError, Global};
use std::marker::Model;

/// A geometry with its segments, which are listed once where it is asked about together with many others. Contracts see it as the
/// geometry.
#[derive(Drop)]
pub struct Listed<'a> {
    valid: &'a Valid,
    segments: Vec<Segment>,
}

impl<'a> Model for Listed<'a> {
    ghost use Rattle.sf_geometry.specs.declared.geometry.Geometry.{Geometry as Shape};
    ghost use Rattle.sf_nearness.specs.Segments.{AreListed};

    ghost Value = { Shape };

    ghost view = { λ l. l.valid.now };

    ghost invariant = { λ l. AreListed l.valid.now l.segments.items };
}

impl<'a> Listed<'a> {
    /// A geometry with its segments.
    ///
    /// # Errors
    ///
    /// Out of memory alone.
    pub fn new(alloc: Global, valid: &'a Valid) -> Result<Listed<'a>, AllocError>
        ensures { IfOk result (λ listed. listed ≡ valid.now) }
    {
        let segments = segments_of(alloc, valid)?;
        Ok(Listed { valid, segments })
    }

    /// Whether some points of another geometry and of this one, of all points of the plane that are not in the exterior, are no
    /// farther apart than the root of a bound, which is in squared grid steps.
    ///
    /// # Errors
    ///
    /// Out of memory alone.
    pub fn is_within(
        &self,
        alloc: Global,
        other: &Valid,
        bound: &Square,
    ) -> Result<bool, AllocError>
        ensures { IfOk result (λ answer. IsTrue answer ↔ IsWithin (IsOf other.now) (IsOf self.now) (number_of bound.now)) }
    {
        if self.are_segments_within(alloc, other, bound)? {
            return Ok(true);
        }
        share_inside(alloc, other, self.valid)
    }

    /// Whether some points of segments of both are no farther apart than the root of a bound.
    fn are_segments_within(
        &self,
        alloc: Global,
        other: &Valid,
        bound: &Square,
    ) -> Result<bool, AllocError>
        ensures { IfOk result (λ answer. IsTrue answer ↔ IsWithin (IsOnSegments other.now) (IsOnSegments self.now) (number_of bound.now)) }
    {
        let segments = segments_of(alloc, other)?;
        Ok(are_within(segments.as_slice(), self.segments.as_slice(), bound))
    }
}
