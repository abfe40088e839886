//! What is within a reach of a geometry.

ghost use Rattle.std.specs.Prelude.{◌≡◌, IfOk};
ghost use Rattle.sf_geometry.specs.Envelope.{envelope_of};
ghost use Rattle.sf_rtree.specs.Indexes.{ids_meeting};
ghost use Rattle.sf_distance.specs.Reaches.{square_of_reach, steps_of_reach};
ghost use Rattle.sf_validity.specs.Held.{IsHeld};
ghost use Rattle.sf_near.specs.Answers.{is_within_of};
ghost use Rattle.sf_near.specs.Grown.{grown as grown_by};

use super::grown::grown;
use super::span::are_wholly_within;
use sf_distance::{Reach, Square};
use sf_geometry::Extent;
use sf_nearness::Listed;
use sf_rtree::{RTree, SpatialIndex};
use sf_validity::Valid;
use std::alloc::{AllocError, Global};
use std::marker::Model;

/// A geometry and a reach, with what is asked of each feature's geometry. Contracts see the two.
#[derive(Drop)]
pub(crate) struct Surroundings<'a> {
    given: Listed<'a>,
    reach: Reach,
    /// The square of the reach.
    bound: Square,
    /// The geometry's box.
    own: Extent,
    /// The box with the reach more on each side: no geometry whose box doesn't meet it is within the reach.
    extent: Extent,
}

impl<'a> Model for Surroundings<'a> {
    ghost use Rattle.sf_near.specs.Surrounding.{AreKept, Surrounding};

    ghost Value = { Surrounding };

    ghost view = { λ s. record { geometry = s.given; reach = s.reach } };

    ghost invariant = { λ s. AreKept s.given s.reach s.bound s.own s.extent };
}

impl<'a> Surroundings<'a> {
    /// Those of a geometry.
    ///
    /// # Errors
    ///
    /// Out of memory alone.
    pub(crate) fn new(
        alloc: Global,
        given: &'a Valid,
        reach: Reach,
    ) -> Result<Surroundings<'a>, AllocError>
        ensures same { IfOk result (λ around. around ≡ record { geometry = given.now; reach = reach }) }
        ensures held { IsHeld given.now }
    {
        let own = given.geometry().envelope();
        Ok(Surroundings {
            given: Listed::new(alloc, given)?,
            reach,
            bound: reach.square(),
            own,
            extent: grown(own, reach.steps()),
        })
    }

    /// The identifiers of the boxes of an index that meet the grown box, rising. No other feature is within the reach.
    ///
    /// # Errors
    ///
    /// Out of memory alone.
    pub(crate) fn near_ids(&self, alloc: Global, index: &RTree) -> Result<Vec<u32>, AllocError>
        ensures ids { IfOk result (λ ids. ids.items ≡ ids_meeting (grown_by (steps_of_reach self.now.reach) (envelope_of self.now.geometry)) index.now) }
        ensures held { IsHeld self.now.geometry }
    {
        index.meeting(alloc, &self.extent)
    }

    /// Whether some point of a feature's geometry is no farther from one of the given geometry than the reach. Boxes that are too
    /// far apart, or near enough as a whole, tell it without a look at the geometries.
    ///
    /// # Errors
    ///
    /// Out of memory alone.
    pub(crate) fn has_part_of(&self, alloc: Global, geometry: &Valid) -> Result<bool, AllocError>
        ensures { IfOk result (λ answer. answer ≡ is_within_of (square_of_reach self.now.reach) geometry.now self.now.geometry) }
    {
        let extent = geometry.geometry().envelope();
        if !extent.meets(self.extent) {
            return Ok(false);
        }
        if are_wholly_within(extent, self.own, &self.bound) {
            return Ok(true);
        }
        self.given.is_within(alloc, geometry, &self.bound)
    }
}
