//! A geometry that features are asked about, and what was made of it.

ghost use Rattle.std.specs.Prelude.{◌≡◌, ◌&&◌, not, IfOk, IfSome};
ghost use Rattle.sf_geometry.specs.Envelope.{envelope_of, extents_meet};
ghost use Rattle.sf_rtree.specs.Indexes.{ids_meeting};
ghost use Rattle.sf_valid_rules.specs.Validity.{IsValid};
ghost use Rattle.sf_relate.specs.Matrices.{matrix_of};

use sf_geometry::Extent;
use sf_prepared::Prepared;
use sf_relate::Matrix;
use sf_rtree::{RTree, SpatialIndex};
use sf_validity::Valid;
use std::alloc::{AllocError, Global};
use std::marker::Model;

/// A geometry that features are asked about, with its box, and with what was made of it where that pays. Contracts see it
/// as the geometry.
#[derive(Drop)]
pub(crate) struct Given<'a> {
    pub(crate) valid: &'a Valid,
    pub(crate) extent: Extent,
    /// How many points it has.
    pub(crate) points: usize,
    pub(crate) prepared: Option<Prepared>,
}

impl<'a> Model for Given<'a> {
    ghost use Rattle.std.specs.Prelude.{◌≡◌, IfSome};
    ghost use Rattle.sf_geometry.specs.Envelope.{envelope_of};
    ghost use Rattle.sf_geometry.specs.declared.geometry.Geometry.{Geometry as Shape};
    ghost use Rattle.sf_valid_rules.specs.Validity.{IsValid};
    ghost use Rattle.sf_prepared.specs.Boxes.{AreEdgesOf};

    ghost Value = { Shape };

    ghost view = { λ g. g.valid.now };

    ghost invariant = { λ g. IsValid g.valid.now × (g.extent ≡ envelope_of g.valid.now) × IfSome g.prepared (AreEdgesOf g.valid.now) };
}

impl<'a> Given<'a> {
    /// One of which nothing is made.
    pub(crate) fn new(valid: &'a Valid) -> Given<'a>
        ensures same { result ≡ valid.now }
        ensures valid { IsValid valid.now }
    {
        Given {
            valid,
            extent: valid.geometry().envelope(),
            points: valid.geometry().point_count(),
            prepared: None,
        }
    }

    /// The same with what is made of it, where memory is found.
    pub(crate) fn prepared(self, alloc: Global) -> Given<'a>
        ensures { result ≡ self.entry }
    {
        let prepared = Prepared::new(alloc, self.valid).ok();
        Given { prepared, ..self }
    }

    /// The matrix of a feature's geometry with it, where it was prepared and no edge of it has a point of the feature's box.
    pub(crate) fn matrix_clear(&self, alloc: Global, geometry: &Valid) -> Option<Matrix>
        ensures { IfSome result (λ matrix. matrix.0 ≡ matrix_of geometry.now self.now) }
    {
        match &self.prepared {
            Some(prepared) => prepared.matrix_clear(alloc, geometry, self.valid),
            None => None,
        }
    }

    /// The matrix of a feature's geometry with it, where it was prepared and the edges nearby show that.
    pub(crate) fn matrix_prepared(&self, alloc: Global, geometry: &Valid) -> Option<Matrix>
        ensures { IfSome result (λ matrix. matrix.0 ≡ matrix_of geometry.now self.now) }
    {
        match &self.prepared {
            Some(prepared) => prepared.matrix_nearby(alloc, geometry, self.valid),
            None => None,
        }
    }

    /// The identifiers of the features whose boxes meet its box, rising.
    pub(crate) fn near_ids(&self, alloc: Global, index: &RTree) -> Result<Vec<u32>, AllocError>
        ensures { IfOk result (λ ids. ids.items ≡ ids_meeting (envelope_of self.now) index.now) }
    {
        index.meeting(alloc, &self.extent)
    }

    /// Whether a geometry can't answer by its box: contact is needed, and the box doesn't meet this one's.
    pub(crate) fn passes_over(&self, geometry: &Valid, needs_contact: bool) -> bool
        ensures { result ≡ (needs_contact && not (extents_meet (envelope_of geometry.now) (envelope_of self.now))) }
    {
        needs_contact && !geometry.geometry().envelope().meets(self.extent)
    }
}
