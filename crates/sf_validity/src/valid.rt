ghost use Rattle.std.specs.Prelude.{◌≡◌, ◌⊎◌, Err, Ok, Some, IfErr, IfOk, IsOk, OnErr, OnOk};
ghost use Rattle.sf_geometry.specs.declared.refusal.Refusal.TheVariants as lower;
ghost use Rattle.sf_geometry.specs.Size.{IsSized};
ghost use Rattle.sf_geometry.specs.Vertices.{insert_vertex, move_vertex, remove_vertex, vertex_of};
ghost use Rattle.sf_valid_rules.specs.Validity.{IsValid};
ghost use Rattle.sf_validity.specs.Held.{IsHeld};
ghost use Rattle.sf_validity.specs.Refusals.{Refuses, RefusesChange};

use super::changed::{Stretch, check_changed, is_tight_at};
use super::checks::check;
use super::refusal::Refusal;
use sf_geometry::Geometry;
use sf_grid::GridPoint;
use std::alloc::{AllocError, Global};
use std::marker::Model;

/// A valid geometry. Contracts see it as the geometry.
#[derive(Debug, Drop)]
pub struct Valid {
    geometry: Geometry,
}

impl Model for Valid {
    ghost use Rattle.sf_geometry.specs.declared.geometry.Geometry.{Geometry as Shape};
    ghost use Rattle.sf_validity.specs.Held.{IsHeld};

    ghost Value = { Shape };

    ghost view = { λ a. a.geometry };

    ghost invariant = { λ a. IsHeld a.geometry };
}

/// A geometry that was refused, and why.
#[derive(Debug, Drop)]
pub struct Invalid {
    pub refusal: Refusal,
    pub geometry: Geometry,
}

/// Takes a geometry as valid.
///
/// # Errors
///
/// The geometry is given back with its first fault, or with `Memory` where none is found.
pub fn validate(alloc: Global, geometry: Geometry) -> Result<Valid, Invalid>
    requires { IsSized geometry }
    ensures kept { IfOk result (λ valid. valid ≡ geometry) }
    ensures valid { OnOk result (IsHeld geometry) }
    ensures refused { IfErr result (λ invalid. Refuses geometry invalid.refusal) }
    ensures given_back { IfErr result (λ invalid. invalid.geometry ≡ geometry) }
{
    match check(alloc, &geometry) {
        Ok(()) => {
            geometry.lies_on_grid();
            Ok(Valid { geometry })
        }
        Err(refusal) => Err(Invalid { refusal, geometry }),
    }
}

impl Valid {
    /// The geometry.
    pub fn geometry(&self) -> &Geometry
        ensures same { result.now ≡ self.now }
        ensures valid { IsHeld self.now }
    {
        &self.geometry
    }

    /// The geometry, moved out.
    pub fn into_geometry(self) -> Geometry
        ensures same { result ≡ self }
        ensures valid { IsHeld self }
    {
        self.geometry
    }

    /// A copy of the geometry, which is not checked again.
    ///
    /// # Errors
    ///
    /// Out of memory.
    pub fn copy(&self, alloc: Global) -> Result<Valid, AllocError>
        ensures { IfOk result (λ copy. copy ≡ self.now) }
    {
        let geometry = self.geometry.copy(alloc)?;
        Ok(Valid { geometry })
    }

    /// Puts a vertex before the one at an index, or at the end where the index is their count.
    ///
    /// # Errors
    ///
    /// `NoVertex` where there is no such place, `TooManyVertices` where the geometry has 65,536
    /// points already; else the first fault that the geometry would have, or `Memory` where none
    /// is found. The geometry is then as it was.
    pub fn insert_vertex(
        &mut self,
        alloc: Global,
        part: u32,
        ring: u32,
        index: u32,
        point: GridPoint,
    ) -> Result<(), Refusal>
        ensures inserted { OnOk result
            (insert_vertex self.old part ring index point ≡ Ok self.new) }
        ensures valid { OnOk result (IsHeld self.new) }
        ensures refused { IfErr result
            (RefusesChange (insert_vertex self.old part ring index point)) }
        ensures unchanged { OnErr result (self.new ≡ self.old) }
    {
        let was_tight = is_tight_at(&self.geometry, part, ring);
        self.geometry
            .insert_vertex(alloc, part, ring, index, point)?;
        let stretch = Stretch {
            part,
            ring,
            index,
            count: 1,
            gone: None,
        };
        if let Err(refusal) = check_changed(alloc, &self.geometry, was_tight, &stretch) {
            // Taking it out again needs no memory.
            self.geometry.remove_vertex(part, ring, index).unwrap();
            return Err(refusal);
        }
        self.geometry.lies_on_grid();
        Ok(())
    }

    /// Moves the vertex at an index, and gives the point where it was.
    ///
    /// # Errors
    ///
    /// `NoVertex` where there is none; else the first fault that the geometry would have, or
    /// `Memory` where none is found. The geometry is then as it was.
    pub fn move_vertex(
        &mut self,
        alloc: Global,
        part: u32,
        ring: u32,
        index: u32,
        point: GridPoint,
    ) -> Result<GridPoint, Refusal>
        ensures moved { OnOk result (move_vertex self.old part ring index point ≡ Ok self.new) }
        ensures valid { OnOk result (IsHeld self.new) }
        ensures given { IfOk result (λ old. vertex_of self.old part ring index ≡ Some old) }
        ensures refused { IfErr result
            (RefusesChange (move_vertex self.old part ring index point)) }
        ensures unchanged { OnErr result (self.new ≡ self.old) }
    {
        let was_tight = is_tight_at(&self.geometry, part, ring);
        let old = self.geometry.move_vertex(part, ring, index, point)?;
        let stretch = Stretch {
            part,
            ring,
            index,
            count: 1,
            gone: Some(old),
        };
        if let Err(refusal) = check_changed(alloc, &self.geometry, was_tight, &stretch) {
            self.geometry.move_vertex(part, ring, index, old).unwrap();
            return Err(refusal);
        }
        self.geometry.lies_on_grid();
        Ok(old)
    }

    /// Takes the vertex at an index out, and gives its point.
    ///
    /// # Errors
    ///
    /// `NoVertex` where there is none, `Empty` where it is the only one of its list; else the first
    /// fault that the geometry would have, or `Memory` where none is found. The geometry is then
    /// as it was.
    pub fn remove_vertex(
        &mut self,
        alloc: Global,
        part: u32,
        ring: u32,
        index: u32,
    ) -> Result<GridPoint, Refusal>
        ensures removed { OnOk result (remove_vertex self.old part ring index ≡ Ok self.new) }
        ensures valid { OnOk result (IsHeld self.new) }
        ensures given { IfOk result (λ old. vertex_of self.old part ring index ≡ Some old) }
        ensures refused { IfErr result (RefusesChange (remove_vertex self.old part ring index)) }
        ensures unchanged { OnErr result (self.new ≡ self.old) }
    {
        let Some(old) = self.geometry.vertex(part, ring, index) else {
            return Err(Refusal::NoVertex);
        };
        // On a copy: putting the vertex back could need memory.
        let without = self.geometry.without_vertex(alloc, part, ring, index)?;
        let was_tight = is_tight_at(&self.geometry, part, ring);
        let stretch = Stretch {
            part,
            ring,
            index,
            count: 0,
            gone: Some(old),
        };
        check_changed(alloc, &without, was_tight, &stretch)?;
        without.lies_on_grid();
        self.geometry = without;
        Ok(old)
    }

    /// Puts a vertex in where it is known that the geometry is valid with it. Nothing is checked.
    ///
    /// # Errors
    ///
    /// As those of `Geometry::insert_vertex`.
    pub fn insert_vertex_unchecked(
        &mut self,
        alloc: Global,
        part: u32,
        ring: u32,
        index: u32,
        point: GridPoint,
    ) -> Result<(), sf_geometry::Refusal>
        requires { IfOk (insert_vertex self.old part ring index point) IsValid }
        ensures inserted { OnOk result
            (insert_vertex self.old part ring index point ≡ Ok self.new) }
        ensures refused { IfErr result (λ refusal.
            (insert_vertex self.old part ring index point ≡ Err refusal)
            ⊎ ((refusal ≡ lower.Memory) × IsOk (insert_vertex self.old part ring index point))) }
        ensures unchanged { OnErr result (self.new ≡ self.old) }
    {
        let inserted = self.geometry.insert_vertex(alloc, part, ring, index, point);
        self.geometry.lies_on_grid();
        inserted
    }

    /// Moves a vertex where it is known that the geometry is valid then, and gives the point where
    /// it was. Nothing is checked.
    ///
    /// # Errors
    ///
    /// As those of `Geometry::move_vertex`.
    pub fn move_vertex_unchecked(
        &mut self,
        part: u32,
        ring: u32,
        index: u32,
        point: GridPoint,
    ) -> Result<GridPoint, sf_geometry::Refusal>
        requires { IfOk (move_vertex self.old part ring index point) IsValid }
        ensures moved { OnOk result (move_vertex self.old part ring index point ≡ Ok self.new) }
        ensures given { IfOk result (λ old. vertex_of self.old part ring index ≡ Some old) }
        ensures refused { IfErr result (λ refusal.
            move_vertex self.old part ring index point ≡ Err refusal) }
        ensures unchanged { OnErr result (self.new ≡ self.old) }
    {
        let old = self.geometry.move_vertex(part, ring, index, point);
        self.geometry.lies_on_grid();
        old
    }

    /// Takes a vertex out where it is known that the geometry is valid without it, and gives its
    /// point. Nothing is checked.
    ///
    /// # Errors
    ///
    /// As those of `Geometry::remove_vertex`.
    pub fn remove_vertex_unchecked(
        &mut self,
        part: u32,
        ring: u32,
        index: u32,
    ) -> Result<GridPoint, sf_geometry::Refusal>
        requires { IfOk (remove_vertex self.old part ring index) IsValid }
        ensures removed { OnOk result (remove_vertex self.old part ring index ≡ Ok self.new) }
        ensures given { IfOk result (λ old. vertex_of self.old part ring index ≡ Some old) }
        ensures refused { IfErr result (λ refusal.
            remove_vertex self.old part ring index ≡ Err refusal) }
        ensures unchanged { OnErr result (self.new ≡ self.old) }
    {
        let old = self.geometry.remove_vertex(part, ring, index);
        self.geometry.lies_on_grid();
        old
    }
}
