ghost use Rattle.std.specs.Prelude.{◌≡◌, ◌≤◌, ◌⊎◌, length, option_copied, Err, None, Ok, Some, IfErr, IfOk, IsOk, IsOkAnd, OnErr, OnOk};
ghost use Rattle.std.specs.List.Sorted.{IsBinarySearchResult, IsSearchInRange, IsStrictlySortedBy};
ghost use Rattle.std.specs.Map.{keys_of};
ghost use Rattle.std.specs.Ordering.{nat_cmp};
ghost use Rattle.sf_geometry.specs.Vertices.{insert_vertex, move_vertex, remove_vertex, vertex_of};
ghost use Rattle.sf_valid_rules.specs.Validity.{IsValid};
ghost use Rattle.sf_validity.specs.Held.{IsHeld};
ghost use Rattle.sf_validity.specs.Refusals.{RefusesChange};
ghost use Rattle.sf_features.specs.Features.{change_geometry, number_end, plain_feature, value_in, with_geometry, with_value, without_value};

use super::attr_value::{AttrValue, copy_of_values};
use sf_grid::GridPoint;
use sf_validity::{Refusal, Valid};
use std::alloc::{AllocError, Global};
use std::marker::Model;

/// A feature: a valid geometry with values in some of its layer's columns, by column number.
#[derive(Debug, Drop)]
pub struct Feature {
    valid: Valid,
    values: Vec<(u16, AttrValue)>,
}

impl Model for Feature {
    ghost use Rattle.sf_features.specs.Features.{AreByNumber, FeatureContent};

    ghost Value = { FeatureContent };

    ghost view = { λ a. record { geometry = a.valid; values = a.values.items } };

    ghost invariant = { λ a. AreByNumber a.values.items };
}

impl Feature {
    /// A feature with no values.
    pub fn new(alloc: Global, valid: Valid) -> Feature
        ensures { result ≡ plain_feature valid }
    {
        Feature {
            valid,
            values: Vec::new(alloc),
        }
    }

    /// A copy of the feature.
    ///
    /// # Errors
    ///
    /// Out of memory.
    pub fn copy(&self, alloc: Global) -> Result<Feature, AllocError>
        ensures { IfOk result (λ copy. copy ≡ self.now) }
    {
        let valid = self.valid.copy(alloc)?;
        let values = copy_of_values(alloc, self.values.as_slice())?;
        Ok(Feature { valid, values })
    }

    /// The feature's geometry.
    pub fn valid(&self) -> &Valid
        ensures same { result.now ≡ self.now.geometry }
        ensures rising { IsStrictlySortedBy nat_cmp (keys_of self.now.values) }
    {
        &self.valid
    }

    /// The feature's geometry, moved out of it.
    pub fn into_valid(self) -> Valid
        ensures { result ≡ self.geometry }
    {
        self.valid
    }

    /// The value in the column of a number, or None where there is none.
    pub fn value(&self, number: u16) -> Option<&AttrValue>
        ensures { option_copied result ≡ value_in number self.now }
    {
        match self.place(number) {
            Ok(place) => Some(&self.values[place].1),
            Err(_) => None,
        }
    }

    /// How many values there are: at most one for each of the 65,536 numbers.
    pub fn value_count(&self) -> usize
        ensures count { result ≡ length self.now.values }
        ensures few { result ≤ number_end }
    {
        self.values.len()
    }

    /// The values with their column numbers, rising.
    pub fn values(&self) -> &[(u16, AttrValue)]
        ensures { result.now ≡ self.now.values }
    {
        self.values.as_slice()
    }

    // Where the value of a column stands, or else where it would.
    fn place(&self, number: u16) -> Result<usize, usize>
        ensures within { IsSearchInRange result (length self.now.values) }
        ensures found { IsBinarySearchResult (λ entry. nat_cmp entry.0 number) self.now.values result }
    {
        self.values.binary_search_by_key(&number, |entry| entry.0)
    }

    /// Puts a value into the column of a number, and gives the one whose place it takes.
    ///
    /// # Errors
    ///
    /// Where no memory is found, the value is given back and nothing is changed. Over another value
    /// it takes none.
    pub fn put_value(
        &mut self,
        number: u16,
        value: AttrValue,
    ) -> Result<Option<AttrValue>, AttrValue>
        ensures put { OnOk result (self.new ≡ with_value number value self.old) }
        ensures old { IfOk result (λ old. old ≡ value_in number self.old) }
        ensures given_back { IfErr result (λ back. back ≡ value) }
        ensures unchanged { OnErr result (self.new ≡ self.old) }
        ensures none { OnErr result (value_in number self.old ≡ None) }
    {
        match self.place(number) {
            Ok(place) => {
                let old = std::mem::replace(&mut self.values[place].1, value);
                Ok(Some(old))
            }
            Err(place) => match self.values.insert(place, (number, value)) {
                Ok(()) => Ok(None),
                Err(failed) => Err(failed.value.1),
            },
        }
    }

    /// Removes the value from the column of a number, if there is one, and gives it.
    pub fn take_value(&mut self, number: u16) -> Option<AttrValue>
        ensures taken { result ≡ value_in number self.old }
        ensures rest { self.new ≡ without_value number self.old }
    {
        match self.place(number) {
            Ok(place) => {
                let (_, value) = self.values.remove(place);
                Some(value)
            }
            Err(_) => None,
        }
    }

    /// Puts another geometry in the place of the feature's, and gives that one.
    pub fn exchange_geometry(&mut self, valid: Valid) -> Valid
        ensures given { result ≡ self.old.geometry }
        ensures put { self.new ≡ with_geometry valid self.old }
    {
        std::mem::replace(&mut self.valid, valid)
    }

    /// Puts a vertex into the geometry, before an index or last.
    ///
    /// # Errors
    ///
    /// As those of a `Valid`; nothing is changed then.
    pub fn insert_vertex(
        &mut self,
        alloc: Global,
        part: u32,
        ring: u32,
        index: u32,
        point: GridPoint,
    ) -> Result<(), Refusal>
        ensures inserted { OnOk result
            (self.new ≡ change_geometry (λ g. insert_vertex g part ring index point) self.old) }
        ensures valid { OnOk result
            (IsOkAnd (insert_vertex self.old.geometry part ring index point) IsHeld) }
        ensures refused { IfErr result
            (RefusesChange (insert_vertex self.old.geometry part ring index point)) }
        ensures unchanged { OnErr result (self.new ≡ self.old) }
    {
        self.valid.insert_vertex(alloc, part, ring, index, point)
    }

    /// Moves a vertex of the geometry, and gives the point where it was.
    ///
    /// # Errors
    ///
    /// As those of a `Valid`; nothing is changed then.
    pub fn move_vertex(
        &mut self,
        alloc: Global,
        part: u32,
        ring: u32,
        index: u32,
        point: GridPoint,
    ) -> Result<GridPoint, Refusal>
        ensures moved { OnOk result
            (self.new ≡ change_geometry (λ g. move_vertex g part ring index point) self.old) }
        ensures valid { OnOk result
            (IsOkAnd (move_vertex self.old.geometry part ring index point) IsHeld) }
        ensures given { IfOk result (λ old.
            vertex_of self.old.geometry part ring index ≡ Some old) }
        ensures refused { IfErr result
            (RefusesChange (move_vertex self.old.geometry part ring index point)) }
        ensures unchanged { OnErr result (self.new ≡ self.old) }
    {
        self.valid.move_vertex(alloc, part, ring, index, point)
    }

    /// Removes a vertex from the geometry, and gives its point.
    ///
    /// # Errors
    ///
    /// As those of a `Valid`; nothing is changed then.
    pub fn remove_vertex(
        &mut self,
        alloc: Global,
        part: u32,
        ring: u32,
        index: u32,
    ) -> Result<GridPoint, Refusal>
        ensures removed { OnOk result
            (self.new ≡ change_geometry (λ g. remove_vertex g part ring index) self.old) }
        ensures valid { OnOk result
            (IsOkAnd (remove_vertex self.old.geometry part ring index) IsHeld) }
        ensures given { IfOk result (λ old.
            vertex_of self.old.geometry part ring index ≡ Some old) }
        ensures refused { IfErr result
            (RefusesChange (remove_vertex self.old.geometry part ring index)) }
        ensures unchanged { OnErr result (self.new ≡ self.old) }
    {
        self.valid.remove_vertex(alloc, part, ring, index)
    }

    /// Puts a vertex in where it is known that there is such a place and that the geometry is valid
    /// with it. No fault is searched.
    ///
    /// # Errors
    ///
    /// Where no memory is found, nothing is changed.
    pub fn put_vertex_back(
        &mut self,
        alloc: Global,
        part: u32,
        ring: u32,
        index: u32,
        point: GridPoint,
    ) -> Result<(), AllocError>
        requires { IsOkAnd (insert_vertex self.old.geometry part ring index point) IsValid }
        ensures inserted { OnOk result
            (self.new ≡ change_geometry (λ g. insert_vertex g part ring index point) self.old) }
        ensures unchanged { OnErr result (self.new ≡ self.old) }
    {
        match self
            .valid
            .insert_vertex_unchecked(alloc, part, ring, index, point)
        {
            Ok(()) => Ok(()),
            Err(_) => Err(AllocError),
        }
    }

    /// Moves a vertex where it is known that it is there and that the geometry is valid then, and
    /// gives the point where it was. No fault is searched.
    pub fn move_vertex_back(
        &mut self,
        part: u32,
        ring: u32,
        index: u32,
        point: GridPoint,
    ) -> GridPoint
        requires { IsOkAnd (move_vertex self.old.geometry part ring index point) IsValid }
        ensures moved { self.new ≡ change_geometry (λ g. move_vertex g part ring index point) self.old }
        ensures given { vertex_of self.old.geometry part ring index ≡ Some result }
    {
        self.valid
            .move_vertex_unchecked(part, ring, index, point)
            .unwrap()
    }

    /// Removes a vertex where it is known that it is there and that the geometry is valid without
    /// it, and gives its point. No fault is searched.
    pub fn take_vertex_back(&mut self, part: u32, ring: u32, index: u32) -> GridPoint
        requires { IsOkAnd (remove_vertex self.old.geometry part ring index) IsValid }
        ensures removed { self.new ≡ change_geometry (λ g. remove_vertex g part ring index) self.old }
        ensures given { vertex_of self.old.geometry part ring index ≡ Some result }
    {
        self.valid
            .remove_vertex_unchecked(part, ring, index)
            .unwrap()
    }
}
