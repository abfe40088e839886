ghost use Rattle.std.specs.Prelude.{◌≡◌, ◌<◌, ◌≤◌, ◌-◌, ◌^◌, ℕ, false, is_some, length, option_copied, None, Some, IsOkAnd, IsSome, IsSomeAnd, IfErr, IfOk, IfSome, OnErr, OnOk, nat_eq, slice_get};
ghost use Rattle.std.specs.List.{AllByRecursion};
ghost use Rattle.std.specs.List.Sorted.{IsStrictlySortedBy};
ghost use Rattle.std.specs.BTreeMap.{insert_entry};
ghost use Rattle.std.specs.Fn.{FnOnceReturnsAtMut, FnOnceTakesAtMut};
ghost use Rattle.std.specs.Map.{keys_of, lookup, values_of};
ghost use Rattle.std.specs.Map.Iter.{ShowsInOrder, deref_pair};
ghost use Rattle.std.specs.Ordering.{nat_cmp};
ghost use Rattle.sf_geometry.specs.Vertices.{insert_vertex, move_vertex, remove_vertex, vertex_of};
ghost use Rattle.sf_valid_rules.specs.Validity.{IsValid};
ghost use Rattle.sf_validity.specs.Held.{IsHeld};
ghost use Rattle.sf_validity.specs.Refusals.{RefusesChange};
ghost use Rattle.sf_features.specs.Columns.{numbered};
ghost use Rattle.sf_features.specs.Features.{FeatureContent, change_geometry, value_in, with_geometry, with_value, without_value};
ghost use Rattle.sf_layers.specs.Boxes.{boxes_of};
ghost use Rattle.sf_layers.specs.Content.{change_feature, column_named, column_place, column_values, empty_layer, feature_of, head_of, with_column, with_feature, with_last_column, with_next_column, with_next_feature, with_next_id, with_values, without_column, without_feature, without_last_column, without_last_feature, without_values};
ghost use Rattle.sf_layers.specs.Found.{ids_between, ids_with_value as ids_with_value_of};
ghost use Rattle.sf_layers.specs.WellFormed.{column_end, id_end};

use super::column_moves::{ids_with_value, put_all, take_from};
use super::column_values::ColumnValues;
use super::found::{ids_among, ids_among_all};
use super::index::{extent_of, index_of, move_box, put_box, take_box};
use super::layer_kind::LayerKind;
use super::value_indexes::ValueIndexes;
use super::value_test::{IsBetween, IsSame};
use sf_features::{AttrValue, Column, ColumnType, Columns, Feature, Text};
use sf_grid::GridPoint;
use sf_rtree::{RTree, SpatialIndex};
use sf_validity::{Refusal, Valid};
use std::alloc::{AllocError, Global};
use std::collections::{BTreeMap, btree_map};
use std::marker::Model;

/// A layer of features by identifier, with its columns in order and the counters of its identifiers
/// and column numbers.
///
/// It keeps an index of its features' boxes, and one by value of each column for which `index_values` was called. Where memory
/// runs out an index is lost, and no change is refused; `reindex` and `index_values` build it anew. Contracts see a layer as its
/// content, to which the indexes add nothing.
#[derive(Drop)]
#[derive_where(Debug)]
pub struct Layer {
    kind: LayerKind,
    next_id: u32,
    next_column: u16,
    columns: Columns,
    features: BTreeMap<u32, Feature>,
    #[derive_where(skip)]
    index: Option<RTree>,
    #[derive_where(skip)]
    values: ValueIndexes,
}

impl Model for Layer {
    ghost use Rattle.sf_layers.specs.Boxes.{Agrees};
    ghost use Rattle.sf_layers.specs.Content.{LayerContent};
    ghost use Rattle.sf_layers.specs.ValueIndexes.{AreNoted};

    ghost Value = { LayerContent };

    ghost view = { λ a. record {
      kind = a.kind;
      next_id = a.next_id;
      next_column = a.next_column;
      columns = a.columns;
      features = a.features.entries;
    } };

    ghost invariant = { λ a. Agrees a.index a.features.entries × AreNoted a.values a.features.entries };
}

impl Layer {
    /// A layer with no column and no feature, both counters 1.
    pub fn new(alloc: Global, kind: LayerKind) -> Layer
        ensures { result ≡ empty_layer kind }
    {
        Layer {
            kind,
            next_id: 1,
            next_column: 1,
            columns: Columns::new(alloc),
            features: BTreeMap::new(alloc),
            index: Some(RTree::new(alloc)),
            values: ValueIndexes::new(alloc),
        }
    }

    /// As `new`, but without an index: for a layer of which many features are known, which is given
    /// its index at once by `reindex` when they are all there.
    pub fn unindexed(alloc: Global, kind: LayerKind) -> Layer
        ensures { result ≡ empty_layer kind }
    {
        Layer {
            index: None,
            ..Layer::new(alloc, kind)
        }
    }

    /// A layer of the same kind, counters and columns, without features and without an index.
    ///
    /// # Errors
    ///
    /// Out of memory.
    pub fn head(&self, alloc: Global) -> Result<Layer, AllocError>
        ensures { IfOk result (λ head. head ≡ head_of self.now) }
    {
        let columns = self.columns.copy(alloc)?;
        Ok(Layer {
            kind: self.kind,
            next_id: self.next_id,
            next_column: self.next_column,
            columns,
            features: BTreeMap::new(alloc),
            index: None,
            values: ValueIndexes::new(alloc),
        })
    }

    /// Which kinds of geometry the layer takes.
    pub fn kind(&self) -> LayerKind
        ensures { result ≡ self.now.kind }
    {
        self.kind
    }

    /// The identifier that the next feature takes, from 1 on; 4294967295 where there is none left.
    pub fn next_id(&self) -> u32
        ensures { result ≡ self.now.next_id }
    {
        self.next_id
    }

    /// The number that the next column takes, from 1 on; 65535 where there is none left.
    pub fn next_column(&self) -> u16
        ensures { result ≡ self.now.next_column }
    {
        self.next_column
    }

    /// The feature of an identifier, or None where the layer has none under it.
    pub fn feature(&self, id: u32) -> Option<&Feature>
        ensures { option_copied result ≡ feature_of self.now id }
    {
        self.features.get(&id)
    }

    /// How many features there are.
    pub fn feature_count(&self) -> usize
        ensures { result ≡ length self.now.features }
    {
        self.features.len()
    }

    /// Shows a proof that there is at most one feature for each of the 2^32 identifiers. It does
    /// nothing, so a compiler may leave it out.
    pub fn has_few_features(&self)
        ensures { length self.now.features ≤ 2 ^ 32 }
    {
        let count = self.features.len();
        if let Some((id, _)) = self.features.last_key_value() {
            // Identifiers rise.
            prove!(count <= *id as usize + 1);
        }
    }

    /// The features with their identifiers, rising.
    pub fn features(&self) -> btree_map::Iter<'_, u32, Feature>
        ensures rest { result ≡ self.now.features }
        ensures runs { ShowsInOrder (deref_pair {K = ℕ} {X = FeatureContent}) }
    {
        self.features.iter()
    }

    /// How many columns there are.
    pub fn column_count(&self) -> usize
        ensures count { result ≡ length self.now.columns }
        ensures small { result < 2 ^ 63 }
    {
        self.columns.len()
    }

    /// The column at a place of the order, or None from the number of columns on.
    pub fn column_at(&self, place: usize) -> Option<&Column>
        ensures { option_copied result ≡ slice_get self.now.columns place }
    {
        self.columns.at(place)
    }

    /// The column of a name, or None where the layer has none.
    pub fn column(&self, name: &str) -> Option<&Column>
        ensures { option_copied result ≡ column_named self.now name.now }
    {
        match self.column_place(name) {
            Some(place) => self.column_at(place),
            None => None,
        }
    }

    /// The place of the column of a name in the order, or None where no column has it.
    pub fn column_place(&self, name: &str) -> Option<usize>
        ensures there { IfSome result (λ place. place ≡ column_place self.now name.now) }
        ensures found { is_some result ≡ is_some (column_named self.now name.now) }
    {
        self.columns.place(name)
    }

    /// The column of a number, or None where no column has it.
    pub fn column_numbered(&self, number: u16) -> Option<&Column>
        ensures { option_copied result ≡ numbered self.now.columns number }
    {
        self.columns.numbered(number)
    }

    /// The index of the features' boxes by identifier, or None where it was lost as memory ran out.
    pub fn index(&self) -> Option<&RTree>
        ensures { IfSome result (λ index. index.now ≡ boxes_of self.now.features) }
    {
        self.index.as_ref()
    }

    /// Builds the index anew where there is none; where no memory is found, there is none still.
    pub fn reindex(&mut self, alloc: Global)
        ensures { self.new ≡ self.old }
    {
        if self.index.is_none() {
            self.index = index_of(alloc, &self.features).ok();
        }
    }

    /// Makes the index by value of the column of a number where there is none; where no memory is found, there is none still.
    pub fn index_values(&mut self, alloc: Global, number: u16)
        ensures { self.new ≡ self.old }
    {
        if !self.values.has_column(number) {
            self.values.make(alloc, &self.features, number);
        }
    }

    /// Whether there is an index by value of the column of a number: none before `index_values`, and none where it was lost.
    pub fn has_value_index(&self, number: u16) -> bool {
        self.values.has_column(number)
    }

    /// The identifiers of the features that have this value in the column of a number, rising: by the column's index where there is
    /// one and the features are few, and else by a look at each feature.
    ///
    /// # Errors
    ///
    /// Out of memory.
    pub fn ids_with_value(
        &self,
        alloc: Global,
        number: u16,
        value: &AttrValue,
    ) -> Result<Vec<u32>, AllocError>
        ensures { IfOk result (λ ids. ids.items ≡ ids_with_value_of number value.now self.now) }
    {
        let test = IsSame { value };
        match self.values.ids_of(alloc, number, value)? {
            Some(ids) => ids_among(alloc, &self.features, number, &test, ids.as_slice()),
            None => ids_among_all(alloc, &self.features, number, &test),
        }
    }

    /// The identifiers of the features that have a value between two ends, or at one of them, in the column of a number, rising.
    /// An end that is None bounds nothing. The order of values is that of `AttrValue::compare`. By the column's index where there
    /// is one and the features are few, and else by a look at each feature.
    ///
    /// # Errors
    ///
    /// Out of memory.
    pub fn ids_between(
        &self,
        alloc: Global,
        number: u16,
        from: &Option<AttrValue>,
        to: &Option<AttrValue>,
    ) -> Result<Vec<u32>, AllocError>
        ensures { IfOk result (λ ids. ids.items ≡ ids_between number from.now to.now self.now) }
    {
        let test = IsBetween { from, to };
        match self.values.ids_between(alloc, number, from, to)? {
            Some(ids) => ids_among(alloc, &self.features, number, &test, ids.as_slice()),
            None => ids_among_all(alloc, &self.features, number, &test),
        }
    }

    /// Puts a feature under an identifier that is free.
    ///
    /// # Errors
    ///
    /// Where no memory is found, the feature is given back and nothing is changed.
    pub fn put_feature(&mut self, alloc: Global, id: u32, feature: Feature) -> Result<(), Feature>
        requires { feature_of self.old id ≡ None }
        ensures put { OnOk result (self.new ≡ with_feature id feature self.old) }
        ensures given_back { IfErr result (λ back. back ≡ feature) }
        ensures unchanged { OnErr result (self.new ≡ self.old) }
    {
        let extent = extent_of(&feature);
        let count = self.features.len();
        self.values.note_all(alloc, count, id, feature.values());
        insert_feature(&mut self.features, id, feature)?;
        put_box(alloc, &mut self.index, id, extent);
        Ok(())
    }

    /// Removes the feature of an identifier, and gives it.
    pub fn take_feature(&mut self, alloc: Global, id: u32) -> Feature
        requires { IsSome (feature_of self.old id) }
        ensures taken { feature_of self.old id ≡ Some result }
        ensures rest { self.new ≡ without_feature id self.old }
    {
        let feature = self.features.remove(&id).unwrap();
        take_box(alloc, &mut self.index, id, extent_of(&feature));
        feature
    }

    /// Puts a feature under the next identifier, which it gives, and raises the counter.
    ///
    /// # Errors
    ///
    /// Where no memory is found, the feature is given back and nothing is changed.
    pub fn push_feature(&mut self, alloc: Global, feature: Feature) -> Result<u32, Feature>
        requires room { self.old.next_id < id_end }
        requires free { feature_of self.old self.old.next_id ≡ None }
        ensures pushed { OnOk result (self.new ≡ with_next_feature feature self.old) }
        ensures id { IfOk result (λ id. id ≡ self.old.next_id) }
        ensures given_back { IfErr result (λ back. back ≡ feature) }
        ensures unchanged { OnErr result (self.new ≡ self.old) }
    {
        let id = self.next_id;
        self.put_feature(alloc, id, feature)?;
        self.next_id = id + 1;
        Ok(id)
    }

    /// Removes the feature of an identifier, which is the next one then, and gives it.
    pub fn pop_feature(&mut self, alloc: Global, id: u32) -> Feature
        requires { IsSome (feature_of self.old id) }
        ensures taken { feature_of self.old id ≡ Some result }
        ensures rest { self.new ≡ without_last_feature id self.old }
    {
        self.next_id = id;
        self.take_feature(alloc, id)
    }

    /// Sets the identifier that the next feature takes.
    pub fn set_next_id(&mut self, next_id: u32)
        ensures { self.new ≡ with_next_id next_id self.old }
    {
        self.next_id = next_id;
    }

    /// Sets the number that the next column takes.
    pub fn set_next_column(&mut self, next_column: u16)
        ensures { self.new ≡ with_next_column next_column self.old }
    {
        self.next_column = next_column;
    }

    /// Puts a column at a place of the order, under a name and a number that are free.
    ///
    /// # Errors
    ///
    /// Where no memory is found, the column is given back and nothing is changed.
    pub fn put_column(&mut self, alloc: Global, place: usize, column: Column) -> Result<(), Column>
        requires within { place ≤ length self.old.columns }
        requires free { column_named self.old column.name ≡ None }
        requires unused { numbered self.old.columns column.number ≡ None }
        ensures put { OnOk result (self.new ≡ with_column place column self.old) }
        ensures given_back { IfErr result (λ back. back ≡ column) }
        ensures unchanged { OnErr result (self.new ≡ self.old) }
    {
        self.columns.put(alloc, place, column)
    }

    /// Removes the column at a place of the order, and gives it; values under its number stay.
    pub fn take_column(&mut self, place: usize) -> Column
        requires { place < length self.old.columns }
        ensures taken { slice_get self.old.columns place ≡ Some result }
        ensures rest { self.new ≡ without_column place self.old }
    {
        self.columns.take(place)
    }

    /// Puts a column last, under the next number, and raises the counter.
    ///
    /// # Errors
    ///
    /// Where no memory is found, the name is given back and nothing is changed.
    pub fn push_column(
        &mut self,
        alloc: Global,
        name: Text,
        column_type: ColumnType,
    ) -> Result<(), Text>
        requires room { self.old.next_column < column_end }
        requires free { column_named self.old name ≡ None }
        requires unused { numbered self.old.columns self.old.next_column ≡ None }
        ensures pushed { OnOk result (self.new ≡ with_last_column name column_type self.old) }
        ensures given_back { IfErr result (λ back. back ≡ name) }
        ensures unchanged { OnErr result (self.new ≡ self.old) }
    {
        let number = self.next_column;
        let last = self.columns.len();
        let column = Column {
            number,
            name,
            column_type,
        };
        match self.columns.put(alloc, last, column) {
            Ok(()) => {
                self.next_column = number + 1;
                Ok(())
            }
            Err(column) => Err(column.name),
        }
    }

    /// Removes the last column, whose number is the next one again, and gives it.
    pub fn pop_column(&mut self) -> Column
        requires some { 0 < length self.old.columns }
        requires counted { 0 < self.old.next_column }
        ensures taken { slice_get self.old.columns (length self.old.columns - 1) ≡ Some result }
        ensures rest { self.new ≡ without_last_column self.old }
    {
        self.next_column -= 1;
        let last = self.columns.len() - 1;
        self.columns.take(last)
    }

    /// Puts a value into a column of a feature, and gives the one whose place it takes.
    ///
    /// # Errors
    ///
    /// Where no memory is found, the value is given back and nothing is changed. Over another value
    /// it takes none.
    pub fn put_value(
        &mut self,
        alloc: Global,
        id: u32,
        number: u16,
        value: AttrValue,
    ) -> Result<Option<AttrValue>, AttrValue>
        requires { IsSome (feature_of self.old id) }
        ensures put { OnOk result
            (self.new ≡ change_feature id (with_value number value) self.old) }
        ensures old { IfOk result (λ old.
            IsSomeAnd (feature_of self.old id) (λ feature. old ≡ value_in number feature)) }
        ensures given_back { IfErr result (λ back. back ≡ value) }
        ensures unchanged { OnErr result (self.new ≡ self.old) }
        ensures none { OnErr result
            (IsSomeAnd (feature_of self.old id) (λ feature. value_in number feature ≡ None)) }
    {
        let count = self.features.len();
        self.values.note(alloc, count, id, number, &value);
        match self.features.get_mut(&id) {
            Some(feature) => feature.put_value(number, value),
            None => unreachable!(),
        }
    }

    /// Removes the value of a feature in a column, if there is one, and gives it.
    pub fn take_value(&mut self, id: u32, number: u16) -> Option<AttrValue>
        requires { IsSome (feature_of self.old id) }
        ensures taken { IsSomeAnd (feature_of self.old id) (λ feature.
            result ≡ value_in number feature) }
        ensures rest { self.new ≡ change_feature id (without_value number) self.old }
    {
        match self.features.get_mut(&id) {
            Some(feature) => feature.take_value(number),
            None => unreachable!(),
        }
    }

    /// Removes all values from the column of a number, and gives them.
    ///
    /// # Errors
    ///
    /// Where no memory is found, nothing is changed.
    pub(crate) fn take_values(
        &mut self,
        alloc: Global,
        number: u16,
    ) -> Result<ColumnValues, AllocError>
        ensures taken { IfOk result (λ values. values ≡ column_values number self.old) }
        ensures rest { OnOk result (self.new ≡ without_values number self.old) }
        ensures unchanged { OnErr result (self.new ≡ self.old) }
    {
        let ids = ids_with_value(alloc, &self.features, number)?;
        let mut values = Vec::with_capacity(alloc, ids.len())?;
        take_from(&mut self.features, number, ids.as_slice(), &mut values);
        self.values.forget(number);
        Ok(ColumnValues { ids, values })
    }

    /// Puts values into the column of a number, in which no feature has one.
    ///
    /// # Errors
    ///
    /// Where no memory is found, the values are given back and nothing is changed.
    pub(crate) fn put_values(
        &mut self,
        number: u16,
        values: ColumnValues,
    ) -> Result<(), ColumnValues>
        requires there { AllByRecursion (λ id. IsSome (feature_of self.old id)) (keys_of values) }
        requires bare { AllByRecursion (λ feature. value_in number feature ≡ None)
            (values_of self.old.features) }
        ensures put { OnOk result (self.new ≡ with_values number values self.old) }
        ensures given_back { IfErr result (λ back. back ≡ values) }
        ensures unchanged { OnErr result (self.new ≡ self.old) }
    {
        self.values.forget(number);
        let ColumnValues { ids, mut values } = values;
        match put_all(&mut self.features, number, ids.as_slice(), &mut values) {
            Ok(()) => Ok(()),
            Err(_) => Err(ColumnValues { ids, values }),
        }
    }

    /// Changes the feature of an identifier, moves its box in the index, and gives what the change gave.
    fn change_feature<R, F: FnOnce(&mut Feature) -> R>(
        &mut self,
        alloc: Global,
        id: u32,
        change: F,
    ) -> R
        requires { IsSomeAnd (feature_of self.old id) (λ feature.
            FnOnceTakesAtMut F.FnOnce change feature) }
        ensures { (before : FeatureContent) × (after : FeatureContent)
            × (feature_of self.old id ≡ Some before)
            × FnOnceReturnsAtMut F.FnOnce change before result after
            × (self.new ≡ change_feature id (λ _. after) self.old) }
    {
        let count = self.features.len();
        match self.features.get_mut(&id) {
            Some(feature) => {
                let before = extent_of(feature);
                let given = change(feature);
                move_box(alloc, &mut self.index, id, before, extent_of(feature));
                self.values.note_all(alloc, count, id, feature.values());
                given
            }
            None => unreachable!(),
        }
    }

    /// Puts another geometry in the place of a feature's, and gives that one.
    pub(crate) fn exchange_geometry(&mut self, alloc: Global, id: u32, valid: Valid) -> Valid
        requires { IsSome (feature_of self.old id) }
        ensures given { IsSomeAnd (feature_of self.old id) (λ feature.
            result ≡ feature.geometry) }
        ensures put { self.new ≡ change_feature id (with_geometry valid) self.old }
    {
        self.change_feature(alloc, id, |feature| feature.exchange_geometry(valid))
    }

    /// Puts another feature in the place of the one under an identifier, and gives that one. Where memory runs
    /// out, the index is lost, and nothing is refused.
    pub(crate) fn exchange_feature(&mut self, alloc: Global, id: u32, feature: Feature) -> Feature
        requires { IsSome (feature_of self.old id) }
        ensures given { feature_of self.old id ≡ Some result }
        ensures put { self.new ≡ with_feature id feature self.old }
    {
        self.identifiers_rise();
        self.change_feature(alloc, id, |old| std::mem::replace(old, feature))
    }

    // Shows a proof that identifiers rise. It does nothing, so a compiler may leave it out.
    fn identifiers_rise(&self)
        ensures { IsStrictlySortedBy nat_cmp (keys_of self.now.features) }
    {
        let _features = self.features.iter();
    }

    /// Puts a vertex into a feature's geometry, before an index or last.
    pub(crate) fn insert_vertex(
        &mut self,
        alloc: Global,
        id: u32,
        part: u32,
        ring: u32,
        index: u32,
        point: GridPoint,
    ) -> Result<(), Refusal>
        requires { IsSome (feature_of self.old id) }
        ensures inserted { OnOk result (self.new ≡ change_feature id
            (change_geometry (λ g. insert_vertex g part ring index point)) self.old) }
        ensures valid { OnOk result (IsSomeAnd (feature_of self.old id) (λ feature.
            IsOkAnd (insert_vertex feature.geometry part ring index point) IsHeld)) }
        ensures refused { IfErr result (λ refusal.
            IsSomeAnd (feature_of self.old id) (λ feature.
            RefusesChange (insert_vertex feature.geometry part ring index point) refusal)) }
        ensures unchanged { OnErr result (self.new ≡ self.old) }
    {
        self.change_feature(
            alloc,
            id,
            |feature| feature.insert_vertex(alloc, part, ring, index, point),
        )
    }

    /// Moves a vertex of a feature's geometry, and gives the point where it was.
    pub(crate) fn move_vertex(
        &mut self,
        alloc: Global,
        id: u32,
        part: u32,
        ring: u32,
        index: u32,
        point: GridPoint,
    ) -> Result<GridPoint, Refusal>
        requires { IsSome (feature_of self.old id) }
        ensures moved { OnOk result (self.new ≡ change_feature id
            (change_geometry (λ g. move_vertex g part ring index point)) self.old) }
        ensures valid { OnOk result (IsSomeAnd (feature_of self.old id) (λ feature.
            IsOkAnd (move_vertex feature.geometry part ring index point) IsHeld)) }
        ensures given { IfOk result (λ old. IsSomeAnd (feature_of self.old id) (λ feature.
            vertex_of feature.geometry part ring index ≡ Some old)) }
        ensures refused { IfErr result (λ refusal.
            IsSomeAnd (feature_of self.old id) (λ feature.
            RefusesChange (move_vertex feature.geometry part ring index point) refusal)) }
        ensures unchanged { OnErr result (self.new ≡ self.old) }
    {
        self.change_feature(
            alloc,
            id,
            |feature| feature.move_vertex(alloc, part, ring, index, point),
        )
    }

    /// Removes a vertex from a feature's geometry, and gives its point.
    pub(crate) fn remove_vertex(
        &mut self,
        alloc: Global,
        id: u32,
        part: u32,
        ring: u32,
        index: u32,
    ) -> Result<GridPoint, Refusal>
        requires { IsSome (feature_of self.old id) }
        ensures removed { OnOk result (self.new ≡ change_feature id
            (change_geometry (λ g. remove_vertex g part ring index)) self.old) }
        ensures valid { OnOk result (IsSomeAnd (feature_of self.old id) (λ feature.
            IsOkAnd (remove_vertex feature.geometry part ring index) IsHeld)) }
        ensures given { IfOk result (λ old. IsSomeAnd (feature_of self.old id) (λ feature.
            vertex_of feature.geometry part ring index ≡ Some old)) }
        ensures refused { IfErr result (λ refusal.
            IsSomeAnd (feature_of self.old id) (λ feature.
            RefusesChange (remove_vertex feature.geometry part ring index) refusal)) }
        ensures unchanged { OnErr result (self.new ≡ self.old) }
    {
        self.change_feature(
            alloc,
            id,
            |feature| feature.remove_vertex(alloc, part, ring, index),
        )
    }

    /// Puts a vertex in where it is known that the geometry is valid with it. An Err changes nothing.
    pub(crate) fn put_vertex_back(
        &mut self,
        alloc: Global,
        id: u32,
        part: u32,
        ring: u32,
        index: u32,
        point: GridPoint,
    ) -> Result<(), AllocError>
        requires { IsSomeAnd (feature_of self.old id) (λ feature.
            IsOkAnd (insert_vertex feature.geometry part ring index point) IsValid) }
        ensures inserted { OnOk result (self.new ≡ change_feature id
            (change_geometry (λ g. insert_vertex g part ring index point)) self.old) }
        ensures unchanged { OnErr result (self.new ≡ self.old) }
    {
        self.change_feature(
            alloc,
            id,
            |feature| feature.put_vertex_back(alloc, part, ring, index, point),
        )
    }

    /// Moves a vertex where it is known that the geometry is valid then, and gives the point where it was.
    pub(crate) fn move_vertex_back(
        &mut self,
        alloc: Global,
        id: u32,
        part: u32,
        ring: u32,
        index: u32,
        point: GridPoint,
    ) -> GridPoint
        requires { IsSomeAnd (feature_of self.old id) (λ feature.
            IsOkAnd (move_vertex feature.geometry part ring index point) IsValid) }
        ensures moved { self.new ≡ change_feature id
            (change_geometry (λ g. move_vertex g part ring index point)) self.old }
        ensures given { IsSomeAnd (feature_of self.old id) (λ feature.
            vertex_of feature.geometry part ring index ≡ Some result) }
    {
        self.change_feature(
            alloc,
            id,
            |feature| feature.move_vertex_back(part, ring, index, point),
        )
    }

    /// Removes a vertex where it is known that the geometry is valid without it, and gives its point.
    pub(crate) fn take_vertex_back(
        &mut self,
        alloc: Global,
        id: u32,
        part: u32,
        ring: u32,
        index: u32,
    ) -> GridPoint
        requires { IsSomeAnd (feature_of self.old id) (λ feature.
            IsOkAnd (remove_vertex feature.geometry part ring index) IsValid) }
        ensures removed { self.new ≡ change_feature id
            (change_geometry (λ g. remove_vertex g part ring index)) self.old }
        ensures given { IsSomeAnd (feature_of self.old id) (λ feature.
            vertex_of feature.geometry part ring index ≡ Some result) }
    {
        self.change_feature(
            alloc,
            id,
            |feature| feature.take_vertex_back(part, ring, index),
        )
    }
}

/// Puts a feature into a map under an identifier that is free.
///
/// # Errors
///
/// Where no memory is found, the feature is given back and nothing is changed.
fn insert_feature(
    features: &mut BTreeMap<u32, Feature>,
    id: u32,
    feature: Feature,
) -> Result<(), Feature>
    requires { lookup (nat_eq id) features.old.entries ≡ None }
    ensures put { OnOk result (features.new.entries
        ≡ insert_entry nat_cmp features.old.entries id feature) }
    ensures given_back { IfErr result (λ back. back ≡ feature) }
    ensures unchanged { OnErr result (features.new.entries ≡ features.old.entries) }
{
    match features.insert(id, feature) {
        Ok(_) => Ok(()),
        Err(failed) => {
            let (_, feature) = failed.value;
            Err(feature)
        }
    }
}
