//! The indexes of a layer by the values of its features. An index is lost where memory runs out, and never in the way of a
//! change: what is lost is made anew.
ghost use Rattle.std.specs.Prelude.{◌≡◌, IfOk, IfSome, IsTrue, None, [], nat_eq};
ghost use Rattle.std.specs.List.{AllByRecursion};
ghost use Rattle.std.specs.Map.{lookup};
ghost use Rattle.sf_features.specs.Values.{same_value};
ghost use Rattle.sf_layers.specs.Found.{is_between};
ghost use Rattle.sf_layers.specs.ValueIndexes.{AreKept, AreListed, AreNoted, IsKnown};

use super::value_index::ValueIndex;
use sf_features::{AttrValue, Feature};
use std::alloc::{AllocError, Global};
use std::collections::BTreeMap;
use std::marker::Model;

/// Indexes by column number. Contracts see them as the pairs of each.
#[derive(Drop)]
pub(crate) struct ValueIndexes {
    columns: BTreeMap<u16, ValueIndex>,
}

impl Model for ValueIndexes {
    ghost use Rattle.sf_layers.specs.ValueIndexes.{Indexes};

    ghost Value = { Indexes };

    ghost view = { λ a. a.columns.entries };
}

impl ValueIndexes {
    /// No index.
    pub(crate) fn new(alloc: Global) -> ValueIndexes
        ensures { result ≡ [] }
    {
        ValueIndexes {
            columns: BTreeMap::new(alloc),
        }
    }

    /// Whether there is an index of the column of a number.
    pub(crate) fn has_column(&self, number: u16) -> bool {
        self.columns.contains_key(&number)
    }

    /// The identifiers of the features with a value in the column of a number, as its index has them; None where it has none, or
    /// where a look at each feature is quicker.
    pub(crate) fn ids_of(
        &self,
        alloc: Global,
        number: u16,
        value: &AttrValue,
    ) -> Result<Option<Vec<u32>>, AllocError>
        ensures { IfOk result (λ found. IfSome found (λ ids.
            AreListed (same_value value.now) number self.now ids.items)) }
    {
        match self.columns.get(&number) {
            Some(index) => index.ids_of(alloc, value),
            None => Ok(None),
        }
    }

    /// The same of those with a value between two ends. Where no end is given, each feature with a value is asked for.
    pub(crate) fn ids_between(
        &self,
        alloc: Global,
        number: u16,
        from: &Option<AttrValue>,
        to: &Option<AttrValue>,
    ) -> Result<Option<Vec<u32>>, AllocError>
        ensures { IfOk result (λ found. IfSome found (λ ids.
            AreListed (is_between from.now to.now) number self.now ids.items)) }
    {
        if from.is_none() && to.is_none() {
            return Ok(None);
        }
        match self.columns.get(&number) {
            Some(index) => index.ids_between(alloc, from, to),
            None => Ok(None),
        }
    }

    /// Makes the index of the column of a number. Where no memory is found, nothing is changed.
    pub(crate) fn make(&mut self, alloc: Global, features: &BTreeMap<u32, Feature>, number: u16)
        requires { AreNoted self.old features.now.entries }
        ensures { AreNoted self.new features.now.entries }
    {
        let Ok(index) = ValueIndex::of(alloc, features, number) else {
            return;
        };
        let _ = self.columns.insert(number, index);
    }

    /// Removes the index of the column of a number.
    pub(crate) fn forget(&mut self, number: u16)
        ensures gone { lookup (nat_eq number) self.new ≡ None }
        ensures kept { AreKept self.old self.new }
    {
        let _ = self.columns.remove(&number);
    }

    /// Adds a feature's value to the index of its column, if there is one. The layer has a count of features: where most of an
    /// index is of values that are there no more, it is given up.
    pub(crate) fn note(
        &mut self,
        alloc: Global,
        count: usize,
        id: u32,
        number: u16,
        value: &AttrValue,
    )
        ensures known { IsKnown self.new id number value.now }
        ensures kept { AreKept self.old self.new }
    {
        if !self.add(alloc, count, id, number, value) {
            self.forget(number);
        }
    }

    // The same, and whether the index is to be kept.
    fn add(&mut self, alloc: Global, count: usize, id: u32, number: u16, value: &AttrValue) -> bool
        ensures known { IsTrue result → IsKnown self.new id number value.now }
        ensures kept { AreKept self.old self.new }
    {
        match self.columns.get_mut(&number) {
            Some(index) => index.note(alloc, count, id, value),
            None => true,
        }
    }

    /// Adds the values of a feature, by column number. Where there is no index, none of them is looked at.
    pub(crate) fn note_all(
        &mut self,
        alloc: Global,
        count: usize,
        id: u32,
        values: &[(u16, AttrValue)],
    )
        ensures known { AllByRecursion (λ entry. IsKnown self.new id entry.0 entry.1) values.now }
        ensures kept { AreKept self.old self.new }
    {
        if self.columns.is_empty() {
            return;
        }
        self.note_each(alloc, count, id, values);
    }

    // The same, one after the other.
    fn note_each(&mut self, alloc: Global, count: usize, id: u32, values: &[(u16, AttrValue)])
        ensures known { AllByRecursion (λ entry. IsKnown self.new id entry.0 entry.1) values.now }
        ensures kept { AreKept self.old self.new }
    {
        for (number, value) in values {
            self.note(alloc, count, id, *number, value);
        }
    }
}
