//! The index of one column.
ghost use Rattle.std.specs.Prelude.{◌≡◌, ℕ, IfOk, IfSome, IsTrue, OnOk, filter, map};
ghost use Rattle.std.specs.BTreeMap.Range.{IsLeBy, IsLtBy, range_contains};
ghost use Rattle.std.specs.List.Sorted.{IsStrictlySortedBy};
ghost use Rattle.std.specs.Ordering.{nat_cmp};
ghost use Rattle.std.specs.List.{Contains};
ghost use Rattle.std.specs.Bound.{IsForward};
ghost use Rattle.sf_features.specs.Values.{same_value};
ghost use Rattle.sf_layers.specs.Found.{are_apart as are_apart_of, is_between};
ghost use Rattle.sf_layers.specs.ValueIndexes.{Grows, HasAll, HasPair, HasRun, HasThose, Lists, end_at, key_cmp, start_at};

use super::value_key::ValueKey;
use sf_features::{AttrValue, Feature};
use std::alloc::{AllocError, Global};
use std::collections::{BTreeMap, BTreeSet};
use std::marker::Model;
use std::ops::Bound;

/// The values of a column with the identifiers of their features, in order of value and then of identifier. Pairs of values
/// that were there once may be among them: who finds a pair looks at the feature. Contracts see an index as its pairs.
#[derive(Drop)]
pub(crate) struct ValueIndex {
    pairs: BTreeSet<ValueKey>,
}

impl Model for ValueIndex {
    ghost use Rattle.sf_layers.specs.ValueIndexes.{Pairs};

    ghost Value = { Pairs };

    ghost view = { λ a. a.pairs.keys };
}

impl ValueIndex {
    /// The index of the column of a number.
    pub(crate) fn of(
        alloc: Global,
        features: &BTreeMap<u32, Feature>,
        number: u16,
    ) -> Result<ValueIndex, AllocError>
        ensures { IfOk result (λ index. HasAll number index features.now.entries) }
    {
        let mut index = ValueIndex {
            pairs: BTreeSet::new(alloc),
        };
        for (id, feature) in features.iter() {
            index.add_from(alloc, *id, feature, number)?;
        }
        Ok(index)
    }

    // Adds the pair of a feature's value in the column of a number.
    fn add_from(
        &mut self,
        alloc: Global,
        id: u32,
        feature: &Feature,
        number: u16,
    ) -> Result<(), AllocError>
        ensures has { OnOk result (HasThose number self.new id feature.now) }
        ensures kept { Grows self.old self.new }
    {
        // Its values rise by column number.
        let _ = feature.valid();
        match feature.value(number) {
            Some(value) => self.add(alloc, id, value),
            None => Ok(()),
        }
    }

    // Adds a pair.
    fn add(&mut self, alloc: Global, id: u32, value: &AttrValue) -> Result<(), AllocError>
        ensures has { OnOk result (HasPair self.new value.now id) }
        ensures kept { Grows self.old self.new }
    {
        let pair = ValueKey::of(alloc, value, id)?;
        match self.pairs.insert(pair) {
            Ok(_) => Ok(()),
            Err(_) => Err(AllocError),
        }
    }

    /// Adds a pair, and says whether the index is to be kept: not where memory is out, nor where most of its pairs are of
    /// values that are there no more, as its layer has a count of features.
    pub(crate) fn note(&mut self, alloc: Global, count: usize, id: u32, value: &AttrValue) -> bool
        ensures has { IsTrue result → HasPair self.new value.now id }
        ensures kept { Grows self.old self.new }
    {
        match self.add(alloc, id, value) {
            Ok(()) => self.pairs.len() / 2 <= count.saturating_add(512),
            Err(_) => false,
        }
    }

    /// The identifiers of the pairs with a value, and maybe others, rising; None where a look at each feature is quicker.
    pub(crate) fn ids_of(
        &self,
        alloc: Global,
        value: &AttrValue,
    ) -> Result<Option<Vec<u32>>, AllocError>
        ensures { IfOk result (λ found. IfSome found (λ ids.
            Lists (same_value value.now) self.now ids.items)) }
    {
        let start = ValueKey::of(alloc, value, 0)?;
        let end = ValueKey::of(alloc, value, u32::MAX)?;
        self.ids_in(alloc, Bound::Included(start), Bound::Included(end))
    }

    /// The identifiers of the pairs whose value is between two ends, rising; None where a look at each feature is quicker.
    pub(crate) fn ids_between(
        &self,
        alloc: Global,
        from: &Option<AttrValue>,
        to: &Option<AttrValue>,
    ) -> Result<Option<Vec<u32>>, AllocError>
        ensures { IfOk result (λ found. IfSome found (λ ids.
            Lists (is_between from.now to.now) self.now ids.items)) }
    {
        if are_apart(from, to) {
            return Ok(Some(Vec::new(alloc)));
        }
        let start = start_of(alloc, from)?;
        let end = end_of(alloc, to)?;
        self.ids_in(alloc, start, end)
    }

    // The identifiers of the pairs between two bounds, rising, unless they are many.
    fn ids_in(
        &self,
        alloc: Global,
        start: Bound<ValueKey>,
        end: Bound<ValueKey>,
    ) -> Result<Option<Vec<u32>>, AllocError>
        requires { IsForward (IsLeBy key_cmp) (IsLtBy key_cmp) start end }
        ensures { IfOk result (λ found. IfSome found (λ ids.
            HasRun start end self.now ids.items)) }
    {
        match self.run(alloc, start, end)? {
            Some(mut ids) => {
                order(&mut ids);
                Ok(Some(ids))
            }
            None => Ok(None),
        }
    }

    // The identifiers of the pairs between two bounds, in the order of the pairs, unless there is more than one for sixteen
    // pairs. To find these features takes longer then than to look at each.
    fn run(
        &self,
        alloc: Global,
        start: Bound<ValueKey>,
        end: Bound<ValueKey>,
    ) -> Result<Option<Vec<u32>>, AllocError>
        requires { IsForward (IsLeBy key_cmp) (IsLtBy key_cmp) start end }
        ensures { IfOk result (λ found. IfSome found (λ ids. ids.items
            ≡ map (λ pair. pair.id) (filter (range_contains key_cmp start end) self.now))) }
    {
        let most = self.pairs.len() / 16 + 32;
        let mut ids = Vec::new(alloc);
        for pair in self.pairs.range((start, end)) {
            if ids.len() > most {
                return Ok(None);
            }
            ids.push(pair.id)?;
        }
        Ok(Some(ids))
    }
}

// The bound that the first of these pairs is at or behind.
fn start_of(alloc: Global, from: &Option<AttrValue>) -> Result<Bound<ValueKey>, AllocError>
    ensures { IfOk result (λ start. start ≡ start_at from.now) }
{
    match from {
        Some(value) => Ok(Bound::Included(ValueKey::of(alloc, value, 0)?)),
        None => Ok(Bound::Unbounded),
    }
}

// The bound that the last of them is at or before.
fn end_of(alloc: Global, to: &Option<AttrValue>) -> Result<Bound<ValueKey>, AllocError>
    ensures { IfOk result (λ end. end ≡ end_at to.now) }
{
    match to {
        Some(value) => Ok(Bound::Included(ValueKey::of(alloc, value, u32::MAX)?)),
        None => Ok(Bound::Unbounded),
    }
}

// Whether the first of two ends is behind the second.
pub(crate) fn are_apart(from: &Option<AttrValue>, to: &Option<AttrValue>) -> bool
    ensures { result ≡ are_apart_of from.now to.now }
{
    match (from, to) {
        (Some(from), Some(to)) => from.compare(to).is_gt(),
        _ => false,
    }
}

// Puts identifiers in order, each once.
fn order(ids: &mut Vec<u32>)
    ensures rising { IsStrictlySortedBy nat_cmp ids.new.items }
    ensures kept { (id : ℕ) → Contains ids.old.items id → Contains ids.new.items id }
{
    ids.sort_unstable();
    ids.dedup();
}
