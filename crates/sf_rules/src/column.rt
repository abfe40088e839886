//! What breaks a rule on the values in a column: two features that have the same value, or one that has none.

ghost use Rattle.std.specs.Prelude.{◌≡◌, IfOk, None, Some, filter, map, option_copied};
ghost use Rattle.std.specs.Map.{keys_of};
ghost use Rattle.sf_layers.specs.WellFormed.{IsLayer};
ghost use Rattle.sf_rules.specs.Breaks.{least_from};
ghost use Rattle.sf_rules.specs.ColumnLooks.{IsInColumnOrMissing, double_of, doubles_beside, is_other as is_other_of, values_at, values_beside, values_looked_at, values_of_slot, values_of_some, wrong_by};
ghost use Rattle.sf_rules.specs.Rules.{alone_break, breaks_in, first_of, has_wrong};

use super::between::staying;
use super::breaks::{Break, lesser};
use super::doubles::first_double_of_all;
use super::leaving::Leaving;
use super::rule::{Demand, Rule, Says, ValueRule};
use sf_layers::{AttrValue, Feature, Layer, Store};
use sf_patches::Slot;
use std::alloc::{AllocError, Global};

/// A column that a rule is about, its layer, and the features that are still to be removed.
#[derive(Drop)]
pub(crate) struct InColumn<'a> {
    pub(crate) layer: &'a Layer,
    /// The place of the layer in the drawing order.
    pub(crate) place: usize,
    /// The number of the column.
    pub(crate) number: u16,
    pub(crate) leaving: &'a Leaving<'a>,
}

impl<'a> InColumn<'a> {
    /// Whether this is another feature of the layer, and stays.
    fn is_other(&self, id: u32, other: u32) -> bool
        ensures { result ≡ is_other_of self.now id other }
    {
        id != other && !self.leaving.has(self.place, other)
    }
}

/// The column of a rule, or None where its layer or the column is not there.
pub(crate) fn column_of<'a>(
    store: &'a Store,
    rule: &ValueRule,
    leaving: &'a Leaving<'a>,
) -> Option<InColumn<'a>>
    ensures { IsInColumnOrMissing store.now rule.now leaving.now result }
{
    let Some(layer) = store.layer(rule.layer.as_str()) else {
        return None;
    };
    let Some(place) = store.place(rule.layer.as_str()) else {
        return None;
    };
    let Some(column) = layer.column(rule.column.as_str()) else {
        return None;
    };
    Some(InColumn {
        layer,
        place,
        number: column.number,
        leaving,
    })
}

/// What breaks the rule first, of all features.
pub(crate) fn first_in_column(
    alloc: Global,
    demand: &Demand,
    column: &InColumn<'_>,
) -> Result<Option<Break>, AllocError>
    requires { IsLayer column.now.layer.now }
    ensures { IfOk result (λ found. found ≡ first_of
        (breaks_in demand.now column.now.number column.now.layer.now)) }
{
    match demand {
        Demand::Unique => first_double_of_all(alloc, column.layer, column.number),
        _ => Ok(first_wrong_of_all(demand, column.layer, column.number)),
    }
}

/// The first feature that breaks the rule by itself.
fn first_wrong_of_all(demand: &Demand, layer: &Layer, number: u16) -> Option<Break>
    ensures { result ≡ first_of
        (map alone_break (keys_of (filter (has_wrong demand.now number) layer.now.features))) }
{
    for (id, feature) in layer.features() {
        let first = first_wrong(demand, *id, feature.value(number));
        if first.is_some() {
            return first;
        }
    }
    None
}

/// A feature by itself, where what it has breaks the rule.
fn first_wrong(demand: &Demand, id: u32, found: Option<&AttrValue>) -> Option<Break>
    ensures { result ≡ first_of (wrong_by demand.now id (option_copied found.entry)) }
{
    if demand.is_wrong(found) {
        Some(Break::Alone { id })
    } else {
        None
    }
}

/// The least break of the features that were changed.
pub(crate) fn least_in_column(
    alloc: Global,
    demand: &Demand,
    column: &InColumn<'_>,
    made: &[Slot],
) -> Result<Option<Break>, AllocError>
    ensures { IfOk result (λ found. found ≡ least_from None
        (values_looked_at demand.now column.now made.now)) }
{
    let mut least = None;
    for slot in made {
        least = least_of_slot(alloc, demand, column, slot, least)?;
    }
    Ok(least)
}

/// The least of the breaks of what was changed under one identifier, and of what was the least before.
fn least_of_slot(
    alloc: Global,
    demand: &Demand,
    column: &InColumn<'_>,
    slot: &Slot,
    least: Option<Break>,
) -> Result<Option<Break>, AllocError>
    ensures { IfOk result (λ found. found ≡ least_from least
        (values_of_slot demand.now column.now slot.now)) }
{
    let Slot::State { place, id, .. } = slot else {
        return Ok(least);
    };
    least_at(alloc, demand, column, *place, *id, least)
}

/// The same of what stands under an identifier of a place.
pub(crate) fn least_at(
    alloc: Global,
    demand: &Demand,
    column: &InColumn<'_>,
    place: usize,
    id: u32,
    least: Option<Break>,
) -> Result<Option<Break>, AllocError>
    ensures { IfOk result (λ found. found ≡ least_from least
        (values_at demand.now column.now place id)) }
{
    if place != column.place {
        return Ok(least);
    }
    match staying(column.layer, column.leaving, place, id) {
        Some(feature) => least_of(alloc, demand, column, id, feature, least),
        None => Ok(least),
    }
}

/// The same of a feature.
fn least_of(
    alloc: Global,
    demand: &Demand,
    column: &InColumn<'_>,
    id: u32,
    feature: &Feature,
    least: Option<Break>,
) -> Result<Option<Break>, AllocError>
    ensures { IfOk result (λ found. found ≡ least_from least
        (values_of_some demand.now column.now id (Some feature.now))) }
{
    least_by_value(
        alloc,
        demand,
        column,
        id,
        feature.value(column.number),
        least,
    )
}

/// The same of a feature with this value, or with none.
fn least_by_value(
    alloc: Global,
    demand: &Demand,
    column: &InColumn<'_>,
    id: u32,
    value: Option<&AttrValue>,
    least: Option<Break>,
) -> Result<Option<Break>, AllocError>
    ensures { IfOk result (λ found. found ≡ least_from least
        (values_beside demand.now column.now id (option_copied value.entry))) }
{
    match demand {
        Demand::Unique => least_double(alloc, column, id, value, least),
        _ => Ok(least_wrong(demand, id, value, least)),
    }
}

/// The least of the pairs of a feature with others that have the same value, and of what was the least before.
fn least_double(
    alloc: Global,
    column: &InColumn<'_>,
    id: u32,
    value: Option<&AttrValue>,
    least: Option<Break>,
) -> Result<Option<Break>, AllocError>
    ensures { IfOk result (λ found. found ≡ least_from least
        (doubles_beside column.now id (option_copied value.entry))) }
{
    let Some(value) = value else {
        return Ok(least);
    };
    let ids = column.layer.ids_with_value(alloc, column.number, value)?;
    Ok(least_with(column, id, ids.as_slice(), least))
}

/// The least of the pairs of an identifier with these, and of what was the least before.
fn least_with(column: &InColumn<'_>, id: u32, others: &[u32], least: Option<Break>) -> Option<Break>
    ensures { result ≡ least_from least
        (map (double_of id) (filter (is_other_of column.now id) others.now)) }
{
    let mut least = least;
    for other in others {
        if column.is_other(id, *other) {
            least = lesser(double(id, *other), least);
        }
    }
    least
}

/// Two features that have the same value, that with the lesser identifier first.
fn double(id: u32, other: u32) -> Break
    ensures { result ≡ double_of id other }
{
    if id < other {
        Break::Pair {
            first: id,
            second: other,
        }
    } else {
        Break::Pair {
            first: other,
            second: id,
        }
    }
}

/// The lesser of a feature by itself, where what it has breaks the rule, and of what was the least before.
fn least_wrong(
    demand: &Demand,
    id: u32,
    found: Option<&AttrValue>,
    least: Option<Break>,
) -> Option<Break>
    ensures { result ≡ least_from least (wrong_by demand.now id (option_copied found.entry)) }
{
    if demand.is_wrong(found) {
        lesser(Break::Alone { id }, least)
    } else {
        least
    }
}

/// Makes the index that a rule looks into, where there is none: that by value of a column whose values are to be unique. Where no
/// memory is found, features are looked at one by one.
pub(crate) fn make_index(alloc: Global, store: &mut Store, rule: &Rule)
    ensures { store.new ≡ store.old }
{
    let Some((place, number)) = unique_column(store, rule) else {
        return;
    };
    store.index_values(alloc, place, number);
}

/// The place of the layer and the number of the column whose values are to be unique, where a rule says so and both are there.
fn unique_column(store: &Store, rule: &Rule) -> Option<(usize, u16)> {
    let Says::OfValues(rule) = &rule.says else {
        return None;
    };
    let Demand::Unique = rule.demand else {
        return None;
    };
    let place = store.place(rule.layer.as_str())?;
    let column = store
        .layer(rule.layer.as_str())?
        .column(rule.column.as_str())?;
    Some((place, column.number))
}
