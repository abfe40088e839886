//! Whether a rule holds of all features.

ghost use Rattle.std.specs.Prelude.{◌≡◌, [], IfOk, None, flat_map};
ghost use Rattle.sf_layers.specs.WellFormed.{IsLayer};
ghost use Rattle.sf_rules.specs.Rules.{break_between, break_of, break_of_values, first_of};
ghost use Rattle.sf_rules.specs.Looks.{IsMutual, alone_of_entry, pairs_of_entry};
ghost use Rattle.sf_rules.specs.Underway.{IsBetweenOrMissing};

use super::alone::least_if_alone;
use super::between::Between;
use super::breaks::Break;
use super::column::{column_of, first_in_column};
use super::leaving::Leaving;
use super::pairs::{first_behind, least_with};
use super::rule::{Form, LayerRule, Rule, Says, ValueRule};
use sf_joins::converse_pair;
use sf_layers::Store;
use std::alloc::{AllocError, Global};

/// What breaks a rule first, of all features: the least pair, or the least feature without a partner or a value. It is None where
/// the rule holds, or a layer or column of it is not there.
///
/// # Errors
///
/// Out of memory alone.
pub fn first_break(alloc: Global, store: &Store, rule: &Rule) -> Result<Option<Break>, AllocError>
    ensures { IfOk result (λ found. found ≡ break_of store.now rule.now) }
{
    let leaving = Leaving::none(alloc);
    first_break_of(alloc, store, rule, &leaving)
}

/// The same, where no feature leaves.
fn first_break_of(
    alloc: Global,
    store: &Store,
    rule: &Rule,
    leaving: &Leaving<'_>,
) -> Result<Option<Break>, AllocError>
    requires { leaving.now ≡ [] }
    ensures { IfOk result (λ found. found ≡ break_of store.now rule.now) }
{
    match &rule.says {
        Says::OfLayers(rule) => first_between(alloc, store, rule, leaving),
        Says::OfValues(rule) => first_of_values(alloc, store, rule, leaving),
    }
}

/// The same of a rule on the values in a column.
fn first_of_values(
    alloc: Global,
    store: &Store,
    rule: &ValueRule,
    leaving: &Leaving<'_>,
) -> Result<Option<Break>, AllocError>
    ensures { IfOk result (λ found. found ≡ break_of_values store.now rule.now) }
{
    let Some(column) = column_of(store, rule, leaving) else {
        return Ok(None);
    };
    first_in_column(alloc, &rule.demand, &column)
}

/// The same of a rule between layers.
fn first_between(
    alloc: Global,
    store: &Store,
    rule: &LayerRule,
    leaving: &Leaving<'_>,
) -> Result<Option<Break>, AllocError>
    requires { leaving.now ≡ [] }
    ensures { IfOk result (λ found. found ≡ break_between store.now rule.now) }
{
    let Some(between) = layers_of(store, rule, leaving) else {
        return Ok(None);
    };
    match rule.form {
        Form::Never => {
            if between.is_mutual() {
                first_mutual_pair(alloc, &between)
            } else {
                first_pair(alloc, &between)
            }
        }
        Form::Each => first_alone(alloc, &between),
    }
}

/// The two layers of a rule, or None where one is not there.
pub(crate) fn layers_of<'a>(
    store: &'a Store,
    rule: &LayerRule,
    leaving: &'a Leaving<'a>,
) -> Option<Between<'a>>
    ensures { IsBetweenOrMissing store.now rule.now leaving.now result }
{
    let Some(first) = store.layer(rule.first.as_str()) else {
        return None;
    };
    let Some(first_place) = store.place(rule.first.as_str()) else {
        return None;
    };
    let Some(second) = store.layer(rule.second.as_str()) else {
        return None;
    };
    let Some(second_place) = store.place(rule.second.as_str()) else {
        return None;
    };
    let one = rule.first.as_str() == rule.second.as_str();
    let converse = converse_pair(&rule.ask);
    Some(Between {
        first,
        first_place,
        second,
        second_place,
        one,
        ask: rule.ask,
        converse,
        leaving,
    })
}

/// The first pair of two layers.
fn first_pair(alloc: Global, between: &Between<'_>) -> Result<Option<Break>, AllocError>
    requires { IsLayer between.now.second.now }
    ensures { IfOk result (λ found. found ≡ first_of
        (flat_map (pairs_of_entry between.now) between.now.first.now.features)) }
{
    for (id, feature) in between.first.features() {
        let least = least_with(alloc, between, *id, feature.valid(), None)?;
        if least.is_some() {
            return Ok(least);
        }
    }
    Ok(None)
}

/// The first pair of a layer with itself, where a pair is as asked from either side. So each is asked for once, from the feature
/// that comes first.
fn first_mutual_pair(alloc: Global, between: &Between<'_>) -> Result<Option<Break>, AllocError>
    requires { IsMutual between.now }
    ensures { IfOk result (λ found. found ≡ first_of
        (flat_map (pairs_of_entry between.now) between.now.first.now.features)) }
{
    for (id, feature) in between.first.features() {
        let first = first_behind(alloc, between, *id, feature.valid())?;
        if first.is_some() {
            return Ok(first);
        }
    }
    Ok(None)
}

/// The first feature of the first layer that has no partner.
fn first_alone(alloc: Global, between: &Between<'_>) -> Result<Option<Break>, AllocError>
    requires { IsLayer between.now.second.now }
    ensures { IfOk result (λ found. found ≡ first_of
        (flat_map (alone_of_entry between.now) between.now.first.now.features)) }
{
    for (id, feature) in between.first.features() {
        let least = least_if_alone(alloc, between, *id, feature, None)?;
        if least.is_some() {
            return Ok(least);
        }
    }
    Ok(None)
}
