//! A feature that has no other which is as asked with it, where a rule demands one.

ghost use Rattle.std.specs.Prelude.{◌≡◌, IfOk, None, Some, flat_map, option_copied};
ghost use Rattle.sf_rules.specs.Breaks.{least_from};
ghost use Rattle.sf_rules.specs.Looks.{alone_at, alone_first, alone_if, alone_looked_at, alone_of_leaving, alone_of_slot, alone_second, has_partner as has_partner_of, is_partner, partnered};
ghost use Rattle.std.specs.List.{list_any};
ghost use Rattle.sf_layers.specs.WellFormed.{IsLayer};

use super::between::{Between, staying};
use super::breaks::{Break, lesser};
use sf_joins::ids_asked;
use sf_layers::Feature;
use sf_patches::Slot;
use sf_validity::Valid;
use std::alloc::{AllocError, Global};

/// The least feature of the first layer that has no partner, of those that were changed, or had one that was.
pub(crate) fn least_alone(
    alloc: Global,
    between: &Between<'_>,
    made: &[Slot],
) -> Result<Option<Break>, AllocError>
    requires first { IsLayer between.now.first.now }
    requires second { IsLayer between.now.second.now }
    ensures { IfOk result (λ found. found ≡ least_from None (alone_looked_at between.now made.now)) }
{
    let mut least = None;
    for slot in made {
        least = least_of_slot(alloc, between, slot, least)?;
    }
    for slot in between.leaving.slots() {
        least = least_of_leaving(alloc, between, slot, least)?;
    }
    Ok(least)
}

/// The least of what was changed under one identifier, and of what was the least before.
fn least_of_slot(
    alloc: Global,
    between: &Between<'_>,
    slot: &Slot,
    least: Option<Break>,
) -> Result<Option<Break>, AllocError>
    requires first { IsLayer between.now.first.now }
    requires second { IsLayer between.now.second.now }
    ensures { IfOk result (λ found. found ≡ least_from least (alone_of_slot between.now slot.now)) }
{
    let Slot::State { place, id, state } = slot else {
        return Ok(least);
    };
    let least = least_first(alloc, between, *place, *id, least)?;
    least_second(alloc, between, *place, state.as_ref(), least)
}

/// The same beside a feature that is still to be removed.
fn least_of_leaving(
    alloc: Global,
    between: &Between<'_>,
    slot: &Slot,
    least: Option<Break>,
) -> Result<Option<Break>, AllocError>
    requires first { IsLayer between.now.first.now }
    requires second { IsLayer between.now.second.now }
    ensures { IfOk result (λ found. found ≡ least_from least (alone_of_leaving between.now slot.now)) }
{
    let Slot::State { place, id, .. } = slot else {
        return Ok(least);
    };
    least_second(alloc, between, *place, between.second.feature(*id), least)
}

/// The same of a feature of the first layer, if the place is that layer's.
fn least_first(
    alloc: Global,
    between: &Between<'_>,
    place: usize,
    id: u32,
    least: Option<Break>,
) -> Result<Option<Break>, AllocError>
    requires { IsLayer between.now.second.now }
    ensures { IfOk result (λ found. found ≡ least_from least (alone_first between.now place id)) }
{
    if place != between.first_place {
        return Ok(least);
    }
    least_at(alloc, between, id, least)
}

/// The same of the features that are as asked with one of the second layer, if the place is that layer's.
fn least_second(
    alloc: Global,
    between: &Between<'_>,
    place: usize,
    feature: Option<&Feature>,
    least: Option<Break>,
) -> Result<Option<Break>, AllocError>
    requires first { IsLayer between.now.first.now }
    requires second { IsLayer between.now.second.now }
    ensures { IfOk result (λ found. found ≡ least_from least
        (alone_second between.now place (option_copied feature.entry))) }
{
    if place != between.second_place {
        return Ok(least);
    }
    match feature {
        Some(feature) => least_beside(alloc, between, feature.valid(), least),
        None => Ok(least),
    }
}

/// The same of the features that are as asked with a geometry of the second layer.
fn least_beside(
    alloc: Global,
    between: &Between<'_>,
    valid: &Valid,
    least: Option<Break>,
) -> Result<Option<Break>, AllocError>
    requires first { IsLayer between.now.first.now }
    requires second { IsLayer between.now.second.now }
    ensures { IfOk result (λ found. found ≡ least_from least
        (flat_map (alone_at between.now) (partnered between.now valid.now))) }
{
    let found = ids_asked(alloc, between.first, &between.ask, valid)?;
    let mut least = least;
    for id in found.as_slice() {
        least = least_at(alloc, between, *id, least)?;
    }
    Ok(least)
}

/// The same of the feature of the first layer that will stand under an identifier.
fn least_at(
    alloc: Global,
    between: &Between<'_>,
    id: u32,
    least: Option<Break>,
) -> Result<Option<Break>, AllocError>
    requires { IsLayer between.now.second.now }
    ensures { IfOk result (λ found. found ≡ least_from least (alone_at between.now id)) }
{
    match staying(between.first, between.leaving, between.first_place, id) {
        Some(feature) => least_if_alone(alloc, between, id, feature, least),
        None => Ok(least),
    }
}

/// The same of a feature of the first layer.
pub(crate) fn least_if_alone(
    alloc: Global,
    between: &Between<'_>,
    id: u32,
    feature: &Feature,
    least: Option<Break>,
) -> Result<Option<Break>, AllocError>
    requires { IsLayer between.now.second.now }
    ensures { IfOk result (λ found. found ≡ least_from least (alone_if between.now id (Some feature.now))) }
{
    if has_partner(alloc, between, id, feature.valid())? {
        return Ok(least);
    }
    Ok(lesser(Break::Alone { id }, least))
}

/// Whether a feature of the first layer will have one of the second that is as asked with it.
fn has_partner(
    alloc: Global,
    between: &Between<'_>,
    id: u32,
    valid: &Valid,
) -> Result<bool, AllocError>
    requires { IsLayer between.now.second.now }
    ensures { IfOk result (λ has. has ≡ has_partner_of between.now id valid.now) }
{
    let found = ids_asked(alloc, between.second, &between.converse, valid)?;
    Ok(is_any_partner(between, id, found.as_slice()))
}

/// Whether one of these features of the second layer is a partner.
fn is_any_partner(between: &Between<'_>, id: u32, others: &[u32]) -> bool
    ensures { result ≡ list_any (is_partner between.now id) others.now }
{
    others.iter().any(|other| between.is_partner(id, *other))
}
