//! Two features that are as asked, where a rule forbids it.

ghost use Rattle.std.specs.Prelude.{◌≡◌, IfOk, None};
ghost use Rattle.sf_rules.specs.Breaks.{least_from};
ghost use Rattle.sf_rules.specs.Looks.{pairs_behind, pairs_beside, pairs_first, pairs_looked_at, pairs_of_slot, pairs_second, pairs_with};
ghost use Rattle.sf_rules.specs.Rules.{first_of};
ghost use Rattle.sf_layers.specs.WellFormed.{IsLayer};

use super::between::{Between, staying};
use super::breaks::{Break, lesser};
use sf_joins::{ids_asked, ids_asked_behind};
use sf_patches::Slot;
use sf_validity::Valid;
use std::alloc::{AllocError, Global};

/// The least pair of which one was changed.
pub(crate) fn least_pair(
    alloc: Global,
    between: &Between<'_>,
    made: &[Slot],
) -> Result<Option<Break>, AllocError>
    requires first { IsLayer between.now.first.now }
    requires second { IsLayer between.now.second.now }
    ensures { IfOk result (λ found. found ≡ least_from None (pairs_looked_at between.now made.now)) }
{
    let mut least = None;
    for slot in made {
        least = least_of_slot(alloc, between, slot, least)?;
    }
    Ok(least)
}

/// The least of the pairs of what was changed under one identifier, and of what was the least before.
fn least_of_slot(
    alloc: Global,
    between: &Between<'_>,
    slot: &Slot,
    least: Option<Break>,
) -> Result<Option<Break>, AllocError>
    requires first { IsLayer between.now.first.now }
    requires second { IsLayer between.now.second.now }
    ensures { IfOk result (λ found. found ≡ least_from least (pairs_of_slot between.now slot.now)) }
{
    let Slot::State { place, id, .. } = slot else {
        return Ok(least);
    };
    let least = least_first(alloc, between, *place, *id, least)?;
    least_second(alloc, between, *place, *id, least)
}

/// The same with what stands under an identifier of a place, as a feature of the first layer.
fn least_first(
    alloc: Global,
    between: &Between<'_>,
    place: usize,
    id: u32,
    least: Option<Break>,
) -> Result<Option<Break>, AllocError>
    requires { IsLayer between.now.second.now }
    ensures { IfOk result (λ found. found ≡ least_from least (pairs_first between.now place id)) }
{
    if place != between.first_place {
        return Ok(least);
    }
    match staying(between.first, between.leaving, place, id) {
        Some(feature) => least_with(alloc, between, id, feature.valid(), least),
        None => Ok(least),
    }
}

/// The same with what stands there, as a feature of the second layer.
fn least_second(
    alloc: Global,
    between: &Between<'_>,
    place: usize,
    id: u32,
    least: Option<Break>,
) -> Result<Option<Break>, AllocError>
    requires { IsLayer between.now.first.now }
    ensures { IfOk result (λ found. found ≡ least_from least (pairs_second between.now place id)) }
{
    if place != between.second_place {
        return Ok(least);
    }
    match staying(between.second, between.leaving, place, id) {
        Some(feature) => least_beside(alloc, between, id, feature.valid(), least),
        None => Ok(least),
    }
}

/// The least of the pairs with a feature of the first layer, and of what was the least before.
pub(crate) fn least_with(
    alloc: Global,
    between: &Between<'_>,
    id: u32,
    valid: &Valid,
    least: Option<Break>,
) -> Result<Option<Break>, AllocError>
    requires { IsLayer between.now.second.now }
    ensures { IfOk result (λ found. found ≡ least_from least (pairs_with between.now id valid.now)) }
{
    let found = ids_asked(alloc, between.second, &between.converse, valid)?;
    let mut least = least;
    for other in found.as_slice() {
        if between.is_partner(id, *other) {
            least = lesser(
                Break::Pair {
                    first: id,
                    second: *other,
                },
                least,
            );
        }
    }
    Ok(least)
}

/// The first pair of a feature with one behind it that is as asked.
pub(crate) fn first_behind(
    alloc: Global,
    between: &Between<'_>,
    id: u32,
    valid: &Valid,
) -> Result<Option<Break>, AllocError>
    requires { IsLayer between.now.second.now }
    ensures { IfOk result (λ found. found ≡ first_of (pairs_behind between.now id valid.now)) }
{
    let behind = ids_asked_behind(alloc, between.second, &between.converse, valid, id)?;
    let Some(second) = behind.as_slice().first() else {
        return Ok(None);
    };
    Ok(Some(Break::Pair {
        first: id,
        second: *second,
    }))
}

/// The least of the pairs with a feature of the second layer, and of what was the least before.
fn least_beside(
    alloc: Global,
    between: &Between<'_>,
    id: u32,
    valid: &Valid,
    least: Option<Break>,
) -> Result<Option<Break>, AllocError>
    requires { IsLayer between.now.first.now }
    ensures { IfOk result (λ found. found ≡ least_from least (pairs_beside between.now id valid.now)) }
{
    let found = ids_asked(alloc, between.first, &between.ask, valid)?;
    let mut least = least;
    for other in found.as_slice() {
        if between.is_partnered(id, *other) {
            least = lesser(
                Break::Pair {
                    first: *other,
                    second: id,
                },
                least,
            );
        }
    }
    Ok(least)
}
