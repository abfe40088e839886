//! Queries over a layer, by its index where it has one.

ghost use Rattle.std.specs.Prelude.{◌≡◌, IfOk, IsSome, IsTrue, filter, nat_lt};
ghost use Rattle.std.specs.List.{AllByRecursion};
ghost use Rattle.sf_geometry.specs.Envelope.{envelope_of};
ghost use Rattle.sf_rtree.specs.Indexes.{ids_meeting};
ghost use Rattle.sf_valid_rules.specs.Validity.{IsValid};
ghost use Rattle.sf_layers.specs.Boxes.{boxes_of};
ghost use Rattle.sf_layers.specs.Content.{feature_of, layer_of};
ghost use Rattle.sf_layers.specs.WellFormed.{IsLayer};
ghost use Rattle.sf_query.specs.Answers.{IsAnswer, ids_found, is_asked_at, needs_contact};
ghost use Rattle.sf_query.specs.Replies.{IsQueried, IsRelated};

use super::ask::Ask;
use super::found::Found;
use super::given::Given;
use super::refusal::Refusal;
use sf_layers::{Layer, Store};
use sf_relate::Matrix;
use sf_validity::Valid;
use std::alloc::{AllocError, Global};

/// The features of a layer whose matrix with the given geometry is as asked.
///
/// # Errors
///
/// `NoLayer` exactly where no layer has the name; `Memory` in the place of an answer.
pub fn query(
    alloc: Global,
    store: &Store,
    layer: &str,
    ask: &Ask,
    given: &Valid,
) -> Result<Found, Refusal>
    ensures { IsQueried (layer_of store.now layer.now) ask.now given.now result }
{
    let Some(layer) = store.layer(layer) else {
        return Err(Refusal::NoLayer);
    };
    Ok(features_asked(alloc, layer, ask, given)?)
}

/// The matrix of a feature with the given geometry.
///
/// # Errors
///
/// `NoLayer`, then `NoFeature`, exactly where there is none; `Memory` in the place of an answer.
pub fn relate_one(
    alloc: Global,
    store: &Store,
    layer: &str,
    id: u32,
    given: &Valid,
) -> Result<Matrix, Refusal>
    ensures { IsRelated (layer_of store.now layer.now) id given.now result }
{
    let Some(layer) = store.layer(layer) else {
        return Err(Refusal::NoLayer);
    };
    let Some(feature) = layer.feature(id) else {
        return Err(Refusal::NoFeature);
    };
    Ok(Given::new(given).matrix_with(alloc, feature.valid())?)
}

/// The features of a layer of a store whose matrix with the given geometry is as asked.
///
/// # Errors
///
/// Out of memory alone.
pub fn features_asked(
    alloc: Global,
    layer: &Layer,
    ask: &Ask,
    given: &Valid,
) -> Result<Found, AllocError>
    requires { IsLayer layer.now }
    ensures { IfOk result (IsAnswer layer.now ask.now given.now) }
{
    match layer.index() {
        Some(index) if ask.needs_contact() => {
            let given = Given::new(given);
            let near = given.near_ids(alloc, index)?;
            let given = given.prepared_for(alloc, ask, near.len());
            found_among(alloc, layer, near.as_slice(), ask, &given)
        }
        _ => found_by_pass(alloc, layer, ask, given),
    }
}

/// Of the features of a layer whose matrix with the given geometry is as asked, the identifiers above this one, rising. Where the
/// order of two features makes no difference to the ask, each pair of a layer is so asked about once.
///
/// # Errors
///
/// Out of memory alone.
pub fn ids_asked_behind(
    alloc: Global,
    layer: &Layer,
    ask: &Ask,
    given: &Valid,
    id: u32,
) -> Result<Vec<u32>, AllocError>
    requires { IsLayer layer.now }
    ensures { IfOk result (λ ids. ids.items ≡ filter (λ other. nat_lt id other) (ids_found layer.now ask.now given.now)) }
{
    match (layer.index(), ask.needs_contact()) {
        (Some(index), true) => {
            let given = Given::new(given);
            let near = given.near_ids(alloc, index)?;
            let given = given.prepared_for(alloc, ask, near.len());
            found_behind(alloc, layer, near.as_slice(), ask, &given, id)
        }
        _ => {
            let found = found_by_pass(alloc, layer, ask, given)?;
            ids_behind(alloc, found.ids.as_slice(), id)
        }
    }
}

/// The features that answer, where these are the identifiers of all whose boxes meet the given geometry's. No other can, since
/// the ask needs contact.
fn found_among(
    alloc: Global,
    layer: &Layer,
    near: &[u32],
    ask: &Ask,
    given: &Given,
) -> Result<Found, AllocError>
    requires layer { IsLayer layer.now }
    requires valid { IsValid given.now }
    requires near { near.now ≡ ids_meeting (envelope_of given.now) (boxes_of layer.now.features) }
    requires contact { IsTrue (needs_contact ask.now) }
    ensures { IfOk result (IsAnswer layer.now ask.now given.now) }
{
    let ids = ids_among(alloc, layer, near, ask, given)?;
    let looked = near.len();
    Ok(Found { ids, looked })
}

/// Of the features that answer, the identifiers above this one.
fn found_behind(
    alloc: Global,
    layer: &Layer,
    near: &[u32],
    ask: &Ask,
    given: &Given,
    id: u32,
) -> Result<Vec<u32>, AllocError>
    requires layer { IsLayer layer.now }
    requires valid { IsValid given.now }
    requires near { near.now ≡ ids_meeting (envelope_of given.now) (boxes_of layer.now.features) }
    requires contact { IsTrue (needs_contact ask.now) }
    ensures { IfOk result (λ ids. ids.items ≡ filter (λ other. nat_lt id other) (ids_found layer.now ask.now given.now)) }
{
    let behind = ids_behind(alloc, near, id)?;
    ids_among(alloc, layer, behind.as_slice(), ask, given)
}

/// Those of the identifiers whose features are as asked, in their order.
fn ids_among(
    alloc: Global,
    layer: &Layer,
    near: &[u32],
    ask: &Ask,
    given: &Given,
) -> Result<Vec<u32>, AllocError>
    requires { AllByRecursion (λ id. IsSome (feature_of layer.now id)) near.now }
    ensures { IfOk result (λ ids. ids.items ≡ filter (is_asked_at layer.now ask.now given.now) near.now) }
{
    let mut ids = Vec::new(alloc);
    for id in near {
        let feature = layer.feature(*id).unwrap();
        if given.is_asked(alloc, ask, feature.valid())? {
            ids.push(*id)?;
        }
    }
    Ok(ids)
}

/// Those of the identifiers that are above this one, in their order.
fn ids_behind(alloc: Global, ids: &[u32], id: u32) -> Result<Vec<u32>, AllocError>
    ensures { IfOk result (λ behind. behind.items ≡ filter (λ other. nat_lt id other) ids.now) }
{
    let mut behind = Vec::with_capacity(alloc, ids.len())?;
    for other in ids {
        if id < *other {
            behind.push(*other)?;
        }
    }
    Ok(behind)
}

/// The features that answer, by one pass over all of them. Those whose boxes don't meet the given
/// geometry's are passed over where the ask needs contact.
fn found_by_pass(
    alloc: Global,
    layer: &Layer,
    ask: &Ask,
    given: &Valid,
) -> Result<Found, AllocError>
    requires layer { IsLayer layer.now }
    ensures { IfOk result (IsAnswer layer.now ask.now given.now) }
{
    layer.has_few_features();
    let given = Given::new(given).prepared_for(alloc, ask, layer.feature_count());
    let needs_contact = ask.needs_contact();
    let mut ids = Vec::new(alloc);
    let mut looked = 0;
    for (id, feature) in layer.features() {
        let valid = feature.valid();
        if given.passes_over(valid, needs_contact) {
            continue;
        }
        looked += 1;
        if given.is_asked_beside(alloc, ask, valid)? {
            ids.push(*id)?;
        }
    }
    Ok(Found { ids, looked })
}
