//! Features near a geometry, by the layer's index where it has one.

ghost use Rattle.std.specs.Prelude.{◌≡◌, IfOk, IsSome, filter};
ghost use Rattle.std.specs.List.{AllByRecursion};
ghost use Rattle.sf_distance.specs.Reaches.{square_of_reach};
ghost use Rattle.sf_layers.specs.Content.{feature_of, layer_of};
ghost use Rattle.sf_layers.specs.WellFormed.{IsLayer};
ghost use Rattle.sf_near.specs.Answers.{ids_within as ids_within_of, is_within_at};
ghost use Rattle.sf_near.specs.Replies.{IsFoundWithin, IsMeasured};

use super::surroundings::Surroundings;
use sf_distance::{Reach, Square};
use sf_layers::{Layer, Store};
use sf_nearness::square_between;
use sf_query::Refusal;
use sf_validity::Valid;
use std::alloc::{AllocError, Global};

/// The identifiers of the features of a layer that have a point no farther from one of the given geometry than the reach, of all
/// points of the plane that are not in an exterior; rising.
///
/// # Errors
///
/// `NoLayer` exactly where no layer has the name; `Memory` in the place of an answer.
pub fn features_within(
    alloc: Global,
    store: &Store,
    layer: &str,
    reach: Reach,
    given: &Valid,
) -> Result<Vec<u32>, Refusal>
    ensures { IsFoundWithin (layer_of store.now layer.now) (square_of_reach reach) given.now result }
{
    let Some(layer) = store.layer(layer) else {
        return Err(Refusal::NoLayer);
    };
    let around = Surroundings::new(alloc, given, reach)?;
    Ok(ids_within(alloc, layer, &around)?)
}

/// The square of the distance of a feature from the given geometry, in squared grid steps: some points of theirs, of all points of
/// the plane that are not in an exterior, are so far apart, and no two are nearer. It is 0 where they share a point.
///
/// # Errors
///
/// `NoLayer`, then `NoFeature`, exactly where there is none; `Memory` in the place of an answer.
pub fn distance_to(
    alloc: Global,
    store: &Store,
    layer: &str,
    id: u32,
    given: &Valid,
) -> Result<Square, Refusal>
    ensures { IsMeasured (layer_of store.now layer.now) id given.now result }
{
    let Some(layer) = store.layer(layer) else {
        return Err(Refusal::NoLayer);
    };
    let Some(feature) = layer.feature(id) else {
        return Err(Refusal::NoFeature);
    };
    Ok(square_between(alloc, feature.valid(), given)?)
}

/// The identifiers of the features of a layer of a store that are within the reach.
///
/// # Errors
///
/// Out of memory alone.
pub(crate) fn ids_within(
    alloc: Global,
    layer: &Layer,
    around: &Surroundings,
) -> Result<Vec<u32>, AllocError>
    requires { IsLayer layer.now }
    ensures { IfOk result (λ ids. ids.items ≡ ids_within_of layer.now (square_of_reach around.now.reach) around.now.geometry) }
{
    match layer.index() {
        Some(index) => {
            let near = around.near_ids(alloc, index)?;
            ids_among(alloc, layer, near.as_slice(), around)
        }
        None => ids_by_pass(alloc, layer, around),
    }
}

/// Those of the identifiers whose features are within the reach, in their order.
///
/// # Errors
///
/// Out of memory alone.
pub(crate) fn ids_among(
    alloc: Global,
    layer: &Layer,
    near: &[u32],
    around: &Surroundings,
) -> Result<Vec<u32>, AllocError>
    requires { AllByRecursion (λ id. IsSome (feature_of layer.now id)) near.now }
    ensures { IfOk result (λ ids. ids.items ≡ filter (is_within_at layer.now (square_of_reach around.now.reach) around.now.geometry) near.now) }
{
    let mut ids = Vec::new(alloc);
    for id in near {
        let feature = layer.feature(*id).unwrap();
        if around.has_part_of(alloc, feature.valid())? {
            ids.push(*id)?;
        }
    }
    Ok(ids)
}

/// The identifiers of the features within the reach, by one pass over all of them.
///
/// # Errors
///
/// Out of memory alone.
pub(crate) fn ids_by_pass(
    alloc: Global,
    layer: &Layer,
    around: &Surroundings,
) -> Result<Vec<u32>, AllocError>
    ensures { IfOk result (λ ids. ids.items ≡ ids_within_of layer.now (square_of_reach around.now.reach) around.now.geometry) }
{
    let mut ids = Vec::new(alloc);
    for (id, feature) in layer.features() {
        if around.has_part_of(alloc, feature.valid())? {
            ids.push(*id)?;
        }
    }
    Ok(ids)
}
