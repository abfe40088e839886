//! Features that are linked with given ones.

ghost use Rattle.std.specs.Prelude.{◌≡◌, IfOk, IfSome, bytes_eq, is_some};
ghost use Rattle.std.specs.List.{list_all};
ghost use Rattle.sf_layers.specs.Content.{feature_of, layer_of};
ghost use Rattle.sf_layers.specs.WellFormed.{IsLayer};
ghost use Rattle.sf_reach.specs.Replies.{AreReached, AreThere, IsReach, IsReachOf, IsReachUntil};

use super::chains::{Chains, found_from};
use super::until::Until;
use sf_layers::{Layer, Store};
use sf_query::{Ask, Refusal};
use std::alloc::{AllocError, Global};

/// The identifiers of the features of a layer that chains lead to from the given ones, rising. In a chain the matrix of each
/// feature with the next is as asked. The given ones are listed too. It costs one query for each feature that is listed, and memory for
/// their identifiers.
///
/// # Errors
///
/// `NoLayer` exactly where no layer has the name, then `NoFeature` exactly where one of the given identifiers is none of the layer;
/// `Memory` in the place of an answer.
pub fn reached(
    alloc: Global,
    store: &Store,
    layer: &str,
    ask: &Ask,
    given: &[u32],
) -> Result<Vec<u32>, Refusal>
    ensures { IsReach (layer_of store.now layer.now) ask.now given.now result }
{
    let Some(layer) = store.layer(layer) else {
        return Err(Refusal::NoLayer);
    };
    let chains = Chains {
        layer,
        ask: *ask,
        until: None,
    };
    answer(alloc, &chains, given)
}

/// The same, where a feature that is as asked with a distinct one of a second layer is listed and ends its chains, a given one too.
/// The second layer may be the first one: features are distinct then where their identifiers differ. It costs at most two queries for
/// each feature that is listed.
///
/// # Errors
///
/// `NoLayer` exactly where no layer has the one name or the other, then as with `reached`.
pub fn reached_until(
    alloc: Global,
    store: &Store,
    layer: &str,
    ask: &Ask,
    until: &str,
    end_ask: &Ask,
    given: &[u32],
) -> Result<Vec<u32>, Refusal>
    ensures { IsReachUntil (bytes_eq layer.now until.now) (layer_of store.now layer.now) ask.now
        (layer_of store.now until.now) end_ask.now given.now result }
{
    let is_own = layer == until;
    let Some(layer) = store.layer(layer) else {
        return Err(Refusal::NoLayer);
    };
    let Some(end_layer) = store.layer(until) else {
        return Err(Refusal::NoLayer);
    };
    let chains = Chains {
        layer,
        ask: *ask,
        until: Some(Until::new(end_layer, *end_ask, is_own)),
    };
    answer(alloc, &chains, given)
}

/// What the calls answer once the layers are found.
///
/// # Errors
///
/// `NoFeature` exactly where one of the given identifiers is none of the layer; `Memory` in the place of an answer.
fn answer(alloc: Global, chains: &Chains<'_>, given: &[u32]) -> Result<Vec<u32>, Refusal>
    requires layer { IsLayer chains.now.layer.now }
    requires until { IfSome chains.now.until (λ stop. IsLayer stop.layer) }
    ensures { IsReachOf chains.now.layer.now chains.now.ask chains.now.until given.now result }
{
    if !are_there(chains.layer, given) {
        return Err(Refusal::NoFeature);
    }
    Ok(rising_from(alloc, chains, given)?)
}

/// Whether all the identifiers are of features of the layer.
fn are_there(layer: &Layer, ids: &[u32]) -> bool
    ensures { result ≡ list_all (λ id. is_some (feature_of layer.now id)) ids.now }
{
    ids.iter().all(|id| layer.feature(*id).is_some())
}

/// The identifiers of the features that chains lead to, rising.
///
/// # Errors
///
/// Out of memory alone.
fn rising_from(alloc: Global, chains: &Chains<'_>, given: &[u32]) -> Result<Vec<u32>, AllocError>
    requires layer { IsLayer chains.now.layer.now }
    requires until { IfSome chains.now.until (λ stop. IsLayer stop.layer) }
    requires there { AreThere chains.now.layer.now given.now }
    ensures { IfOk result (λ ids. AreReached chains.now.layer.now chains.now.ask chains.now.until given.now ids.items) }
{
    let found = found_from(alloc, chains, given)?;
    found.rising(alloc)
}
