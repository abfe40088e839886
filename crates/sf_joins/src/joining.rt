//! Joins of two layers: each feature of the first is asked about by the index of the second, with the converse ask, so that
//! pairs come out rising with no sort.

ghost use Rattle.std.specs.Prelude.{◌≡◌, ◌++◌, bytes_eq, filter, map, IfOk, OnOk};
ghost use Rattle.sf_layers.specs.Content.{layer_of};
ghost use Rattle.sf_layers.specs.WellFormed.{IsLayer};
ghost use Rattle.sf_near.specs.Pairs.{ids_asked as ids_asked_of};
ghost use Rattle.sf_joins.specs.Joins.{are_distinct as are_distinct_of, pairs_found};
ghost use Rattle.sf_joins.specs.Replies.{IsBeside, IsJoin};

use super::joined::{Beside, Joined};
use super::turning::converse_pair;
use sf_layers::{Layer, Store};
use sf_near::{PairAsk, Refusal, ids_asked};
use sf_validity::Valid;
use std::alloc::{AllocError, Global};

/// The pairs of distinct features, one of each layer, whose matrix or distance is as asked: the feature of the first layer is the
/// first geometry. Features of one layer are distinct where their identifiers differ. It takes memory for the pairs, and for
/// what is made of one feature at a time; where the ask needs contact, time by the pairs whose boxes meet, and where it asks for
/// what is near, by those whose boxes are.
///
/// # Errors
///
/// `NoLayer` exactly where no layer has the one name or the other; `Memory` in the place of an answer.
pub fn join(
    alloc: Global,
    store: &Store,
    first: &str,
    ask: &PairAsk,
    second: &str,
) -> Result<Joined, Refusal>
    ensures { IsJoin (bytes_eq first.now second.now) (layer_of store.now first.now) ask.now
        (layer_of store.now second.now) result }
{
    let one = first == second;
    let Some(own) = store.layer(first) else {
        return Err(Refusal::NoLayer);
    };
    let Some(other) = store.layer(second) else {
        return Err(Refusal::NoLayer);
    };
    let pairs = pairs_of(alloc, own, ask, other, one)?;
    Ok(Joined { pairs })
}

/// The features of the first layer that are as asked with one stored feature of the second, that one itself left out.
///
/// # Errors
///
/// `NoLayer` as with `join`, then `NoFeature` exactly where the second layer has none under the identifier; `Memory` in the
/// place of an answer.
pub fn join_one(
    alloc: Global,
    store: &Store,
    first: &str,
    ask: &PairAsk,
    second: &str,
    id: u32,
) -> Result<Beside, Refusal>
    ensures { IsBeside (bytes_eq first.now second.now) (layer_of store.now first.now) ask.now
        (layer_of store.now second.now) id result }
{
    let one = first == second;
    let Some(own) = store.layer(first) else {
        return Err(Refusal::NoLayer);
    };
    let Some(other) = store.layer(second) else {
        return Err(Refusal::NoLayer);
    };
    let Some(feature) = other.feature(id) else {
        return Err(Refusal::NoFeature);
    };
    let found = ids_asked(alloc, own, ask, feature.valid())?;
    let ids = without(alloc, found.as_slice(), one, id)?;
    Ok(Beside { ids })
}

/// The pairs of two layers, rising. Both are of one layer where `one` says so.
fn pairs_of(
    alloc: Global,
    first: &Layer,
    ask: &PairAsk,
    second: &Layer,
    one: bool,
) -> Result<Vec<(u32, u32)>, AllocError>
    requires { IsLayer second.now }
    ensures { IfOk result (λ pairs. pairs.items ≡ pairs_found one first.now ask.now second.now) }
{
    let converse = converse_pair(ask);
    let mut pairs = Vec::new(alloc);
    for (id, feature) in first.features() {
        push_pairs(
            alloc,
            &mut pairs,
            *id,
            feature.valid(),
            &converse,
            second,
            one,
        )?;
    }
    Ok(pairs)
}

/// Adds the pairs of one feature of the first layer.
fn push_pairs(
    alloc: Global,
    pairs: &mut Vec<(u32, u32)>,
    id: u32,
    valid: &Valid,
    converse: &PairAsk,
    second: &Layer,
    one: bool,
) -> Result<(), AllocError>
    requires { IsLayer second.now }
    ensures { OnOk result (pairs.new.items ≡ pairs.old.items
        ++ map (λ other. (id, other)) (filter (are_distinct_of one id) (ids_asked_of second.now converse.now valid.now))) }
{
    let found = ids_asked(alloc, second, converse, valid)?;
    for other in found.as_slice() {
        if are_distinct(one, id, *other) {
            pairs.push((id, *other))?;
        }
    }
    Ok(())
}

/// Those of the identifiers that are of features distinct from the one.
fn without(alloc: Global, ids: &[u32], one: bool, id: u32) -> Result<Vec<u32>, AllocError>
    ensures { IfOk result (λ others. others.items ≡ filter (λ other. are_distinct_of one other id) ids.now) }
{
    let mut others = Vec::with_capacity(alloc, ids.len())?;
    for other in ids {
        if are_distinct(one, *other, id) {
            others.push(*other)?;
        }
    }
    Ok(others)
}

/// Whether two features are distinct, which are of one layer where `one` says so.
fn are_distinct(one: bool, first: u32, second: u32) -> bool
    ensures { result ≡ are_distinct_of one first second }
{
    !(one && first == second)
}
