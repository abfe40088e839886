//! The features of a layer that are as asked with a geometry: by their matrix, or by their distance.

ghost use Rattle.std.specs.Prelude.{◌≡◌, IfOk, filter, nat_lt};
ghost use Rattle.sf_distance.specs.Reaches.{square_of_reach};
ghost use Rattle.sf_layers.specs.WellFormed.{IsLayer};
ghost use Rattle.sf_near.specs.Answers.{ids_within as ids_within_of};
ghost use Rattle.sf_near.specs.Pairs.{ids_asked as ids_asked_of};

use super::near::{ids_among, ids_by_pass, ids_within};
use super::pair_ask::PairAsk;
use super::surroundings::Surroundings;
use sf_layers::Layer;
use sf_query::{features_asked, ids_asked_behind as ids_by_matrix_behind};
use sf_validity::Valid;
use std::alloc::{AllocError, Global};

/// The identifiers of the features of a layer of a store that are as asked with the given geometry, rising.
///
/// # Errors
///
/// Out of memory alone.
pub fn ids_asked(
    alloc: Global,
    layer: &Layer,
    ask: &PairAsk,
    given: &Valid,
) -> Result<Vec<u32>, AllocError>
    requires { IsLayer layer.now }
    ensures { IfOk result (λ ids. ids.items ≡ ids_asked_of layer.now ask.now given.now) }
{
    match ask {
        PairAsk::Matrix(ask) => Ok(features_asked(alloc, layer, ask, given)?.ids),
        PairAsk::Near(reach) => {
            let around = Surroundings::new(alloc, given, *reach)?;
            ids_within(alloc, layer, &around)
        }
    }
}

/// Those of them that are above this one, rising. Where the order of two features makes no difference to what is asked, each pair of a
/// layer is so asked about once.
///
/// # Errors
///
/// Out of memory alone.
pub fn ids_asked_behind(
    alloc: Global,
    layer: &Layer,
    ask: &PairAsk,
    given: &Valid,
    id: u32,
) -> Result<Vec<u32>, AllocError>
    requires { IsLayer layer.now }
    ensures { IfOk result (λ ids. ids.items ≡ filter (λ other. nat_lt id other) (ids_asked_of layer.now ask.now given.now)) }
{
    match ask {
        PairAsk::Matrix(ask) => ids_by_matrix_behind(alloc, layer, ask, given, id),
        PairAsk::Near(reach) => {
            let around = Surroundings::new(alloc, given, *reach)?;
            ids_within_behind(alloc, layer, &around, id)
        }
    }
}

/// The identifiers of the features within the reach that are above this one.
///
/// # Errors
///
/// Out of memory alone.
fn ids_within_behind(
    alloc: Global,
    layer: &Layer,
    around: &Surroundings,
    id: u32,
) -> Result<Vec<u32>, AllocError>
    requires { IsLayer layer.now }
    ensures { IfOk result (λ ids. ids.items ≡ filter (λ other. nat_lt id other)
        (ids_within_of layer.now (square_of_reach around.now.reach) around.now.geometry)) }
{
    match layer.index() {
        Some(index) => {
            let near = around.near_ids(alloc, index)?;
            let behind = behind(alloc, near.as_slice(), id)?;
            ids_among(alloc, layer, behind.as_slice(), around)
        }
        None => {
            let within = ids_by_pass(alloc, layer, around)?;
            behind(alloc, within.as_slice(), id)
        }
    }
}

/// Those of the identifiers that are above this one, in their order.
///
/// # Errors
///
/// Out of memory alone.
fn behind(alloc: Global, ids: &[u32], id: u32) -> Result<Vec<u32>, AllocError>
    ensures { IfOk result (λ behind. behind.items ≡ filter (λ other. nat_lt id other) ids.now) }
{
    let mut behind = Vec::with_capacity(alloc, ids.len())?;
    for other in ids {
        if id < *other {
            behind.push(*other)?;
        }
    }
    Ok(behind)
}
