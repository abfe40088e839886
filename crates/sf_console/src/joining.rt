//! The answers to `join`.
ghost use Rattle.std.specs.Prelude.{◌≡◌, ◌⊎◌, bytes_eq};
ghost use Rattle.sf_layers.specs.Content.{layer_of};
ghost use Rattle.sf_console.specs.Answers.{beside as beside_told, join_told, joined as pairs_told, refusal_line, reply_text};

use super::reply::Reply;
use super::rows::{id_rows, pair_rows};
use sf_joins::{join, join_one};
use sf_layers::{Store, Text};
use sf_near::PairAsk;
use sf_refusals::Refusal;
use std::alloc::Global;

/// The pairs of features of two layers, or the features beside the one of an identifier.
pub(crate) fn joined(
    alloc: Global,
    store: &Store,
    first: &Text,
    ask: &PairAsk,
    second: &Text,
    id: Option<u32>,
) -> Result<Reply, Refusal>
    ensures { (reply_text result ≡ join_told store.now first.now ask.now second.now id) ⊎ (reply_text result ≡ refusal_line Refusal.Memory) }
{
    match id {
        Some(id) => beside(alloc, store, first, ask, second, id),
        None => pairs(alloc, store, first, ask, second),
    }
}

/// The pairs of features of two layers.
fn pairs(
    alloc: Global,
    store: &Store,
    first: &Text,
    ask: &PairAsk,
    second: &Text,
) -> Result<Reply, Refusal>
    ensures { (reply_text result ≡ pairs_told (bytes_eq first.now second.now) (layer_of store.now first.now) ask.now (layer_of store.now second.now)) ⊎ (reply_text result ≡ refusal_line Refusal.Memory) }
{
    let joined = join(alloc, store, first.as_str(), ask, second.as_str())?;
    Ok(Reply::Lines(pair_rows(alloc, joined.pairs.as_slice())?))
}

/// The features of the first layer beside one of the second.
fn beside(
    alloc: Global,
    store: &Store,
    first: &Text,
    ask: &PairAsk,
    second: &Text,
    id: u32,
) -> Result<Reply, Refusal>
    ensures { (reply_text result ≡ beside_told (bytes_eq first.now second.now) (layer_of store.now first.now) ask.now (layer_of store.now second.now) id) ⊎ (reply_text result ≡ refusal_line Refusal.Memory) }
{
    let beside = join_one(alloc, store, first.as_str(), ask, second.as_str(), id)?;
    Ok(Reply::Lines(id_rows(alloc, beside.ids.as_slice())?))
}
