//! The features that chains lead to.
ghost use Rattle.std.specs.Prelude.{◌≡◌, ◌⊎◌, bytes_eq};
ghost use Rattle.sf_layers.specs.Content.{layer_of};
ghost use Rattle.sf_console.specs.Answers.{reached_from, reached_until as reached_until_of, refusal_line, reply_text};

use super::reply::Reply;
use super::rows::id_rows;
use sf_commands::Identifiers;
use sf_layers::{Store, Text};
use sf_query::Ask;
use sf_reach::{reached, reached_until};
use sf_refusals::Refusal;
use std::alloc::Global;

/// The identifiers of the features of a layer that chains lead to from those under the given ones.
pub(crate) fn reach(
    alloc: Global,
    store: &Store,
    layer: &Text,
    ask: &Ask,
    given: &Identifiers,
) -> Result<Reply, Refusal>
    ensures { (reply_text result ≡ reached_from (layer_of store.now layer.now) ask.now given.now) ⊎ (reply_text result ≡ refusal_line Refusal.Memory) }
{
    let ids = reached(alloc, store, layer.as_str(), ask, given.as_slice())?;
    Ok(Reply::Lines(id_rows(alloc, ids.as_slice())?))
}

/// The same, where chains end at features that are as asked with some feature of the second layer.
pub(crate) fn reach_until(
    alloc: Global,
    store: &Store,
    layer: &Text,
    ask: &Ask,
    given: &Identifiers,
    second: &Text,
    end: &Ask,
) -> Result<Reply, Refusal>
    ensures { (reply_text result ≡ reached_until_of (bytes_eq layer.now second.now) (layer_of store.now layer.now) ask.now (layer_of store.now second.now) end.now given.now)
        ⊎ (reply_text result ≡ refusal_line Refusal.Memory) }
{
    let ids = reached_until(
        alloc,
        store,
        layer.as_str(),
        ask,
        second.as_str(),
        end,
        given.as_slice(),
    )?;
    Ok(Reply::Lines(id_rows(alloc, ids.as_slice())?))
}
