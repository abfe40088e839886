//! The features that are nearest to a geometry.
ghost use Rattle.std.specs.Prelude.{◌≡◌, ◌++◌, ◌⊎◌, map, string_bytes, IfOk, OnOk};
ghost use Rattle.sf_layers.specs.Content.{layer_of};
ghost use Rattle.sf_console.specs.Answers.{line, nearest_rows as nearest_rows_of, refusal_line, reply_text, rows, rows_of};
ghost use Rattle.sf_console.specs.NearRows.{told_row};

use super::reply::Reply;
use sf_distance::writing::push_distance;
use sf_layers::{Store, Text};
use sf_near::{Distant, nearest_to};
use sf_refusals::Refusal;
use sf_validity::Valid;
use std::alloc::{AllocError, Global};

/// The features of a layer that are nearest to the given geometry, so many at most, the nearest first.
pub(crate) fn nearest(
    alloc: Global,
    store: &Store,
    layer: &Text,
    count: u16,
    given: &Valid,
) -> Result<Reply, Refusal>
    ensures { (reply_text result ≡ rows_of (nearest_rows_of count given.now) (layer_of store.now layer.now)) ⊎ (reply_text result ≡ refusal_line Refusal.Memory) }
{
    let found = nearest_to(alloc, store, layer.as_str(), count, given)?;
    Ok(Reply::Lines(nearest_rows(alloc, found.as_slice())?))
}

/// A row for each feature that is near, in their order: its identifier and its distance.
fn nearest_rows(alloc: Global, found: &[Distant]) -> Result<String, AllocError>
    ensures { IfOk result (λ text. string_bytes text ≡ rows (map told_row found.now)) }
{
    let mut text = String::new(alloc);
    writeln!(text, "rows {}", found.len())?;
    for distant in found {
        push_near(&mut text, distant)?;
    }
    Ok(text)
}

/// The row of a feature that is near, with its line feed.
fn push_near(text: &mut String, distant: &Distant) -> Result<(), AllocError>
    ensures { OnOk result (string_bytes text.new ≡ string_bytes text.old ++ line (told_row distant.now)) }
{
    write!(text, "{} ", distant.id)?;
    push_distance(text, &distant.square)?;
    text.push('\n')
}
