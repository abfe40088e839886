//! Commands about chains of features.
ghost use Rattle.std.specs.Prelude.{◌≤◌, None, Some, length};
ghost use Rattle.sf_commands.specs.Commands.{ids_max, linked_of, reach_all as reach_all_of, reach_arguments as reach_command_of, reach_linked, reach_until as reach_until_of, OrMemory};
ghost use Rattle.sf_words.specs.Words.{words as words_of};

use super::command::Command;
use super::spelling::ask_of;
use sf_refusals::Refusal;
use sf_values::text_of;
use sf_words::{Identifiers, Words, id_of, is_until};
use std::alloc::Global;

/// How many identifiers `reach` takes at most.
const IDS_MAX: usize = 1000;

/// The command of the words after `reach`: a layer, what is asked, identifiers, and where chains end.
pub(crate) fn reach_arguments(alloc: Global, mut words: Words<'_>) -> Result<Command, Refusal>
    ensures { OrMemory (reach_command_of (words_of words.entry)) result }
{
    let layer = words.next()?;
    let ask = words.next()?;
    reach_from(alloc, layer, ask, words)
}

/// The command of a layer, of what is asked, and of the words behind these: identifiers, up to `until` where it stands.
fn reach_from(
    alloc: Global,
    layer: &str,
    ask: &str,
    mut words: Words<'_>,
) -> Result<Command, Refusal>
    ensures { OrMemory (reach_linked layer.now ask.now (linked_of (words_of words.entry))) result }
{
    let mut ids = Identifiers::new(alloc);
    for _ in 0..=IDS_MAX {
        let Ok(word) = words.next() else {
            return reach_all(alloc, layer, ask, ids);
        };
        if is_until(word) {
            return reach_until(alloc, layer, ask, ids, words);
        }
        let id = id_of(word).ok_or(Refusal::BadCommand)?;
        ids.push(id)?;
    }
    Err(Refusal::BadCommand)
}

/// The command of identifiers with no end of chains. There is one at least.
fn reach_all(alloc: Global, layer: &str, ask: &str, ids: Identifiers) -> Result<Command, Refusal>
    requires { length ids ≤ ids_max }
    ensures { OrMemory (reach_linked layer.now ask.now (Some (ids, None))) result }
{
    if ids.as_slice().is_empty() {
        return Err(Refusal::BadCommand);
    }
    all_linked(alloc, layer, ask, ids)
}

/// The same with the words behind `until`.
fn reach_until(
    alloc: Global,
    layer: &str,
    ask: &str,
    ids: Identifiers,
    words: Words<'_>,
) -> Result<Command, Refusal>
    requires { length ids ≤ ids_max }
    ensures { OrMemory (reach_linked layer.now ask.now (Some (ids, Some (words_of words.entry)))) result }
{
    if ids.as_slice().is_empty() {
        return Err(Refusal::BadCommand);
    }
    linked_until(alloc, layer, ask, ids, words)
}

fn all_linked(alloc: Global, layer: &str, ask: &str, ids: Identifiers) -> Result<Command, Refusal>
    ensures { OrMemory (reach_all_of layer.now ask.now ids) result }
{
    let ask = ask_of(ask)?;
    Ok(Command::Reach(text_of(alloc, layer)?, ask, ids))
}

fn linked_until(
    alloc: Global,
    layer: &str,
    ask: &str,
    ids: Identifiers,
    mut words: Words<'_>,
) -> Result<Command, Refusal>
    ensures { OrMemory (reach_until_of layer.now ask.now ids (words_of words.entry)) result }
{
    let second = words.next()?;
    let end = words.next()?;
    words.finish()?;
    let ask = ask_of(ask)?;
    let end = ask_of(end)?;
    let layer = text_of(alloc, layer)?;
    let second = text_of(alloc, second)?;
    Ok(Command::ReachUntil(layer, ask, ids, second, end))
}
