//! Commands that compare the features of two layers.
ghost use Rattle.std.specs.Prelude.{◌≡◌, Ok};
ghost use Rattle.sf_commands.specs.declared.command.Command.TheVariants.{Join};
ghost use Rattle.sf_commands.specs.Commands.{beside_of as beside_spelled, join_arguments as join_command_of, join_behind as join_behind_of, join_near as join_near_of, matrix_ask_of, OrMemory};
ghost use Rattle.sf_words.specs.Words.{words as words_of};

use super::command::Command;
use super::spelling::{matrix_ask, near_ask};
use sf_refusals::Refusal;
use sf_rules::PairAsk;
use sf_values::text_of;
use sf_words::{Words, id_of, is_near};
use std::alloc::Global;

/// The command of the words after `join`: a layer, what is asked, another layer, and an identifier where one is given.
pub(crate) fn join_arguments(alloc: Global, mut words: Words<'_>) -> Result<Command, Refusal>
    ensures { OrMemory (join_command_of (words_of words.entry)) result }
{
    let first = words.next()?;
    let ask = words.next()?;
    if is_near(ask) {
        join_near(alloc, first, words)
    } else {
        join_by_matrix(alloc, first, ask, words)
    }
}

/// The join by a distance, which is the next of the words.
fn join_near(alloc: Global, first: &str, mut words: Words<'_>) -> Result<Command, Refusal>
    ensures { OrMemory (join_near_of first.now (words_of words.entry)) result }
{
    let distance = words.next()?;
    let second = words.next()?;
    let beside = beside_of(words)?;
    let ask = near_ask(distance)?;
    join_of(alloc, first, ask, second, beside)
}

/// The join by a matrix.
fn join_by_matrix(
    alloc: Global,
    first: &str,
    ask: &str,
    mut words: Words<'_>,
) -> Result<Command, Refusal>
    ensures { OrMemory (join_behind_of first.now (matrix_ask_of ask.now) (words_of words.entry)) result }
{
    let second = words.next()?;
    let beside = beside_of(words)?;
    let ask = matrix_ask(ask)?;
    join_of(alloc, first, ask, second, beside)
}

/// The identifier that the last word spells, or None where no word stands there.
fn beside_of(mut words: Words<'_>) -> Result<Option<u32>, Refusal>
    ensures { result ≡ beside_spelled (words_of words.entry) }
{
    let Ok(word) = words.next() else {
        return Ok(None);
    };
    let id = id_of(word).ok_or(Refusal::BadCommand)?;
    words.finish()?;
    Ok(Some(id))
}

/// The command of two layers and what is asked.
fn join_of(
    alloc: Global,
    first: &str,
    ask: PairAsk,
    second: &str,
    beside: Option<u32>,
) -> Result<Command, Refusal>
    ensures { OrMemory (Ok (Join first.now ask second.now beside)) result }
{
    let first = text_of(alloc, first)?;
    let second = text_of(alloc, second)?;
    Ok(Command::Join(first, ask, second, beside))
}
