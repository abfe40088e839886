//! Commands that look features up: by their identifiers, what is measured of these, and by a value.
ghost use Rattle.std.specs.Prelude.{◌≡◌, Ok, ok_or};
ghost use Rattle.sf_refusals.specs.declared.refusal.Refusal.TheVariants.{BadCommand};
ghost use Rattle.sf_commands.specs.Commands.{features_arguments, features_named, find_arguments as find_command_of, ids_of as ids_spelled, made, range_between as range_spelled, sought_by as sought_by_of, sought_of as sought_spelled, OrMemory};
ghost use Rattle.sf_commands.specs.declared.command.Command.TheVariants.{Get, Measured};
ghost use Rattle.sf_commands.specs.declared.command.Sought.TheVariants.{Between};
ghost use Rattle.sf_commands.specs.ValueLists.{around_to as around_to_of};
ghost use Rattle.sf_measure.specs.declared.measure.Measure.TheVariants.{Area, Length};
ghost use Rattle.sf_words.specs.Words.{words as words_of, skip_blanks, skip_word};

use super::command::{Command, Sought};
use super::named_values::{range_between, value_between};
use super::value_lists::around_to;
use sf_features::Text;
use sf_measure::Measure;
use sf_refusals::Refusal;
use sf_rules::BoxedRange;
use sf_values::text_of;
use sf_words::{Identifiers, Words, id_of};
use std::alloc::Global;

/// How many identifiers `get`, `area` and `length` take at most.
const IDS_MAX: usize = 1000;

/// The command of the words after `get`.
pub(crate) fn get_arguments(alloc: Global, words: Words<'_>) -> Result<Command, Refusal>
    ensures { OrMemory (features_arguments Get (words_of words.entry)) result }
{
    let (layer, ids) = features_of(alloc, words)?;
    Ok(Command::Get(layer, ids))
}

/// The command of the words after `area`.
pub(crate) fn area_arguments(alloc: Global, words: Words<'_>) -> Result<Command, Refusal>
    ensures { OrMemory (features_arguments (Measured Area) (words_of words.entry)) result }
{
    let (layer, ids) = features_of(alloc, words)?;
    Ok(Command::Measured(Measure::Area, layer, ids))
}

/// The command of the words after `length`.
pub(crate) fn length_arguments(alloc: Global, words: Words<'_>) -> Result<Command, Refusal>
    ensures { OrMemory (features_arguments (Measured Length) (words_of words.entry)) result }
{
    let (layer, ids) = features_of(alloc, words)?;
    Ok(Command::Measured(Measure::Length, layer, ids))
}

/// The layer and the identifiers that are all words of a line.
fn features_of(alloc: Global, mut words: Words<'_>) -> Result<(Text, Identifiers), Refusal>
    ensures { OrMemory (features_named (words_of words.entry)) result }
{
    let layer = words.next()?;
    let ids = ids_of(alloc, words)?;
    Ok((text_of(alloc, layer)?, ids))
}

/// The identifiers that all words of a line spell, one to 1,000 of them.
fn ids_of(alloc: Global, mut words: Words<'_>) -> Result<Identifiers, Refusal>
    ensures { OrMemory (ok_or (ids_spelled (words_of words.entry)) BadCommand) result }
{
    let mut ids = Identifiers::new(alloc);
    for _ in 0..IDS_MAX {
        let id = id_of(words.next()?).ok_or(Refusal::BadCommand)?;
        ids.push(id)?;
        if words.finish().is_ok() {
            return Ok(ids);
        }
    }
    Err(Refusal::BadCommand)
}

/// The command of the words after `find`. A value or a range is the rest of the line from the third of them on.
pub(crate) fn find_arguments(alloc: Global, mut words: Words<'_>) -> Result<Command, Refusal>
    ensures { OrMemory (find_command_of (words_of words.entry) (skip_blanks (skip_word (skip_word words.entry)))) result }
{
    let layer = words.next()?;
    let column = words.next()?;
    let sought = sought_of(alloc, words)?;
    let layer = text_of(alloc, layer)?;
    let column = text_of(alloc, column)?;
    Ok(Command::Find(layer, column, sought))
}

/// What the rest of a line says of the values that are sought: any where nothing stands there.
fn sought_of(alloc: Global, words: Words<'_>) -> Result<Sought, Refusal>
    ensures { OrMemory (sought_spelled (words_of words.entry) (skip_blanks words.entry)) result }
{
    match words.rest() {
        Ok(text) => sought_by(alloc, text),
        Err(_) => Ok(Sought::Any),
    }
}

/// What a text says of them: a range where the word `to` stands in it, and else a value.
fn sought_by(alloc: Global, text: &str) -> Result<Sought, Refusal>
    ensures { OrMemory (sought_by_of text.now (around_to_of text.now)) result }
{
    match around_to(text) {
        Some((from, to)) => sought_between(alloc, from, to),
        None => Ok(Sought::Value(value_between(alloc, text)?)),
    }
}

/// What the ends of a range say of them.
fn sought_between(alloc: Global, from: &str, to: &str) -> Result<Sought, Refusal>
    ensures { OrMemory (made (range_spelled (from.now, to.now)) (λ range. Ok (Between range))) result }
{
    let range = range_between(alloc, from, to)?;
    Ok(Sought::Between(BoxedRange::new(alloc, range)?))
}
