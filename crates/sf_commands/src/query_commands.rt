//! Commands that compare features with a given geometry.
ghost use Rattle.std.specs.Prelude.{◌≡◌};
ghost use Rattle.sf_wkt.specs.Grammar.{read};
ghost use Rattle.sf_commands.specs.Commands.{distance_arguments as distance_command_of, few_named, match_arguments as match_command_of, nearest_arguments as nearest_command_of, query_arguments as query_command_of, query_named as named_query_of, query_near as near_query_of, relate_arguments as relate_command_of, valid_of as valid_read, OrMemory};
ghost use Rattle.sf_words.specs.Words.{words as words_of, skip_blanks, skip_word};

use super::command::Command;
use sf_known::Pattern;
use sf_refusals::Refusal;
use sf_validity::{Valid, validate};
use sf_values::{predicate_of, text_of};
use sf_words::{Words, id_of, is_near, reach_of};
use std::alloc::Global;

/// How many features `nearest` lists at most.
const NEAREST_MAX: u32 = 1000;

/// The given geometry is the rest of the line from the third word after `distance` on.
pub(crate) fn distance_arguments(alloc: Global, mut words: Words<'_>) -> Result<Command, Refusal>
    ensures { OrMemory (distance_command_of (words_of words.entry) (skip_blanks (skip_word (skip_word words.entry)))) result }
{
    let layer = words.next()?;
    let id = words.next()?;
    let text = words.rest()?;
    let id = id_of(id).ok_or(Refusal::BadCommand)?;
    let layer = text_of(alloc, layer)?;
    let given = valid_of(alloc, text)?;
    Ok(Command::Distance(layer, id, given))
}

/// The given geometry is the rest of the line from the third word after `nearest` on.
pub(crate) fn nearest_arguments(alloc: Global, mut words: Words<'_>) -> Result<Command, Refusal>
    ensures { OrMemory (nearest_command_of (words_of words.entry) (skip_blanks (skip_word (skip_word words.entry)))) result }
{
    let layer = words.next()?;
    let count = words.next()?;
    let text = words.rest()?;
    let count = few_of(count).ok_or(Refusal::BadCommand)?;
    let layer = text_of(alloc, layer)?;
    let given = valid_of(alloc, text)?;
    Ok(Command::Nearest(layer, count, given))
}

/// The number from 1 to 1,000 that a word spells.
fn few_of(word: &str) -> Option<u16>
    ensures { result ≡ few_named word.now }
{
    match id_of(word) {
        Some(count) if 0 < count && count <= NEAREST_MAX => Some(count as u16),
        _ => None,
    }
}

/// The given geometry is the rest of the line from the third word after `relate` on.
pub(crate) fn relate_arguments(alloc: Global, mut words: Words<'_>) -> Result<Command, Refusal>
    ensures { OrMemory (relate_command_of (words_of words.entry) (skip_blanks (skip_word (skip_word words.entry)))) result }
{
    let layer = words.next()?;
    let id = words.next()?;
    let text = words.rest()?;
    let id = id_of(id).ok_or(Refusal::BadCommand)?;
    let layer = text_of(alloc, layer)?;
    let given = valid_of(alloc, text)?;
    Ok(Command::Relate(layer, id, given))
}

/// The given geometry is the rest of the line from the third word after `match` on.
pub(crate) fn match_arguments(alloc: Global, mut words: Words<'_>) -> Result<Command, Refusal>
    ensures { OrMemory (match_command_of (words_of words.entry) (skip_blanks (skip_word (skip_word words.entry)))) result }
{
    let layer = words.next()?;
    let pattern = words.next()?;
    let text = words.rest()?;
    let pattern = Pattern::parse(pattern)?;
    let layer = text_of(alloc, layer)?;
    let given = valid_of(alloc, text)?;
    Ok(Command::Match(layer, pattern, given))
}

/// What is asked is the second word after `query`: a predicate, or `near`, and then a distance is the next word. The given geometry is
/// the rest of the line.
pub(crate) fn query_arguments(alloc: Global, mut words: Words<'_>) -> Result<Command, Refusal>
    ensures { OrMemory (query_command_of (words_of words.entry) (skip_blanks (skip_word (skip_word words.entry)))) result }
{
    let layer = words.next()?;
    let ask = words.next()?;
    let text = words.rest()?;
    if is_near(ask) {
        query_near(alloc, layer, Words::new(text))
    } else {
        query_named(alloc, layer, ask, text)
    }
}

/// The query of a layer by a distance, the next of these words.
fn query_near(alloc: Global, layer: &str, mut words: Words<'_>) -> Result<Command, Refusal>
    ensures { OrMemory (near_query_of layer.now (words_of words.entry) (skip_blanks (skip_word words.entry))) result }
{
    let distance = words.next()?;
    let text = words.rest()?;
    let reach = reach_of(distance).ok_or(Refusal::BadCommand)?;
    let layer = text_of(alloc, layer)?;
    let given = valid_of(alloc, text)?;
    Ok(Command::Near(layer, reach, given))
}

/// The query of a layer by a predicate.
fn query_named(alloc: Global, layer: &str, predicate: &str, text: &str) -> Result<Command, Refusal>
    ensures { OrMemory (named_query_of layer.now predicate.now text.now) result }
{
    let predicate = predicate_of(predicate).ok_or(Refusal::BadCommand)?;
    let layer = text_of(alloc, layer)?;
    let given = valid_of(alloc, text)?;
    Ok(Command::Query(layer, predicate, given))
}

/// The valid geometry of a well-known text. A fault of the text comes before one of the geometry.
fn valid_of(alloc: Global, text: &str) -> Result<Valid, Refusal>
    ensures { OrMemory (valid_read (read text.now)) result }
{
    let geometry = sf_wkt::read(alloc, text)?;
    match validate(alloc, geometry) {
        Ok(valid) => Ok(valid),
        Err(invalid) => Err(invalid.refusal.into()),
    }
}
