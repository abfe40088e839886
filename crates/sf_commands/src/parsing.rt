//! Lines as commands: the verb of each, and whatever reads the words after it.
ghost use Rattle.std.specs.Prelude.{◌≡◌};
ghost use Rattle.sf_commands.specs.Commands.{command_of, by_words, by_verb, alone, takes_memory, verb_takes_memory, words_take_memory, OrMemoryIf};
ghost use Rattle.sf_commands.specs.declared.command.Command.TheVariants.{Undo, Redo};
ghost use Rattle.sf_words.specs.Words.{words as words_of, skip_word};

use super::column_commands::{column_arguments, columns_arguments};
use super::command::Command;
use super::feature_commands::{
    add_arguments, addhex_arguments, box_arguments, check_arguments, delete_arguments,
    hex_arguments, replace_arguments, set_arguments, show_arguments, simple_arguments,
    unset_arguments,
};
use super::join_commands::join_arguments;
use super::layer_commands::{layer_arguments, layers_arguments};
use super::lookup_commands::{area_arguments, find_arguments, get_arguments, length_arguments};
use super::query_commands::{
    distance_arguments, match_arguments, nearest_arguments, query_arguments, relate_arguments,
};
use super::reach_commands::reach_arguments;
use super::rule_commands::{rule_arguments, rules_arguments};
use super::vertex_commands::vertex_arguments;
use sf_refusals::Refusal;
use sf_text_lines::LINE_MAX;
use sf_words::{Naming, Verb, Words, addressed, verb_of};
use std::alloc::Global;

/// The command of a line with the number of the editor who gives it, 0 where its first word names none; or the
/// refusal that the line alone decides: `LineTooLong` above 4,194,304 bytes, `BadCommand` for wrong words or a wrong
/// number of them, an editor's word that names none before all others, then `BadPattern` for a pattern that is none,
/// then `Syntax` for a text that is no hexadecimal, the faults of a well-known text or binary, and those of a
/// coordinate, x before y; last, of a geometry that features are compared with, its first fault. `Memory` may come in
/// place of any of them where memory is taken: not for a line that is too long or whose editor's word names none, nor
/// for one without a verb, whose verb is unknown, or that is `undo`, `redo`, `layers` or `rules`.
pub fn parse(alloc: Global, line: &str) -> Result<(u8, Command), Refusal>
    ensures { OrMemoryIf (takes_memory line.now) (command_of line.now) result }
{
    if line.len() > LINE_MAX {
        return Err(Refusal::LineTooLong);
    }
    let (editor, words) = addressed(line)?;
    let command = command_of_words(alloc, words)?;
    Ok((editor, command))
}

/// The command of the words of a line, the editor's not among them.
fn command_of_words(alloc: Global, words: Words<'_>) -> Result<Command, Refusal>
    ensures { OrMemoryIf (words_take_memory (words_of words.entry)) (by_words (words_of words.entry) (skip_word words.entry)) result }
{
    let mut words = words;
    let verb = verb_of(words.next()?);
    arguments_of(alloc, verb, words)
}

/// The command of a verb and the words after it.
fn arguments_of(alloc: Global, verb: Option<Verb>, words: Words<'_>) -> Result<Command, Refusal>
    ensures { OrMemoryIf (verb_takes_memory verb) (by_verb verb words.entry) result }
{
    match verb {
        Some(Verb::Layer) => layer_arguments(alloc, words),
        Some(Verb::Column) => column_arguments(alloc, words),
        Some(Verb::Add) => add_arguments(alloc, words),
        Some(Verb::AddHex) => addhex_arguments(alloc, words),
        Some(Verb::Delete) => delete_arguments(alloc, Naming::ById, words),
        Some(Verb::Replace) => replace_arguments(alloc, Naming::ById, words),
        Some(Verb::Vertex) => vertex_arguments(alloc, Naming::ById, words),
        Some(Verb::Set) => set_arguments(alloc, Naming::ById, words),
        Some(Verb::Unset) => unset_arguments(alloc, Naming::ById, words),
        Some(Verb::Rule) => rule_arguments(alloc, words),
        Some(Verb::Undo) => undo_arguments(words),
        Some(Verb::Redo) => redo_arguments(words),
        Some(Verb::Layers) => layers_arguments(words),
        Some(Verb::Columns) => columns_arguments(alloc, words),
        Some(Verb::Rules) => rules_arguments(words),
        Some(Verb::Show) => show_arguments(alloc, words),
        Some(Verb::Get) => get_arguments(alloc, words),
        Some(Verb::Find) => find_arguments(alloc, words),
        Some(Verb::Check) => check_arguments(alloc, words),
        Some(Verb::Hex) => hex_arguments(alloc, words),
        Some(Verb::Box) => box_arguments(alloc, words),
        Some(Verb::Simple) => simple_arguments(alloc, words),
        Some(Verb::Area) => area_arguments(alloc, words),
        Some(Verb::Length) => length_arguments(alloc, words),
        Some(Verb::Distance) => distance_arguments(alloc, words),
        Some(Verb::Nearest) => nearest_arguments(alloc, words),
        Some(Verb::Reach) => reach_arguments(alloc, words),
        Some(Verb::Relate) => relate_arguments(alloc, words),
        Some(Verb::Match) => match_arguments(alloc, words),
        Some(Verb::Query) => query_arguments(alloc, words),
        Some(Verb::Join) => join_arguments(alloc, words),
        None => Err(Refusal::BadCommand),
    }
}

fn undo_arguments(words: Words<'_>) -> Result<Command, Refusal>
    ensures { result ≡ alone Undo (words_of words.entry) }
{
    words.finish()?;
    Ok(Command::Undo)
}

fn redo_arguments(words: Words<'_>) -> Result<Command, Refusal>
    ensures { result ≡ alone Redo (words_of words.entry) }
{
    words.finish()?;
    Ok(Command::Redo)
}
