//! Lines as members of a group: each is an edit of a feature, which may be the last one of its layer.
ghost use Rattle.std.specs.Prelude.{◌≡◌};
ghost use Rattle.sf_commands.specs.Commands.{OrMemory};
ghost use Rattle.sf_commands.specs.Members.{member_by, member_by_verb, member_by_words, member_of, first_is_last, second_is_last, third_is_last};
ghost use Rattle.sf_words.specs.Words.{words as words_of, skip_word};

use super::command::Command;
use super::feature_commands::{
    add_arguments, addhex_arguments, delete_arguments, replace_arguments, set_arguments,
    unset_arguments,
};
use super::vertex_commands::vertex_arguments;
use sf_groups::Member;
use sf_refusals::Refusal;
use sf_text_lines::LINE_MAX;
use sf_words::{Naming, Verb, Words, is_last, verb_of};
use std::alloc::Global;

/// The member of a line: an edit of a feature, without an editor's word, in which `last` may stand for the identifier.
///
/// # Errors
///
/// The refusal that the line alone decides: those of an edit outside of a group, and `BadCommand` for any other line.
/// `Memory` may come in place of any of them.
pub fn parse_member(alloc: Global, line: &str) -> Result<Member, Refusal>
    ensures { OrMemory (member_of line.now) result }
{
    if line.len() > LINE_MAX {
        return Err(Refusal::LineTooLong);
    }
    member_of_words(alloc, Words::new(line))
}

/// The member of the words of a line.
fn member_of_words(alloc: Global, words: Words<'_>) -> Result<Member, Refusal>
    ensures { OrMemory (member_by_words (words_of words.entry) (skip_word words.entry)) result }
{
    let mut words = words;
    let verb = verb_of(words.next()?);
    member_of_verb(alloc, verb, words)
}

/// The member of a verb and the words after it.
fn member_of_verb(alloc: Global, verb: Option<Verb>, words: Words<'_>) -> Result<Member, Refusal>
    ensures { OrMemory (member_by_verb verb words.entry) result }
{
    let of_second = says_last_second(&words);
    let of_third = says_last_third(&words);
    match verb {
        Some(Verb::Add) => member(false, add_arguments(alloc, words)),
        Some(Verb::AddHex) => member(false, addhex_arguments(alloc, words)),
        Some(Verb::Delete) => member(of_second, delete_arguments(alloc, Naming::OrLast, words)),
        Some(Verb::Replace) => member(of_second, replace_arguments(alloc, Naming::OrLast, words)),
        Some(Verb::Vertex) => member(of_third, vertex_arguments(alloc, Naming::OrLast, words)),
        Some(Verb::Set) => member(of_second, set_arguments(alloc, Naming::OrLast, words)),
        Some(Verb::Unset) => member(of_second, unset_arguments(alloc, Naming::OrLast, words)),
        _ => Err(Refusal::BadCommand),
    }
}

/// The member of a command that could be read.
fn member(of_last: bool, command: Result<Command, Refusal>) -> Result<Member, Refusal>
    ensures { result ≡ member_by of_last command }
{
    match command {
        Ok(command) => member_of_command(of_last, command),
        Err(refusal) => Err(refusal),
    }
}

/// The member of an edit; no other command is one.
fn member_of_command(of_last: bool, command: Command) -> Result<Member, Refusal>
    ensures { result ≡ member_by of_last (Ok command) }
{
    match command {
        Command::Edit(edit) => Ok(Member { edit, of_last }),
        Command::Undo | Command::Redo | Command::Layers | Command::Rules => Err(
            Refusal::BadCommand,
        ),
        _ => Err(Refusal::BadCommand),
    }
}

/// Whether the second of the words is `last`.
fn says_last_second(words: &Words<'_>) -> bool
    ensures { result ≡ second_is_last (words_of words.now) }
{
    let mut words = words.again();
    match words.next() {
        Ok(_) => says_last_first(words),
        Err(_) => false,
    }
}

/// Whether the third of the words is `last`.
fn says_last_third(words: &Words<'_>) -> bool
    ensures { result ≡ third_is_last (words_of words.now) }
{
    let mut words = words.again();
    match words.next() {
        Ok(_) => says_last_second(&words),
        Err(_) => false,
    }
}

/// Whether the first of the words is `last`.
fn says_last_first(words: Words<'_>) -> bool
    ensures { result ≡ first_is_last (words_of words.entry) }
{
    let mut words = words;
    match words.next() {
        Ok(word) => is_last(word),
        Err(_) => false,
    }
}
