//! Commands about the columns of a layer.
ghost use Rattle.std.specs.Prelude.{◌≡◌};
ghost use Rattle.sf_commands.specs.Commands.{column_arguments as column_command_of, add_column as add_column_of, drop_column as drop_column_of, of_layer, OrMemory};
ghost use Rattle.sf_commands.specs.declared.command.Command.TheVariants.{Columns};
ghost use Rattle.sf_words.specs.Words.{words as words_of};

use super::command::Command;
use sf_refusals::Refusal;
use sf_steps::Edit;
use sf_values::{column_type_of, text_of};
use sf_words::{Action, Words, action_of};
use std::alloc::Global;

/// The command of the words after `column`.
pub(crate) fn column_arguments(alloc: Global, mut words: Words<'_>) -> Result<Command, Refusal>
    ensures { OrMemory (column_command_of (words_of words.entry)) result }
{
    match action_of(words.next()?) {
        Some(Action::Add) => add_column(alloc, words),
        Some(Action::Drop) => drop_column(alloc, words),
        _ => Err(Refusal::BadCommand),
    }
}

fn add_column(alloc: Global, mut words: Words<'_>) -> Result<Command, Refusal>
    ensures { OrMemory (add_column_of (words_of words.entry)) result }
{
    let layer = words.next()?;
    let name = words.next()?;
    let column_type = words.next()?;
    words.finish()?;
    let column_type = column_type_of(column_type).ok_or(Refusal::BadCommand)?;
    let layer = text_of(alloc, layer)?;
    let name = text_of(alloc, name)?;
    Ok(Command::Edit(Edit::AddColumn {
        layer,
        name,
        column_type,
    }))
}

fn drop_column(alloc: Global, mut words: Words<'_>) -> Result<Command, Refusal>
    ensures { OrMemory (drop_column_of (words_of words.entry)) result }
{
    let layer = words.next()?;
    let name = words.next()?;
    words.finish()?;
    let layer = text_of(alloc, layer)?;
    let name = text_of(alloc, name)?;
    Ok(Command::Edit(Edit::DropColumn { layer, name }))
}

/// The command of the words after `columns`.
pub(crate) fn columns_arguments(alloc: Global, mut words: Words<'_>) -> Result<Command, Refusal>
    ensures { OrMemory (of_layer Columns (words_of words.entry)) result }
{
    let layer = words.next()?;
    words.finish()?;
    Ok(Command::Columns(text_of(alloc, layer)?))
}
