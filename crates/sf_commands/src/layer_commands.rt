//! Commands about layers as a whole.
ghost use Rattle.std.specs.Prelude.{◌≡◌};
ghost use Rattle.sf_commands.specs.Commands.{layer_arguments as layer_command_of, add_layer as add_layer_of, drop_layer as drop_layer_of, rename_layer as rename_layer_of, move_layer as move_layer_of, alone, OrMemory};
ghost use Rattle.sf_commands.specs.declared.command.Command.TheVariants.{Layers};
ghost use Rattle.sf_words.specs.Words.{words as words_of};

use super::command::Command;
use sf_refusals::Refusal;
use sf_steps::Edit;
use sf_values::{layer_kind_of, text_of};
use sf_words::{Action, Words, action_of, id_of};
use std::alloc::Global;

/// The command of the words after `layer`.
pub(crate) fn layer_arguments(alloc: Global, mut words: Words<'_>) -> Result<Command, Refusal>
    ensures { OrMemory (layer_command_of (words_of words.entry)) result }
{
    match action_of(words.next()?) {
        Some(Action::Add) => add_layer(alloc, words),
        Some(Action::Drop) => drop_layer(alloc, words),
        Some(Action::Rename) => rename_layer(alloc, words),
        Some(Action::Move) => move_layer(alloc, words),
        _ => Err(Refusal::BadCommand),
    }
}

fn add_layer(alloc: Global, mut words: Words<'_>) -> Result<Command, Refusal>
    ensures { OrMemory (add_layer_of (words_of words.entry)) result }
{
    let name = words.next()?;
    let kind = words.next()?;
    words.finish()?;
    let kind = layer_kind_of(kind).ok_or(Refusal::BadCommand)?;
    let name = text_of(alloc, name)?;
    Ok(Command::Edit(Edit::AddLayer { name, kind }))
}

fn drop_layer(alloc: Global, mut words: Words<'_>) -> Result<Command, Refusal>
    ensures { OrMemory (drop_layer_of (words_of words.entry)) result }
{
    let name = words.next()?;
    words.finish()?;
    let name = text_of(alloc, name)?;
    Ok(Command::Edit(Edit::DropLayer { name }))
}

fn rename_layer(alloc: Global, mut words: Words<'_>) -> Result<Command, Refusal>
    ensures { OrMemory (rename_layer_of (words_of words.entry)) result }
{
    let name = words.next()?;
    let new_name = words.next()?;
    words.finish()?;
    let name = text_of(alloc, name)?;
    let new_name = text_of(alloc, new_name)?;
    Ok(Command::Edit(Edit::RenameLayer { name, new_name }))
}

fn move_layer(alloc: Global, mut words: Words<'_>) -> Result<Command, Refusal>
    ensures { OrMemory (move_layer_of (words_of words.entry)) result }
{
    let name = words.next()?;
    let place = words.next()?;
    words.finish()?;
    let place = id_of(place).ok_or(Refusal::BadCommand)?;
    let name = text_of(alloc, name)?;
    Ok(Command::Edit(Edit::MoveLayer { name, place }))
}

/// The command of the words after `layers`.
pub(crate) fn layers_arguments(words: Words<'_>) -> Result<Command, Refusal>
    ensures { result ≡ alone Layers (words_of words.entry) }
{
    words.finish()?;
    Ok(Command::Layers)
}
