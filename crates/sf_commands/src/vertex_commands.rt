//! Commands about the vertices of a feature.
ghost use Rattle.std.specs.Prelude.{◌≡◌};
ghost use Rattle.sf_commands.specs.Commands.{vertex_arguments as vertex_command_of, insert_vertex as insert_vertex_of, move_vertex as move_vertex_of, remove_vertex as remove_vertex_of, OrMemory};
ghost use Rattle.sf_words.specs.Words.{words as words_of};

use super::command::Command;
use sf_refusals::Refusal;
use sf_steps::Edit;
use sf_values::text_of;
use sf_words::{Action, Naming, Words, action_of, place_of, point_of};
use std::alloc::Global;

/// The command of the words after `vertex`.
pub(crate) fn vertex_arguments(
    alloc: Global,
    naming: Naming,
    mut words: Words<'_>,
) -> Result<Command, Refusal>
    ensures { OrMemory (vertex_command_of naming (words_of words.entry)) result }
{
    match action_of(words.next()?) {
        Some(Action::Insert) => insert_vertex(alloc, naming, words),
        Some(Action::Move) => move_vertex(alloc, naming, words),
        Some(Action::Remove) => remove_vertex(alloc, naming, words),
        _ => Err(Refusal::BadCommand),
    }
}

fn insert_vertex(alloc: Global, naming: Naming, mut words: Words<'_>) -> Result<Command, Refusal>
    ensures { OrMemory (insert_vertex_of naming (words_of words.entry)) result }
{
    let layer = words.next()?;
    let id = words.next()?;
    let part = words.next()?;
    let ring = words.next()?;
    let index = words.next()?;
    let x = words.next()?;
    let y = words.next()?;
    words.finish()?;
    let place = place_of(naming, id, part, ring, index)?;
    let point = point_of(x, y)?;
    Ok(Command::Edit(Edit::InsertVertex {
        layer: text_of(alloc, layer)?,
        id: place.id,
        part: place.part,
        ring: place.ring,
        index: place.index,
        point,
    }))
}

fn move_vertex(alloc: Global, naming: Naming, mut words: Words<'_>) -> Result<Command, Refusal>
    ensures { OrMemory (move_vertex_of naming (words_of words.entry)) result }
{
    let layer = words.next()?;
    let id = words.next()?;
    let part = words.next()?;
    let ring = words.next()?;
    let index = words.next()?;
    let x = words.next()?;
    let y = words.next()?;
    words.finish()?;
    let place = place_of(naming, id, part, ring, index)?;
    let point = point_of(x, y)?;
    Ok(Command::Edit(Edit::MoveVertex {
        layer: text_of(alloc, layer)?,
        id: place.id,
        part: place.part,
        ring: place.ring,
        index: place.index,
        point,
    }))
}

fn remove_vertex(alloc: Global, naming: Naming, mut words: Words<'_>) -> Result<Command, Refusal>
    ensures { OrMemory (remove_vertex_of naming (words_of words.entry)) result }
{
    let layer = words.next()?;
    let id = words.next()?;
    let part = words.next()?;
    let ring = words.next()?;
    let index = words.next()?;
    words.finish()?;
    let place = place_of(naming, id, part, ring, index)?;
    Ok(Command::Edit(Edit::RemoveVertex {
        layer: text_of(alloc, layer)?,
        id: place.id,
        part: place.part,
        ring: place.ring,
        index: place.index,
    }))
}
