//! Commands about whole features and their geometries. Names are copied first: a geometry has more to drop where memory
//! runs out.
ghost use Rattle.std.specs.Prelude.{◌≡◌};
ghost use Rattle.sf_commands.specs.Commands.{add_arguments as add_command_of, addhex_arguments as addhex_command_of, check_arguments as check_command_of, delete_arguments as delete_command_of, replace_arguments as replace_command_of, set_arguments as set_command_of, unset_arguments as unset_command_of, feature_arguments as feature_command_of, feature_named, of_layer, OrMemory};
ghost use Rattle.sf_commands.specs.declared.command.Command.TheVariants.{Show, Hex, Simple, Extent};
ghost use Rattle.sf_words.specs.Words.{words as words_of, skip_blanks, skip_word};

use super::command::Command;
use sf_features::Text;
use sf_refusals::Refusal;
use sf_steps::Edit;
use sf_values::{text_of, value_of};
use sf_words::{Naming, Words, bytes_of, id_named, trimmed_end};
use std::alloc::Global;

/// The text is the rest of the line from the second word after `add` on.
pub(crate) fn add_arguments(alloc: Global, mut words: Words<'_>) -> Result<Command, Refusal>
    ensures { OrMemory (add_command_of (words_of words.entry) (skip_blanks (skip_word words.entry))) result }
{
    let layer = words.next()?;
    let text = words.rest()?;
    let layer = text_of(alloc, layer)?;
    let geometry = sf_wkt::read(alloc, text)?;
    Ok(Command::Edit(Edit::AddFeature { layer, geometry }))
}

/// The text is the rest of the line from the second word after `check` on.
pub(crate) fn check_arguments(alloc: Global, mut words: Words<'_>) -> Result<Command, Refusal>
    ensures { OrMemory (check_command_of (words_of words.entry) (skip_blanks (skip_word words.entry))) result }
{
    let layer = words.next()?;
    let text = words.rest()?;
    let layer = text_of(alloc, layer)?;
    let geometry = sf_wkt::read(alloc, text)?;
    Ok(Command::Check(layer, geometry))
}

/// The binary is one word of hexadecimal.
pub(crate) fn addhex_arguments(alloc: Global, mut words: Words<'_>) -> Result<Command, Refusal>
    ensures { OrMemory (addhex_command_of (words_of words.entry)) result }
{
    let layer = words.next()?;
    let text = words.next()?;
    words.finish()?;
    let layer = text_of(alloc, layer)?;
    let bytes = bytes_of(alloc, text)?;
    let geometry = sf_wkb::read(alloc, &bytes)?;
    Ok(Command::Edit(Edit::AddFeature { layer, geometry }))
}

/// The command of the words after `delete`.
pub(crate) fn delete_arguments(
    alloc: Global,
    naming: Naming,
    words: Words<'_>,
) -> Result<Command, Refusal>
    ensures { OrMemory (delete_command_of naming (words_of words.entry)) result }
{
    let (layer, id) = feature_of(alloc, naming, words)?;
    Ok(Command::Edit(Edit::DeleteFeature { layer, id }))
}

/// The text is the rest of the line from the third word after `replace` on.
pub(crate) fn replace_arguments(
    alloc: Global,
    naming: Naming,
    mut words: Words<'_>,
) -> Result<Command, Refusal>
    ensures { OrMemory (replace_command_of naming (words_of words.entry) (skip_blanks (skip_word (skip_word words.entry)))) result }
{
    let layer = words.next()?;
    let id = words.next()?;
    let text = words.rest()?;
    let id = id_named(naming, id).ok_or(Refusal::BadCommand)?;
    let layer = text_of(alloc, layer)?;
    let geometry = sf_wkt::read(alloc, text)?;
    Ok(Command::Edit(Edit::ReplaceGeometry {
        layer,
        id,
        geometry,
    }))
}

/// The value is the rest of the line from the fourth word after `set` on, without blanks at its end.
pub(crate) fn set_arguments(
    alloc: Global,
    naming: Naming,
    mut words: Words<'_>,
) -> Result<Command, Refusal>
    ensures { OrMemory (set_command_of naming (words_of words.entry) (skip_blanks (skip_word (skip_word (skip_word words.entry))))) result }
{
    let layer = words.next()?;
    let id = words.next()?;
    let column = words.next()?;
    let text = words.rest()?;
    let id = id_named(naming, id).ok_or(Refusal::BadCommand)?;
    let value = value_of(alloc, trimmed_end(text))?;
    let value = value.ok_or(Refusal::BadCommand)?;
    let layer = text_of(alloc, layer)?;
    let column = text_of(alloc, column)?;
    Ok(Command::Edit(Edit::SetValue {
        layer,
        id,
        column,
        value,
    }))
}

/// The command of the words after `unset`.
pub(crate) fn unset_arguments(
    alloc: Global,
    naming: Naming,
    mut words: Words<'_>,
) -> Result<Command, Refusal>
    ensures { OrMemory (unset_command_of naming (words_of words.entry)) result }
{
    let layer = words.next()?;
    let id = words.next()?;
    let column = words.next()?;
    words.finish()?;
    let id = id_named(naming, id).ok_or(Refusal::BadCommand)?;
    let layer = text_of(alloc, layer)?;
    let column = text_of(alloc, column)?;
    Ok(Command::Edit(Edit::ClearValue { layer, id, column }))
}

/// The command of the words after `show`.
pub(crate) fn show_arguments(alloc: Global, mut words: Words<'_>) -> Result<Command, Refusal>
    ensures { OrMemory (of_layer Show (words_of words.entry)) result }
{
    let layer = words.next()?;
    words.finish()?;
    Ok(Command::Show(text_of(alloc, layer)?))
}

/// The command of the words after `hex`.
pub(crate) fn hex_arguments(alloc: Global, words: Words<'_>) -> Result<Command, Refusal>
    ensures { OrMemory (feature_command_of Hex (words_of words.entry)) result }
{
    let (layer, id) = feature_of(alloc, Naming::ById, words)?;
    Ok(Command::Hex(layer, id))
}

/// The command of the words after `box`.
pub(crate) fn box_arguments(alloc: Global, words: Words<'_>) -> Result<Command, Refusal>
    ensures { OrMemory (feature_command_of Extent (words_of words.entry)) result }
{
    let (layer, id) = feature_of(alloc, Naming::ById, words)?;
    Ok(Command::Extent(layer, id))
}

/// The command of the words after `simple`.
pub(crate) fn simple_arguments(alloc: Global, words: Words<'_>) -> Result<Command, Refusal>
    ensures { OrMemory (feature_command_of Simple (words_of words.entry)) result }
{
    let (layer, id) = feature_of(alloc, Naming::ById, words)?;
    Ok(Command::Simple(layer, id))
}

/// The layer and the identifier that are all words of a line.
fn feature_of(alloc: Global, naming: Naming, mut words: Words<'_>) -> Result<(Text, u32), Refusal>
    ensures { OrMemory (feature_named naming (words_of words.entry)) result }
{
    let layer = words.next()?;
    let id = words.next()?;
    words.finish()?;
    let id = id_named(naming, id).ok_or(Refusal::BadCommand)?;
    Ok((text_of(alloc, layer)?, id))
}
