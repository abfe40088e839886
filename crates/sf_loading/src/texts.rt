//! Names and texts of a file.
ghost use Rattle.std.specs.Prelude.{◌≡◌, ◌≤◌, ◌&&◌, nat_le, length, take, List, ℕ, IfOk, option_copied, option_map};
ghost use Rattle.sf_features.specs.Names.{is_name as is_name_of};
ghost use Rattle.sf_streams.specs.Streams.{ahead_max};
ghost use Rattle.sf_format.specs.declared.defect.Defect.TheVariants.{BadName};
ghost use Rattle.sf_format.specs.Readings.{field, number};
ghost use Rattle.sf_format.specs.Format.{allowed as allowed_of, fresh_column_name, fresh_layer_name, fresh_rule_name, known_column as known_column_of, known_layer_name, name as name_of, type_in as type_in_of};
ghost use Rattle.sf_loading.specs.Streaming.{Gives, GivesText, IsTextOf, Judges};

use super::fields::allowed;
use super::halt::Halt;
use super::numbers::{number_u8, require};
use sf_features::{Column, ColumnType, Text, is_name};
use sf_format::{Defect, KeptRules};
use sf_layers::{Layer, Store};
use sf_streams::Window;
use std::alloc::{AllocError, Global};
use std::io::Read;
use std::str::from_utf8;

/// How many bytes a name has at most.
const NAME_MAX: u8 = 32;

/// The text of the first bytes ahead, or None where they aren't UTF-8.
fn text_ahead(alloc: Global, window: &Window, size: usize) -> Result<Option<Text>, AllocError>
    requires { size ≤ length window.now.bytes }
    ensures { IfOk result (IsTextOf (take size window.now.bytes)) }
{
    match from_utf8(window.front(size)) {
        Ok(text) => Ok(Some(Text::from_string(String::from_str(alloc, text)?))),
        Err(_) => Ok(None),
    }
}

/// The text of the next bytes, or None where they aren't UTF-8.
pub(crate) fn text<R: Read>(
    alloc: Global,
    window: &mut Window,
    reader: &mut R,
    size: usize,
) -> Result<Option<Text>, Halt>
    requires { size ≤ ahead_max }
    ensures { GivesText size (R.remaining reader.old) (R.remaining reader.new) window.old window.new result }
{
    require(window, reader, size)?;
    let text = text_ahead(alloc, window, size)?;
    window.skip(size);
    Ok(text)
}

fn is_name_size(size: u8) -> bool
    ensures { result ≡ (nat_le 1 size && nat_le size 32) }
{
    1 <= size && size <= NAME_MAX
}

/// The length of a name.
fn name_size<R: Read>(window: &mut Window, reader: &mut R) -> Result<u8, Halt>
    ensures { Gives (λ n. n) (field (number 1) (λ size. allowed_of (nat_le 1 size && nat_le size 32) BadName size))
        (R.remaining reader.old) (R.remaining reader.new) window.old window.new result }
{
    let place = window.place();
    let size = number_u8(window, reader)?;
    allowed(is_name_size(size), place, Defect::BadName, size)
}

/// The name that a text at a place is.
fn named(place: u64, text: Option<Text>) -> Result<Text, Halt>
    ensures { (found : List ℕ) → IsTextOf found text →
        Judges (λ x. x) place (allowed_of (is_name_of found) BadName found) result }
{
    match text {
        Some(text) => allowed(is_name(text.as_str()), place, Defect::BadName, text),
        None => Err(Halt::Found(place, Defect::BadName)),
    }
}

/// A name, behind its length.
fn name<R: Read>(alloc: Global, window: &mut Window, reader: &mut R) -> Result<Text, Halt>
    ensures { Gives (λ t. t) name_of (R.remaining reader.old) (R.remaining reader.new) window.old window.new result }
{
    let place = window.place();
    let size = name_size(window, reader)?;
    let text = text(alloc, window, reader, size as usize)?;
    named(place, text)
}

/// A name that no layer of the store has.
pub(crate) fn layer_name<R: Read>(
    alloc: Global,
    window: &mut Window,
    reader: &mut R,
    store: &Store,
) -> Result<Text, Halt>
    ensures { Gives (λ t. t) (field name_of (fresh_layer_name store.now)) (R.remaining reader.old)
        (R.remaining reader.new) window.old window.new result }
{
    let place = window.place();
    let name = name(alloc, window, reader)?;
    let free = store.place(name.as_str()).is_none();
    allowed(free, place, Defect::LayerExists, name)
}

/// A name that no column of the layer has.
pub(crate) fn column_name<R: Read>(
    alloc: Global,
    window: &mut Window,
    reader: &mut R,
    layer: &Layer,
) -> Result<Text, Halt>
    ensures { Gives (λ t. t) (field name_of (fresh_column_name layer.now.columns)) (R.remaining reader.old)
        (R.remaining reader.new) window.old window.new result }
{
    let place = window.place();
    let name = name(alloc, window, reader)?;
    let free = layer.column_place(name.as_str()).is_none();
    allowed(free, place, Defect::ColumnExists, name)
}

/// A name that no rule has.
pub(crate) fn rule_name<R: Read>(
    alloc: Global,
    window: &mut Window,
    reader: &mut R,
    rules: &KeptRules,
) -> Result<Text, Halt>
    ensures { Gives (λ t. t) (field name_of (fresh_rule_name rules.now)) (R.remaining reader.old)
        (R.remaining reader.new) window.old window.new result }
{
    let place = window.place();
    let name = name(alloc, window, reader)?;
    let free = rules.place(name.as_str()).is_none();
    allowed(free, place, Defect::RuleExists, name)
}

/// A name that a layer of the store has.
pub(crate) fn known_layer<R: Read>(
    alloc: Global,
    window: &mut Window,
    reader: &mut R,
    store: &Store,
) -> Result<Text, Halt>
    ensures { Gives (λ t. t) (field name_of (known_layer_name store.now)) (R.remaining reader.old)
        (R.remaining reader.new) window.old window.new result }
{
    let place = window.place();
    let name = name(alloc, window, reader)?;
    let known = store.place(name.as_str()).is_some();
    allowed(known, place, Defect::NoLayer, name)
}

/// The type of the column of a name, where the layer is there and has one.
fn type_in(layer: Option<&Layer>, name: &str) -> Option<ColumnType>
    ensures { result ≡ type_in_of (option_copied layer.entry) name.now }
{
    match layer {
        Some(layer) => column_type(layer.column(name)),
        None => None,
    }
}

/// The type of a column, where it is there.
fn column_type(column: Option<&Column>) -> Option<ColumnType>
    ensures { result ≡ option_map (λ column. column.column_type) (option_copied column.entry) }
{
    match column {
        Some(column) => Some(column.column_type),
        None => None,
    }
}

/// A name that a column of a layer of the store has, and the type of that column.
pub(crate) fn known_column<R: Read>(
    alloc: Global,
    window: &mut Window,
    reader: &mut R,
    store: &Store,
    layer: &str,
) -> Result<(Text, ColumnType), Halt>
    ensures { Gives (λ column. column) (field name_of (known_column_of store.now layer.now)) (R.remaining reader.old)
        (R.remaining reader.new) window.old window.new result }
{
    let place = window.place();
    let name = name(alloc, window, reader)?;
    match type_in(store.layer(layer), name.as_str()) {
        Some(column_type) => Ok((name, column_type)),
        None => Err(Halt::Found(place, Defect::NoColumn)),
    }
}
