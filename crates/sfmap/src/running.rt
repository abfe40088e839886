//! Runs: what is loaded and drawn, and in which order.

ghost use Rattle.std.specs.Prelude.{IfErr, OnOk};
ghost use Rattle.std.specs.Io.KnownBytes.{Appends};
ghost use Rattle.sfmap.specs.Drawings.{Breaks, Draws, DrawsFrom, EndsEarly, IsMissing};

use sf_layers::Store;
use sf_loading::{LoadFault, load};
use sf_picture::{Choice, DrawFault, View, draw};
use std::alloc::Global;
use std::io::{Read, Write};

/// Why no whole picture was drawn.
#[derive(Debug, Drop)]
pub enum RunFault {
    /// The file could not be loaded. Nothing was written.
    Load(LoadFault),
    /// A layer was named that the store has not: the first such name. Nothing was written.
    MissingLayer(String),
    /// A layer was named that the store has not, and no memory was found for its name. Nothing was written.
    Memory,
    /// The picture was begun. A front of it was written.
    Draw(DrawFault),
}

/// Writes the picture of the store that a file's bytes are, of a width in pixels, and flushes the writer.
///
/// # Errors
///
/// As those of `load` and of `draw`. `MissingLayer` or `Memory` where the choice names a layer that the store
/// has not.
pub fn draw_from<R: Read, W: Write>(
    alloc: Global,
    file: &mut R,
    choice: &Choice,
    width: u32,
    picture: &mut W,
) -> Result<(), RunFault>
    // The file's bytes have a content with all layers that are named, and its picture was written whole.
    ensures ok { OnOk result (DrawsFrom (R.remaining file.old) (R.remaining file.new) choice.now width
        (Appends (W.contents picture.old) (W.contents picture.new))) }

    // The bytes have none, or not all layers, and nothing was written; or a front of the picture was.
    ensures fault { IfErr result (λ fault. Breaks fault (R.remaining file.old) (R.remaining file.new) choice.now width
        (W.contents picture.old) (W.contents picture.new)) }
{
    match load(alloc, file) {
        Err(fault) => Err(RunFault::Load(fault)),
        Ok(ruled) => draw_store(alloc, ruled.store(), choice, width, picture),
    }
}

/// Writes the picture of a store that has all layers that are named.
fn draw_store<W: Write>(
    alloc: Global,
    store: &Store,
    choice: &Choice,
    width: u32,
    picture: &mut W,
) -> Result<(), RunFault>
    ensures ok { OnOk result (Draws choice.now store.now width
        (Appends (W.contents picture.old) (W.contents picture.new))) }
    ensures fault { IfErr result (λ fault. EndsEarly fault choice.now store.now width
        (W.contents picture.old) (W.contents picture.new)) }
{
    if let Some(name) = choice.missing_layer(store) {
        return Err(missing(alloc, name));
    }
    let view = View::of(store, choice, width);
    match draw(alloc, store, choice, &view, picture) {
        Ok(()) => Ok(()),
        Err(fault) => Err(RunFault::Draw(fault)),
    }
}

/// The fault of a name that no layer of the store has.
fn missing(alloc: Global, name: &str) -> RunFault
    ensures { IsMissing name.now result }
{
    match String::from_str(alloc, name) {
        Ok(name) => RunFault::MissingLayer(name),
        Err(_) => RunFault::Memory,
    }
}
