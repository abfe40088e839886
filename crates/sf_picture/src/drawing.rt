//! A whole picture, to a writer.
ghost use Rattle.std.specs.Prelude.{OnErr, OnOk};
ghost use Rattle.std.specs.Io.KnownBytes.{Appends};
ghost use Rattle.sf_picture.specs.Pictures.{picture};
ghost use Rattle.sf_streams.specs.Streams.{WritesFront};

use super::choice::Choice;
use super::draw_fault::DrawFault;
use super::framing::{push_back, push_front};
use super::layers::put_layers;
use super::view::View;
use sf_layers::Store;
use sf_streams::Output;
use std::alloc::Global;
use std::io::Write;

/// Writes the picture of a store, and flushes the writer.
///
/// # Errors
///
/// `Write` where the writer fails or takes no byte, `Memory` where no memory is found. A front of the
/// picture was written then.
pub fn draw<W: Write>(
    alloc: Global,
    store: &Store,
    choice: &Choice,
    view: &View,
    writer: &mut W,
) -> Result<(), DrawFault>
    ensures ok { OnOk result (Appends (W.contents writer.old) (W.contents writer.new)
        (picture choice.now view.now store.now)) }
    ensures broken { OnErr result (WritesFront (W.contents writer.old) (W.contents writer.new)
        (picture choice.now view.now store.now)) }
{
    let mut output = Output::new(alloc)?;
    let mut text = String::new(alloc);
    push_front(&mut text, view)?;
    output.put(writer, text.as_bytes())?;
    put_layers(&mut output, &mut text, writer, choice, view, store)?;
    text.clear();
    push_back(&mut text, choice, view, store)?;
    output.put(writer, text.as_bytes())?;
    output.finish(writer)?;
    Ok(())
}
