//! The layers of a picture.
ghost use Rattle.std.specs.Prelude.{◌≡◌, ◌++◌, flat_map, string_bytes, OnErr, OnOk};
ghost use Rattle.sf_picture.specs.Pictures.{feature_text, layer_head, layer_text, layers_text, shown_layer_text};
ghost use Rattle.sf_streams.specs.Streams.{Puts, WritesFront};

use super::choice::Choice;
use super::draw_fault::DrawFault;
use super::elements::push_element;
use super::view::View;
use sf_layers::{Feature, Layer, Store};
use sf_streams::Output;
use std::alloc::AllocError;
use std::io::Write;

/// How many tints the style knows.
pub(crate) const TINT_COUNT: usize = 8;

/// What stands behind the features of a layer.
const LAYER_END: &str = "</g>\n";

/// Puts what stands before the features of a layer behind a text.
fn push_layer_head(text: &mut String, place: usize, name: &str) -> Result<(), AllocError>
    ensures { OnOk result (string_bytes text.new ≡ string_bytes text.old ++ layer_head place name.now) }
{
    let tint = place % TINT_COUNT;
    writeln!(text, "<g id='{name}' class='layer tint-{tint}'>")
}

/// Puts a feature of the layer of a name, if it is shown. Its element is written to `text` first,
/// whatever stands there.
fn put_feature<W: Write>(
    output: &mut Output,
    text: &mut String,
    writer: &mut W,
    choice: &Choice,
    view: &View,
    name: &str,
    id: u32,
    feature: &Feature,
) -> Result<(), DrawFault>
    ensures ok { OnOk result (Puts (W.contents writer.old) (W.contents writer.new) output.old output.new
        (feature_text choice.now view.now name.now (id, feature.now))) }
    ensures broken { OnErr result (WritesFront (W.contents writer.old) (W.contents writer.new)
        (output.old ++ feature_text choice.now view.now name.now (id, feature.now))) }
{
    if choice.shows_geometry(feature.valid().geometry()) {
        text.clear();
        push_element(text, view, name, id, feature)?;
        output.put(writer, text.as_bytes())?;
    }
    Ok(())
}

/// Puts the features of the layer of a name that are shown, by rising identifier.
fn put_features<W: Write>(
    output: &mut Output,
    text: &mut String,
    writer: &mut W,
    choice: &Choice,
    view: &View,
    name: &str,
    layer: &Layer,
) -> Result<(), DrawFault>
    ensures ok { OnOk result (Puts (W.contents writer.old) (W.contents writer.new) output.old output.new
        (flat_map (feature_text choice.now view.now name.now) layer.now.features)) }
    ensures broken { OnErr result (WritesFront (W.contents writer.old) (W.contents writer.new)
        (output.old ++ flat_map (feature_text choice.now view.now name.now) layer.now.features)) }
{
    for (id, feature) in layer.features() {
        put_feature(output, text, writer, choice, view, name, *id, feature)?;
    }
    Ok(())
}

/// Puts the layer at a place of the order, if it is shown.
fn put_layer<W: Write>(
    output: &mut Output,
    text: &mut String,
    writer: &mut W,
    choice: &Choice,
    view: &View,
    place: usize,
    name: &str,
    layer: &Layer,
) -> Result<(), DrawFault>
    ensures ok { OnOk result (Puts (W.contents writer.old) (W.contents writer.new) output.old output.new
        (layer_text choice.now view.now place (name.now, layer.now))) }
    ensures broken { OnErr result (WritesFront (W.contents writer.old) (W.contents writer.new)
        (output.old ++ layer_text choice.now view.now place (name.now, layer.now))) }
{
    if choice.shows_layer(name) {
        put_shown_layer(output, text, writer, choice, view, place, name, layer)?;
    }
    Ok(())
}

/// Puts the layer at a place of the order.
fn put_shown_layer<W: Write>(
    output: &mut Output,
    text: &mut String,
    writer: &mut W,
    choice: &Choice,
    view: &View,
    place: usize,
    name: &str,
    layer: &Layer,
) -> Result<(), DrawFault>
    ensures ok { OnOk result (Puts (W.contents writer.old) (W.contents writer.new) output.old output.new
        (shown_layer_text choice.now view.now place (name.now, layer.now))) }
    ensures broken { OnErr result (WritesFront (W.contents writer.old) (W.contents writer.new)
        (output.old ++ shown_layer_text choice.now view.now place (name.now, layer.now))) }
{
    text.clear();
    push_layer_head(text, place, name)?;
    output.put(writer, text.as_bytes())?;
    put_features(output, text, writer, choice, view, name, layer)?;
    output.put(writer, LAYER_END.as_bytes())?;
    Ok(())
}

/// Puts the layers of a store that are shown, in drawing order.
pub(crate) fn put_layers<W: Write>(
    output: &mut Output,
    text: &mut String,
    writer: &mut W,
    choice: &Choice,
    view: &View,
    store: &Store,
) -> Result<(), DrawFault>
    ensures ok { OnOk result (Puts (W.contents writer.old) (W.contents writer.new) output.old output.new
        (layers_text choice.now view.now 0 store.now)) }
    ensures broken { OnErr result (WritesFront (W.contents writer.old) (W.contents writer.new)
        (output.old ++ layers_text choice.now view.now 0 store.now)) }
{
    for place in 0..store.layer_count() {
        let (name, layer) = store.layer_at(place).unwrap();
        put_layer(output, text, writer, choice, view, place, name, layer)?;
    }
    Ok(())
}
