//! The layers of a store.
ghost use Rattle.std.specs.Prelude.{◌≡◌, ◌++◌, OnErr, OnOk};
ghost use Rattle.sf_format.specs.Canonical.{kind_byte as kind_byte_of, layer_bytes, layers_bytes};
ghost use Rattle.sf_saving.specs.Fits.{EntryFits};
ghost use Rattle.sf_streams.specs.Streams.{Puts, WritesFront};

use super::columns::put_columns;
use super::features::put_features;
use super::fields::put_name;
use super::save_fault::SaveFault;
use sf_geometry::Kind;
use sf_layers::{Layer, LayerKind, Store};
use sf_streams::Output;
use std::io::Write;

/// The byte of a layer's kind.
fn kind_byte(kind: LayerKind) -> u8
    ensures { result ≡ kind_byte_of kind }
{
    match kind {
        LayerKind::Any => 0,
        LayerKind::Only(Kind::Point) => 1,
        LayerKind::Only(Kind::LineString) => 2,
        LayerKind::Only(Kind::Polygon) => 3,
        LayerKind::Only(Kind::MultiPoint) => 4,
        LayerKind::Only(Kind::MultiLineString) => 5,
        LayerKind::Only(Kind::MultiPolygon) => 6,
    }
}

/// Puts a layer behind its name: its kind and counters, its columns and its features.
fn put_layer<W: Write>(
    output: &mut Output,
    row: &mut Vec<u8>,
    writer: &mut W,
    name: &str,
    layer: &Layer,
) -> Result<(), SaveFault>
    requires { EntryFits (name.now, layer.now) }
    ensures ok { OnOk result (Puts (W.contents writer.old) (W.contents writer.new) output.old output.new
        (layer_bytes (name.now, layer.now))) }
    ensures broken { OnErr result (WritesFront (W.contents writer.old) (W.contents writer.new)
        (output.old ++ layer_bytes (name.now, layer.now))) }
{
    put_name(output, writer, name)?;
    output.put_u8(writer, kind_byte(layer.kind()))?;
    output.put_u32(writer, layer.next_id())?;
    output.put_u16(writer, layer.next_column())?;
    output.put_u16(writer, layer.column_count() as u16)?;
    put_columns(output, writer, layer)?;
    output.put_u32(writer, layer.feature_count() as u32)?;
    put_features(output, row, writer, layer)
}

/// Puts the layers of a store behind their number.
pub(crate) fn put_layers<W: Write>(
    output: &mut Output,
    row: &mut Vec<u8>,
    writer: &mut W,
    store: &Store,
) -> Result<(), SaveFault>
    ensures ok { OnOk result (Puts (W.contents writer.old) (W.contents writer.new) output.old output.new
        (layers_bytes store.now)) }
    ensures broken { OnErr result (WritesFront (W.contents writer.old) (W.contents writer.new)
        (output.old ++ layers_bytes store.now)) }
{
    let count = store.layer_count();
    output.put_u32(writer, count as u32)?;
    for place in 0..count {
        let (name, layer) = store.layer_at(place).unwrap();
        put_layer(output, row, writer, name, layer)?;
    }
    Ok(())
}
