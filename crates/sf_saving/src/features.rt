//! The features of a layer.
ghost use Rattle.std.specs.Prelude.{◌++◌, flat_map, OnErr, OnOk};
ghost use Rattle.std.specs.List.{AllByRecursion};
ghost use Rattle.std.specs.Map.{values_of};
ghost use Rattle.sf_geometry.specs.Size.{IsSized};
ghost use Rattle.sf_wkb.specs.Grammar.{canonical as canonical_wkb};
ghost use Rattle.sf_format.specs.Canonical.{behind_length, feature_bytes};
ghost use Rattle.sf_saving.specs.Fits.{FeatureFits};
ghost use Rattle.sf_streams.specs.Streams.{Puts, WritesFront};

use super::save_fault::SaveFault;
use super::values::put_values;
use sf_geometry::Geometry;
use sf_layers::{Feature, Layer};
use sf_streams::Output;
use std::io::Write;

/// Puts the canonical binary form of a geometry behind its length. It is written to `row` first,
/// whatever stands there.
fn put_geometry<W: Write>(
    output: &mut Output,
    row: &mut Vec<u8>,
    writer: &mut W,
    geometry: &Geometry,
) -> Result<(), SaveFault>
    requires { IsSized geometry.now }
    ensures ok { OnOk result (Puts (W.contents writer.old) (W.contents writer.new) output.old output.new
        (behind_length 4 (canonical_wkb geometry.now))) }
    ensures broken { OnErr result (WritesFront (W.contents writer.old) (W.contents writer.new)
        (output.old ++ behind_length 4 (canonical_wkb geometry.now))) }
{
    row.clear();
    sf_wkb::append(row, geometry)?;
    let bytes = row.as_slice();
    output.put_u32(writer, bytes.len() as u32)?;
    output.put(writer, bytes)?;
    Ok(())
}

/// Puts a feature of a layer behind its identifier.
fn put_feature<W: Write>(
    output: &mut Output,
    row: &mut Vec<u8>,
    writer: &mut W,
    layer: &Layer,
    id: u32,
    feature: &Feature,
) -> Result<(), SaveFault>
    requires { FeatureFits feature.now }
    ensures ok { OnOk result (Puts (W.contents writer.old) (W.contents writer.new) output.old output.new
        (feature_bytes layer.now.columns (id, feature.now))) }
    ensures broken { OnErr result (WritesFront (W.contents writer.old) (W.contents writer.new)
        (output.old ++ feature_bytes layer.now.columns (id, feature.now))) }
{
    output.put_u32(writer, id)?;
    put_geometry(output, row, writer, feature.valid().geometry())?;
    output.put_u16(writer, feature.value_count() as u16)?;
    put_values(output, writer, layer, feature.values())?;
    Ok(())
}

/// Puts the features of a layer, by rising identifier.
pub(crate) fn put_features<W: Write>(
    output: &mut Output,
    row: &mut Vec<u8>,
    writer: &mut W,
    layer: &Layer,
) -> Result<(), SaveFault>
    requires { AllByRecursion FeatureFits (values_of layer.now.features) }
    ensures ok { OnOk result (Puts (W.contents writer.old) (W.contents writer.new) output.old output.new
        (flat_map (feature_bytes layer.now.columns) layer.now.features)) }
    ensures broken { OnErr result (WritesFront (W.contents writer.old) (W.contents writer.new)
        (output.old ++ flat_map (feature_bytes layer.now.columns) layer.now.features)) }
{
    for (id, feature) in layer.features() {
        put_feature(output, row, writer, layer, *id, feature)?;
    }
    Ok(())
}
