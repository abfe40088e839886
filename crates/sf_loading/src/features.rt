//! The features of a layer.
ghost use Rattle.std.specs.Prelude.{◌≡◌, ◌&&◌, ◌<◌, [], nat_le, nat_lt, length, IfOk};
ghost use Rattle.sf_wkb.specs.Grammar.{read_in};
ghost use Rattle.sf_layers.specs.WellFormed.{IsFeature, IsLayer};
ghost use Rattle.sf_format.specs.declared.defect.Defect.TheVariants.{IdsExhausted, NoColumn};
ghost use Rattle.sf_format.specs.Readings.{field, items, number};
ghost use Rattle.sf_format.specs.Format.{allowed as allowed_of, feature as feature_of, next_of};
ghost use Rattle.sf_loading.specs.Streaming.{Gives};
ghost use Rattle.sf_loading.specs.Types.{AreTypesOf, feature_above};

use super::columns::ColumnTypes;
use super::fields::allowed;
use super::geometries::geometry;
use super::halt::Halt;
use super::numbers::{number_u16, number_u32};
use super::values::values;
use sf_features::Feature;
use sf_format::Defect;
use sf_layers::Layer;
use sf_streams::Window;
use sf_wkb::Grid;
use std::alloc::Global;
use std::io::Read;

fn is_next(previous: u32, id: u32, next_id: u32) -> bool
    ensures { result ≡ (nat_lt previous id && nat_lt id next_id) }
{
    previous < id && id < next_id
}

/// The identifier of a feature, which is above the one before and below the layer's next one.
fn feature_id<R: Read>(
    window: &mut Window,
    reader: &mut R,
    next_id: u32,
    previous: u32,
) -> Result<u32, Halt>
    ensures { Gives (λ n. n) (field (number 4) (next_of next_id previous)) (R.remaining reader.old)
        (R.remaining reader.new) window.old window.new result }
{
    let place = window.place();
    let id = number_u32(window, reader)?;
    allowed(
        is_next(previous, id, next_id),
        place,
        Defect::IdsExhausted,
        id,
    )
}

/// How many values a feature has.
fn value_count<R: Read>(window: &mut Window, reader: &mut R, layer: &Layer) -> Result<u16, Halt>
    ensures { Gives (λ n. n) (field (number 2) (λ n. allowed_of (nat_le n (length layer.now.columns)) NoColumn n))
        (R.remaining reader.old) (R.remaining reader.new) window.old window.new result }
{
    let place = window.place();
    let count = number_u16(window, reader)?;
    let room = count as usize <= layer.column_count();
    allowed(room, place, Defect::NoColumn, count)
}

/// A feature of a layer, behind its identifier, which is above the one before.
fn feature<R: Read>(
    alloc: Global,
    window: &mut Window,
    reader: &mut R,
    grid: Grid,
    layer: &Layer,
    types: &ColumnTypes,
    previous: u32,
) -> Result<(u32, Feature), Halt>
    requires { AreTypesOf types.now layer.now.columns }
    ensures gives { Gives (λ f. f) (feature_above (read_in grid) layer.now.kind layer.now.next_id layer.now.columns previous)
        (R.remaining reader.old) (R.remaining reader.new) window.old window.new result }
    ensures fits { IfOk result (λ f. IsFeature layer.now.kind layer.now.columns f.1) }
    ensures between { IfOk result (λ f. (previous < f.0) × (f.0 < layer.now.next_id)) }
{
    let id = feature_id(window, reader, layer.next_id(), previous)?;
    let valid = geometry(alloc, window, reader, grid, layer.kind())?;
    let count = value_count(window, reader, layer)?;
    let mut feature = Feature::new(alloc, valid);
    values(alloc, window, reader, types, count, &mut feature)?;
    Ok((id, feature))
}

/// How many features a layer has.
pub(crate) fn feature_count<R: Read>(
    window: &mut Window,
    reader: &mut R,
    next_id: u32,
) -> Result<u32, Halt>
    ensures { Gives (λ n. n) (field (number 4) (λ n. allowed_of (nat_lt n next_id) IdsExhausted n))
        (R.remaining reader.old) (R.remaining reader.new) window.old window.new result }
{
    let place = window.place();
    let count = number_u32(window, reader)?;
    allowed(count < next_id, place, Defect::IdsExhausted, count)
}

/// The features of a layer that has none yet. How many there are was read before.
pub(crate) fn features<R: Read>(
    alloc: Global,
    window: &mut Window,
    reader: &mut R,
    grid: Grid,
    layer: &mut Layer,
    types: &ColumnTypes,
    count: u32,
) -> Result<(), Halt>
    requires types { AreTypesOf types.now layer.old.columns }
    requires empty { layer.old.features ≡ [] }
    requires fits { IsLayer layer.old }
    ensures gives { Gives (λ _. layer.new.features) (items (feature_of (read_in grid) layer.old.kind layer.old.next_id layer.old.columns) count [])
        (R.remaining reader.old) (R.remaining reader.new) window.old window.new result }
    ensures kept { layer.new ≡ record layer.old { features = layer.new.features } }
    ensures fits { IsLayer layer.new }
{
    let mut previous = 0;
    for _ in 0..count {
        let (id, feature) = feature(alloc, window, reader, grid, layer, types, previous)?;
        if layer.put_feature(alloc, id, feature).is_err() {
            return Err(Halt::Memory);
        }
        previous = id;
    }
    Ok(())
}
