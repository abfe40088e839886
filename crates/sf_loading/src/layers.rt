//! The layers of a store.
ghost use Rattle.std.specs.Prelude.{◌≡◌, ◌≤◌, None, [], nat_le, nat_lt, IfOk, IsTrue};
ghost use Rattle.sf_wkb.specs.Grammar.{read_in};
ghost use Rattle.sf_features.specs.Names.{is_name};
ghost use Rattle.sf_layers.specs.Content.{layer_of};
ghost use Rattle.sf_layers.specs.WellFormed.{IsLayer, layers_max};
ghost use Rattle.sf_format.specs.declared.defect.Defect.TheVariants.{ColumnsExhausted, IdsExhausted, WrongKind};
ghost use Rattle.sf_format.specs.Readings.{field, items, number};
ghost use Rattle.sf_format.specs.Format.{RowReading, allowed as allowed_of, kind_of_byte as kind_of_byte_of, layer as read_layer, layers as read_layers, present as present_of};
ghost use Rattle.sf_loading.specs.Streaming.{Gives, Reaches};
ghost use Rattle.sf_loading.specs.Layers.{IsBare, layer_after_counters};

use super::columns::{column_count, columns};
use super::features::{feature_count, features};
use super::fields::{allowed, present};
use super::halt::Halt;
use super::numbers::{number_u8, number_u16, number_u32};
use super::texts::layer_name;
use sf_features::Text;
use sf_format::Defect;
use sf_geometry::Kind;
use sf_layers::{LAYERS_MAX, Layer, LayerKind, Store};
use sf_streams::Window;
use sf_wkb::Grid;
use std::alloc::Global;
use std::io::Read;

fn kind_of_byte(byte: u8) -> Option<LayerKind>
    ensures { result ≡ kind_of_byte_of byte }
{
    match byte {
        0 => Some(LayerKind::Any),
        1 => Some(LayerKind::Only(Kind::Point)),
        2 => Some(LayerKind::Only(Kind::LineString)),
        3 => Some(LayerKind::Only(Kind::Polygon)),
        4 => Some(LayerKind::Only(Kind::MultiPoint)),
        5 => Some(LayerKind::Only(Kind::MultiLineString)),
        6 => Some(LayerKind::Only(Kind::MultiPolygon)),
        _ => None,
    }
}

/// The kind of a layer.
fn kind<R: Read>(window: &mut Window, reader: &mut R) -> Result<LayerKind, Halt>
    ensures { Gives (λ k. k) (field (number 1) (λ byte. present_of (kind_of_byte_of byte) WrongKind))
        (R.remaining reader.old) (R.remaining reader.new) window.old window.new result }
{
    let place = window.place();
    let byte = number_u8(window, reader)?;
    present(kind_of_byte(byte), place, Defect::WrongKind)
}

/// The identifier that a layer's next feature takes.
fn next_id<R: Read>(window: &mut Window, reader: &mut R) -> Result<u32, Halt>
    ensures { Gives (λ n. n) (field (number 4) (λ n. allowed_of (nat_lt 0 n) IdsExhausted n))
        (R.remaining reader.old) (R.remaining reader.new) window.old window.new result }
{
    let place = window.place();
    let id = number_u32(window, reader)?;
    allowed(id > 0, place, Defect::IdsExhausted, id)
}

/// The number that a layer's next column takes.
fn next_column<R: Read>(window: &mut Window, reader: &mut R) -> Result<u16, Halt>
    ensures { Gives (λ n. n) (field (number 2) (λ n. allowed_of (nat_lt 0 n) ColumnsExhausted n))
        (R.remaining reader.old) (R.remaining reader.new) window.old window.new result }
{
    let place = window.place();
    let number = number_u16(window, reader)?;
    allowed(number > 0, place, Defect::ColumnsExhausted, number)
}

/// The name of a layer, which no layer of the store has, and the layer with its kind and counters.
fn header<R: Read>(
    alloc: Global,
    window: &mut Window,
    reader: &mut R,
    store: &Store,
) -> Result<(Text, Layer), Halt>
    ensures reaches { (row : RowReading) → Reaches (read_layer row store.now) (layer_after_counters row) (R.remaining reader.old)
        (R.remaining reader.new) window.old window.new result }
    ensures bare { IfOk result (λ entry. IsBare entry.1) }
    ensures named { IfOk result (λ entry. IsTrue (is_name entry.0)) }
    ensures free { IfOk result (λ entry. layer_of store.now entry.0 ≡ None) }
{
    let name = layer_name(alloc, window, reader, store)?;
    let kind = kind(window, reader)?;
    let next_id = next_id(window, reader)?;
    let next_column = next_column(window, reader)?;
    let mut layer = Layer::unindexed(alloc, kind);
    layer.set_next_id(next_id);
    layer.set_next_column(next_column);
    Ok((name, layer))
}

/// A layer, behind its name, which no layer of the store has.
fn layer<R: Read>(
    alloc: Global,
    window: &mut Window,
    reader: &mut R,
    grid: Grid,
    store: &Store,
) -> Result<(Text, Layer), Halt>
    ensures gives { Gives (λ entry. entry) (read_layer (read_in grid) store.now) (R.remaining reader.old)
        (R.remaining reader.new) window.old window.new result }
    ensures fits { IfOk result (λ entry. IsLayer entry.1) }
    ensures named { IfOk result (λ entry. IsTrue (is_name entry.0)) }
    ensures free { IfOk result (λ entry. layer_of store.now entry.0 ≡ None) }
{
    let (name, mut layer) = header(alloc, window, reader, store)?;
    let column_count = column_count(window, reader, layer.next_column())?;
    let types = columns(alloc, window, reader, &mut layer, column_count)?;
    let feature_count = feature_count(window, reader, layer.next_id())?;
    features(
        alloc,
        window,
        reader,
        grid,
        &mut layer,
        &types,
        feature_count,
    )?;
    layer.reindex(alloc);
    Ok((name, layer))
}

/// How many layers there are.
fn layer_count<R: Read>(window: &mut Window, reader: &mut R) -> Result<u32, Halt>
    ensures gives { Gives (λ n. n) (field (number 4) (λ n. allowed_of (nat_le n layers_max) IdsExhausted n))
        (R.remaining reader.old) (R.remaining reader.new) window.old window.new result }
    ensures few { IfOk result (λ n. n ≤ layers_max) }
{
    let place = window.place();
    let count = number_u32(window, reader)?;
    if count as usize > LAYERS_MAX {
        return Err(Halt::Found(place, Defect::IdsExhausted));
    }
    Ok(count)
}

/// So many layers.
fn counted_layers<R: Read>(
    alloc: Global,
    window: &mut Window,
    reader: &mut R,
    grid: Grid,
    count: u32,
) -> Result<Store, Halt>
    requires { count ≤ layers_max }
    ensures { Gives (λ s. s) (items (read_layer (read_in grid)) count []) (R.remaining reader.old)
        (R.remaining reader.new) window.old window.new result }
{
    let mut store = Store::new(alloc);
    for _ in 0..count {
        let (name, layer) = layer(alloc, window, reader, grid, &store)?;
        let last = store.layer_count();
        if store.put_layer(alloc, last, name, layer).is_err() {
            return Err(Halt::Memory);
        }
    }
    Ok(store)
}

/// The layers of a store, behind their count, with geometries on a grid.
pub(crate) fn layers<R: Read>(
    alloc: Global,
    window: &mut Window,
    reader: &mut R,
    grid: Grid,
) -> Result<Store, Halt>
    ensures { Gives (λ s. s) (read_layers (read_in grid)) (R.remaining reader.old) (R.remaining reader.new)
        window.old window.new result }
{
    let count = layer_count(window, reader)?;
    counted_layers(alloc, window, reader, grid, count)
}
