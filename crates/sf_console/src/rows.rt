//! Answers of rows: their number, and a line for each.
ghost use Rattle.std.specs.Prelude.{◌≡◌, ◌++◌, ◌⊎◌, codes, decimal, flat_map, map, string_bytes, None, IfOk, IsSomeAnd, MatchResult, OnOk};
ghost use Rattle.sf_commands.specs.Commands.{each};
ghost use Rattle.sf_measure.specs.Texts.{measure_text};
ghost use Rattle.sf_console.specs.Answers.{column_rows as column_rows_of, column_type_word as column_type_word_of, feature_row, feature_rows as feature_rows_of, layer_kind_word as layer_kind_word_of, layer_row, line, measured_row, pair_row, row_under, rows, shown_value};

use sf_geometry::Kind;
use sf_layers::{Column, ColumnType, Feature, Layer, LayerKind, Store};
use sf_measure::{Measure, push_measure};
use sf_refusals::Refusal;
use std::alloc::{AllocError, Global};

/// A row for each layer, in order.
pub(crate) fn layer_rows(alloc: Global, store: &Store) -> Result<String, AllocError>
    ensures { IfOk result (λ text. string_bytes text ≡ rows (map layer_row store.now)) }
{
    let count = store.layer_count();
    let mut text = String::new(alloc);
    writeln!(text, "rows {count}")?;
    for place in 0..count {
        let (name, layer) = store.layer_at(place).unwrap();
        text.push_str(name)?;
        text.push(' ')?;
        text.push_str(layer_kind_word(layer.kind()))?;
        text.push('\n')?;
    }
    Ok(text)
}

/// The word of a layer's kind.
fn layer_kind_word(kind: LayerKind) -> &'static str
    ensures { result.now ≡ layer_kind_word_of kind }
{
    match kind {
        LayerKind::Any => "any",
        LayerKind::Only(Kind::Point) => "point",
        LayerKind::Only(Kind::LineString) => "linestring",
        LayerKind::Only(Kind::Polygon) => "polygon",
        LayerKind::Only(Kind::MultiPoint) => "multipoint",
        LayerKind::Only(Kind::MultiLineString) => "multilinestring",
        LayerKind::Only(Kind::MultiPolygon) => "multipolygon",
    }
}

/// A row for each column of a layer, in order.
pub(crate) fn column_rows(alloc: Global, layer: &Layer) -> Result<String, AllocError>
    ensures { IfOk result (λ text. string_bytes text ≡ rows (column_rows_of layer.now)) }
{
    let count = layer.column_count();
    let mut text = String::new(alloc);
    writeln!(text, "rows {count}")?;
    for place in 0..count {
        let column = layer.column_at(place).unwrap();
        text.push_str(column.name.as_str())?;
        text.push(' ')?;
        text.push_str(column_type_word(column.column_type))?;
        text.push('\n')?;
    }
    Ok(text)
}

/// The word of a column's type.
fn column_type_word(column_type: ColumnType) -> &'static str
    ensures { result.now ≡ column_type_word_of column_type }
{
    match column_type {
        ColumnType::Int => "int",
        ColumnType::Text => "text",
        ColumnType::Decimal => "decimal",
        ColumnType::Bool => "bool",
        ColumnType::Date => "date",
        ColumnType::DateTime => "datetime",
    }
}

/// A row for each feature of a layer, in rising order of the identifiers, with its values in the order
/// of the columns.
pub(crate) fn feature_rows(alloc: Global, layer: &Layer) -> Result<String, AllocError>
    ensures { IfOk result (λ text. string_bytes text ≡ rows (feature_rows_of layer.now)) }
{
    let mut text = String::new(alloc);
    writeln!(text, "rows {}", layer.feature_count())?;
    for (id, feature) in layer.features() {
        push_feature(alloc, &mut text, layer, *id, feature)?;
    }
    Ok(text)
}

/// A row for each of these identifiers, in their order. `NoFeature` where the layer has none under one of them,
/// `Memory` where no memory was found.
pub(crate) fn rows_under(alloc: Global, layer: &Layer, ids: &[u32]) -> Result<String, Refusal>
    ensures { MatchResult result
        (λ text. IsSomeAnd (each (row_under layer.now) ids.now) (λ texts. string_bytes text ≡ rows texts))
        (λ refusal. (refusal ≡ Refusal.Memory) ⊎ ((refusal ≡ Refusal.NoFeature) × (each (row_under layer.now) ids.now ≡ None))) }
{
    let mut text = String::new(alloc);
    writeln!(text, "rows {}", ids.len())?;
    for id in ids {
        let Some(feature) = layer.feature(*id) else {
            return Err(Refusal::NoFeature);
        };
        push_feature(alloc, &mut text, layer, *id, feature)?;
    }
    Ok(text)
}

/// The row of a feature of the layer, with its line feed.
fn push_feature(
    alloc: Global,
    text: &mut String,
    layer: &Layer,
    id: u32,
    feature: &Feature,
) -> Result<(), AllocError>
    ensures { OnOk result (string_bytes text.new
        ≡ string_bytes text.old ++ line (feature_row layer.now.columns (id, feature.now))) }
{
    write!(text, "{id} ")?;
    sf_wkt::append(alloc, text, feature.valid().geometry())?;
    push_values(text, layer, feature)?;
    text.push('\n')
}

/// A row for each of these identifiers, in their order: a measure of the feature under it. Refused as `rows_under` is.
pub(crate) fn measured_rows(
    alloc: Global,
    measure: Measure,
    layer: &Layer,
    ids: &[u32],
) -> Result<String, Refusal>
    ensures { MatchResult result
        (λ text. IsSomeAnd (each (measured_row measure layer.now) ids.now) (λ texts. string_bytes text ≡ rows texts))
        (λ refusal. (refusal ≡ Refusal.Memory) ⊎ ((refusal ≡ Refusal.NoFeature) × (each (measured_row measure layer.now) ids.now ≡ None))) }
{
    let mut text = String::new(alloc);
    writeln!(text, "rows {}", ids.len())?;
    for id in ids {
        let Some(feature) = layer.feature(*id) else {
            return Err(Refusal::NoFeature);
        };
        push_measured(&mut text, measure, *id, feature)?;
    }
    Ok(text)
}

/// The row of a measure of a feature, with its line feed.
fn push_measured(
    text: &mut String,
    measure: Measure,
    id: u32,
    feature: &Feature,
) -> Result<(), AllocError>
    ensures { OnOk result (string_bytes text.new
        ≡ string_bytes text.old ++ line (decimal id ++ (codes " " ++ measure_text measure feature.now.geometry))) }
{
    write!(text, "{id} ")?;
    push_measure(text, measure, feature.valid().geometry())?;
    text.push('\n')
}

/// A row for each identifier, in their order.
pub(crate) fn id_rows(alloc: Global, ids: &[u32]) -> Result<String, AllocError>
    ensures { IfOk result (λ text. string_bytes text ≡ rows (map decimal ids.now)) }
{
    let mut text = String::new(alloc);
    writeln!(text, "rows {}", ids.len())?;
    for id in ids {
        writeln!(text, "{id}")?;
    }
    Ok(text)
}

/// A row for each pair of identifiers, in their order.
pub(crate) fn pair_rows(alloc: Global, pairs: &[(u32, u32)]) -> Result<String, AllocError>
    ensures { IfOk result (λ text. string_bytes text ≡ rows (map pair_row pairs.now)) }
{
    let mut text = String::new(alloc);
    writeln!(text, "rows {}", pairs.len())?;
    for pair in pairs {
        push_pair(&mut text, *pair)?;
    }
    Ok(text)
}

/// The row of a pair, with its line feed.
fn push_pair(text: &mut String, pair: (u32, u32)) -> Result<(), AllocError>
    ensures { OnOk result (string_bytes text.new ≡ string_bytes text.old ++ line (pair_row pair)) }
{
    let (first, second) = pair;
    writeln!(text, "{first} {second}")
}

/// The values of a feature in the columns of its layer, in their order.
fn push_values(text: &mut String, layer: &Layer, feature: &Feature) -> Result<(), AllocError>
    ensures { OnOk result (string_bytes text.new
        ≡ string_bytes text.old ++ flat_map (shown_value feature.now) layer.now.columns) }
{
    for place in 0..layer.column_count() {
        push_value(text, layer.column_at(place).unwrap(), feature)?;
    }
    Ok(())
}

/// The value of a feature in a column, if there is one, under the column's name.
fn push_value(text: &mut String, column: &Column, feature: &Feature) -> Result<(), AllocError>
    ensures { OnOk result (string_bytes text.new
        ≡ string_bytes text.old ++ shown_value feature.now column.now) }
{
    let Some(value) = feature.value(column.number) else {
        return Ok(());
    };
    text.push(' ')?;
    text.push_str(column.name.as_str())?;
    text.push('=')?;
    sf_values::push_value(text, value)
}
