//! The columns of a layer.
ghost use Rattle.std.specs.Prelude.{◌≡◌, ◌&&◌, ℕ, None, [], not, is_some, nat_eq, nat_lt, IfOk, OnOk};
ghost use Rattle.std.specs.BTreeMap.{insert_entry};
ghost use Rattle.std.specs.Map.{lookup};
ghost use Rattle.std.specs.Ordering.{nat_cmp};
ghost use Rattle.sf_features.specs.Columns.{named, numbered};
ghost use Rattle.sf_layers.specs.WellFormed.{IsColumn, IsLayer};
ghost use Rattle.sf_format.specs.declared.defect.Defect.TheVariants.{ColumnsExhausted, WrongValue};
ghost use Rattle.sf_format.specs.Readings.{field, items, number};
ghost use Rattle.sf_format.specs.Format.{allowed as allowed_of, column as column_of, fresh_number, present as present_of, type_of_byte as type_of_byte_of};
ghost use Rattle.sf_loading.specs.Streaming.{Gives};
ghost use Rattle.sf_loading.specs.Types.{AreTypesOf};

use super::fields::{allowed, present};
use super::halt::Halt;
use super::numbers::{number_u8, number_u16};
use super::texts::column_name;
use sf_features::{Column, ColumnType};
use sf_format::Defect;
use sf_layers::Layer;
use sf_streams::Window;
use std::alloc::{AllocError, Global};
use std::collections::BTreeMap;
use std::io::Read;
use std::marker::Model;

/// The types of a layer's columns by number. A layer finds its columns by name alone.
#[derive(Drop)]
pub(crate) struct ColumnTypes {
    by_number: BTreeMap<u16, ColumnType>,
}

impl Model for ColumnTypes {
    ghost use Rattle.std.specs.Prelude.{ℕ, List};
    ghost use Rattle.sf_features.specs.declared.column_type.ColumnType.{ColumnType as Kept};

    ghost Value = { List (ℕ × Kept) };

    ghost view = { λ a. a.by_number.entries };
}

impl ColumnTypes {
    fn new(alloc: Global) -> ColumnTypes
        ensures { result ≡ [] }
    {
        ColumnTypes {
            by_number: BTreeMap::new(alloc),
        }
    }

    /// The type of the column of a number, or None where no column has it.
    pub(crate) fn get(&self, number: u16) -> Option<ColumnType>
        ensures { result ≡ lookup (nat_eq number) self.now }
    {
        self.by_number.get(&number).copied()
    }

    fn put(&mut self, number: u16, column_type: ColumnType) -> Result<(), AllocError>
        ensures { OnOk result (self.new ≡ insert_entry nat_cmp self.old number column_type) }
    {
        match self.by_number.insert(number, column_type) {
            Ok(_) => Ok(()),
            Err(_) => Err(AllocError),
        }
    }
}

fn is_issued(number: u16, end: u16) -> bool
    ensures { result ≡ (nat_lt 0 number && nat_lt number end) }
{
    0 < number && number < end
}

/// Whether a column number is below the layer's next one and not used yet.
fn is_fresh(layer: &Layer, types: &ColumnTypes, number: u16) -> bool
    requires { AreTypesOf types.now layer.now.columns }
    ensures { result ≡ ((nat_lt 0 number && nat_lt number layer.now.next_column)
        && not (is_some (numbered layer.now.columns number))) }
{
    is_issued(number, layer.next_column()) && types.get(number).is_none()
}

/// The number of a column.
fn column_number<R: Read>(
    window: &mut Window,
    reader: &mut R,
    layer: &Layer,
    types: &ColumnTypes,
) -> Result<u16, Halt>
    requires { AreTypesOf types.now layer.now.columns }
    ensures { Gives (λ n. n) (field (number 2) (fresh_number layer.now.next_column layer.now.columns))
        (R.remaining reader.old) (R.remaining reader.new) window.old window.new result }
{
    let place = window.place();
    let number = number_u16(window, reader)?;
    allowed(
        is_fresh(layer, types, number),
        place,
        Defect::ColumnsExhausted,
        number,
    )
}

fn type_of_byte(byte: u8) -> Option<ColumnType>
    ensures { result ≡ type_of_byte_of byte }
{
    match byte {
        1 => Some(ColumnType::Int),
        2 => Some(ColumnType::Text),
        3 => Some(ColumnType::Decimal),
        4 => Some(ColumnType::Bool),
        5 => Some(ColumnType::Date),
        6 => Some(ColumnType::DateTime),
        _ => None,
    }
}

/// The type of a column.
pub(crate) fn column_type<R: Read>(window: &mut Window, reader: &mut R) -> Result<ColumnType, Halt>
    ensures { Gives (λ t. t) (field (number 1) (λ byte. present_of (type_of_byte_of byte) WrongValue))
        (R.remaining reader.old) (R.remaining reader.new) window.old window.new result }
{
    let place = window.place();
    let byte = number_u8(window, reader)?;
    present(type_of_byte(byte), place, Defect::WrongValue)
}

/// A column, whose number and name no other column of the layer has.
fn column<R: Read>(
    alloc: Global,
    window: &mut Window,
    reader: &mut R,
    layer: &Layer,
    types: &ColumnTypes,
) -> Result<Column, Halt>
    requires { AreTypesOf types.now layer.now.columns }
    ensures gives { Gives (λ c. c) (column_of layer.now.next_column layer.now.columns)
        (R.remaining reader.old) (R.remaining reader.new) window.old window.new result }
    ensures fits { IfOk result (IsColumn layer.now.next_column) }
    ensures free { IfOk result (λ column. named layer.now.columns column.name ≡ None) }
    ensures unused { IfOk result (λ column. numbered layer.now.columns column.number ≡ None) }
{
    let number = column_number(window, reader, layer, types)?;
    let column_type = column_type(window, reader)?;
    let name = column_name(alloc, window, reader, layer)?;
    Ok(Column {
        number,
        name,
        column_type,
    })
}

/// How many columns a layer has.
pub(crate) fn column_count<R: Read>(
    window: &mut Window,
    reader: &mut R,
    next_column: u16,
) -> Result<u16, Halt>
    ensures { Gives (λ n. n) (field (number 2) (λ n. allowed_of (nat_lt n next_column) ColumnsExhausted n))
        (R.remaining reader.old) (R.remaining reader.new) window.old window.new result }
{
    let place = window.place();
    let count = number_u16(window, reader)?;
    allowed(count < next_column, place, Defect::ColumnsExhausted, count)
}

/// The columns of a layer that has none yet, nor a feature. How many there are was read before.
pub(crate) fn columns<R: Read>(
    alloc: Global,
    window: &mut Window,
    reader: &mut R,
    layer: &mut Layer,
    count: u16,
) -> Result<ColumnTypes, Halt>
    requires bare { layer.old.columns ≡ [] }
    requires empty { layer.old.features ≡ [] }
    requires fits { IsLayer layer.old }
    ensures gives { Gives (λ _. layer.new.columns) (items (column_of layer.old.next_column) count [])
        (R.remaining reader.old) (R.remaining reader.new) window.old window.new result }
    ensures types { IfOk result (λ types. AreTypesOf types layer.new.columns) }
    ensures kept { layer.new ≡ record layer.old { columns = layer.new.columns } }
    ensures fits { IsLayer layer.new }
{
    let mut types = ColumnTypes::new(alloc);
    for _ in 0..count {
        let column = column(alloc, window, reader, layer, &types)?;
        types.put(column.number, column.column_type)?;
        let last = layer.column_count();
        if layer.put_column(alloc, last, column).is_err() {
            return Err(Halt::Memory);
        }
    }
    Ok(types)
}
