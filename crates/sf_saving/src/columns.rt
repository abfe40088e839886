//! The columns of a layer.
ghost use Rattle.std.specs.Prelude.{◌≡◌, ◌++◌, flat_map, OnErr, OnOk};
ghost use Rattle.sf_format.specs.Canonical.{column_bytes, type_byte as type_byte_of};
ghost use Rattle.sf_streams.specs.Streams.{Puts, WritesFront};

use super::fields::put_name;
use sf_layers::{Column, ColumnType, Layer};
use sf_streams::{Output, WriteFault};
use std::io::Write;

/// The byte of a column's type.
pub(crate) fn type_byte(column_type: ColumnType) -> u8
    ensures { result ≡ type_byte_of column_type }
{
    match column_type {
        ColumnType::Int => 1,
        ColumnType::Text => 2,
        ColumnType::Decimal => 3,
        ColumnType::Bool => 4,
        ColumnType::Date => 5,
        ColumnType::DateTime => 6,
    }
}

/// Puts a column: its number, its type and its name.
fn put_column<W: Write>(
    output: &mut Output,
    writer: &mut W,
    column: &Column,
) -> Result<(), WriteFault>
    ensures ok { OnOk result (Puts (W.contents writer.old) (W.contents writer.new) output.old output.new
        (column_bytes column.now)) }
    ensures broken { OnErr result (WritesFront (W.contents writer.old) (W.contents writer.new)
        (output.old ++ column_bytes column.now)) }
{
    output.put_u16(writer, column.number)?;
    output.put_u8(writer, type_byte(column.column_type))?;
    put_name(output, writer, column.name.as_str())
}

/// Puts the columns of a layer, in order.
pub(crate) fn put_columns<W: Write>(
    output: &mut Output,
    writer: &mut W,
    layer: &Layer,
) -> Result<(), WriteFault>
    ensures ok { OnOk result (Puts (W.contents writer.old) (W.contents writer.new) output.old output.new
        (flat_map column_bytes layer.now.columns)) }
    ensures broken { OnErr result (WritesFront (W.contents writer.old) (W.contents writer.new)
        (output.old ++ flat_map column_bytes layer.now.columns)) }
{
    for place in 0..layer.column_count() {
        put_column(output, writer, layer.column_at(place).unwrap())?;
    }
    Ok(())
}
