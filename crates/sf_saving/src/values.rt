//! The values of a feature.
ghost use Rattle.std.specs.Prelude.{◌≡◌, ◌++◌, flat_map, option_copied, OnErr, OnOk};
ghost use Rattle.sf_features.specs.Columns.{numbered};
ghost use Rattle.sf_format.specs.Canonical.{bool_byte as bool_byte_of, date_bytes, decimal_bytes, int_bytes, is_decimal_column as is_decimal_column_of, moment_bytes, typed_bytes, value_bytes};
ghost use Rattle.sf_streams.specs.Streams.{Puts, WritesFront};

use super::fields::put_text;
use sf_dates::{Day, Moment};
use sf_decimals::Number;
use sf_layers::{AttrValue, Column, ColumnType, Layer};
use sf_streams::{Output, WriteFault};
use std::io::Write;

/// Whether the numbers of a column have the byte of their places behind them.
fn is_decimal_column(column: Option<&Column>) -> bool
    ensures { result ≡ is_decimal_column_of (option_copied column.entry) }
{
    match column {
        Some(column) => matches!(column.column_type, ColumnType::Decimal),
        None => false,
    }
}

/// Puts a number: its digits without the point, and how many of them stand behind it.
fn put_number<W: Write>(
    output: &mut Output,
    writer: &mut W,
    number: Number,
) -> Result<(), WriteFault>
    ensures ok { OnOk result (Puts (W.contents writer.old) (W.contents writer.new) output.old output.new
        (decimal_bytes number)) }
    ensures broken { OnErr result (WritesFront (W.contents writer.old) (W.contents writer.new)
        (output.old ++ decimal_bytes number)) }
{
    output.put_i64(writer, number.mantissa)?;
    output.put_u8(writer, number.places)
}

/// Puts a whole number, which in a column of decimals has no places.
fn put_int<W: Write>(
    output: &mut Output,
    writer: &mut W,
    number: i64,
    in_decimals: bool,
) -> Result<(), WriteFault>
    ensures ok { OnOk result (Puts (W.contents writer.old) (W.contents writer.new) output.old output.new
        (int_bytes in_decimals number)) }
    ensures broken { OnErr result (WritesFront (W.contents writer.old) (W.contents writer.new)
        (output.old ++ int_bytes in_decimals number)) }
{
    if in_decimals {
        let whole = Number {
            mantissa: number,
            places: 0,
        };
        put_number(output, writer, whole)
    } else {
        output.put_i64(writer, number)
    }
}

/// The byte of a truth value.
fn bool_byte(is: bool) -> u8
    ensures { result ≡ bool_byte_of is }
{
    if is { 1 } else { 0 }
}

/// Puts a day: its year, month and day.
fn put_date<W: Write>(output: &mut Output, writer: &mut W, day: Day) -> Result<(), WriteFault>
    ensures ok { OnOk result (Puts (W.contents writer.old) (W.contents writer.new) output.old output.new
        (date_bytes day)) }
    ensures broken { OnErr result (WritesFront (W.contents writer.old) (W.contents writer.new)
        (output.old ++ date_bytes day)) }
{
    output.put_u16(writer, day.year)?;
    output.put_u8(writer, day.month)?;
    output.put_u8(writer, day.day)
}

/// Puts a moment: its day, and the millisecond of it.
fn put_moment<W: Write>(
    output: &mut Output,
    writer: &mut W,
    moment: Moment,
) -> Result<(), WriteFault>
    ensures ok { OnOk result (Puts (W.contents writer.old) (W.contents writer.new) output.old output.new
        (moment_bytes moment)) }
    ensures broken { OnErr result (WritesFront (W.contents writer.old) (W.contents writer.new)
        (output.old ++ moment_bytes moment)) }
{
    put_date(output, writer, moment.date)?;
    output.put_u32(writer, moment.millisecond)
}

/// Puts a value, as in a column of decimals or as in another one.
pub(crate) fn put_typed<W: Write>(
    output: &mut Output,
    writer: &mut W,
    value: &AttrValue,
    in_decimals: bool,
) -> Result<(), WriteFault>
    ensures ok { OnOk result (Puts (W.contents writer.old) (W.contents writer.new) output.old output.new
        (typed_bytes in_decimals value.now)) }
    ensures broken { OnErr result (WritesFront (W.contents writer.old) (W.contents writer.new)
        (output.old ++ typed_bytes in_decimals value.now)) }
{
    match value {
        AttrValue::Int(number) => put_int(output, writer, *number, in_decimals),
        AttrValue::Text(text) => put_text(output, writer, text.as_str()),
        AttrValue::Decimal(number) => put_number(output, writer, number.parts()),
        AttrValue::Bool(is) => output.put_u8(writer, bool_byte(*is)),
        AttrValue::Date(date) => put_date(output, writer, date.parts()),
        AttrValue::DateTime(moment) => put_moment(output, writer, moment.parts()),
    }
}

/// Whether a value of a feature of a layer is a whole number in a column of decimals.
fn is_whole_decimal(layer: &Layer, entry: &(u16, AttrValue)) -> bool
    ensures { typed_bytes result entry.now.1 ≡ typed_bytes (is_decimal_column_of (numbered layer.now.columns entry.now.0)) entry.now.1 }
{
    match &entry.1 {
        AttrValue::Int(_) => is_decimal_column(layer.column_numbered(entry.0)),
        AttrValue::Text(_) => false,
        AttrValue::Decimal(_) => false,
        AttrValue::Bool(_) => false,
        AttrValue::Date(_) => false,
        AttrValue::DateTime(_) => false,
    }
}

/// Puts a value of a feature of a layer, behind the number of its column.
fn put_value<W: Write>(
    output: &mut Output,
    writer: &mut W,
    layer: &Layer,
    entry: &(u16, AttrValue),
) -> Result<(), WriteFault>
    ensures ok { OnOk result (Puts (W.contents writer.old) (W.contents writer.new) output.old output.new
        (value_bytes layer.now.columns entry.now)) }
    ensures broken { OnErr result (WritesFront (W.contents writer.old) (W.contents writer.new)
        (output.old ++ value_bytes layer.now.columns entry.now)) }
{
    let in_decimals = is_whole_decimal(layer, entry);
    output.put_u16(writer, entry.0)?;
    put_typed(output, writer, &entry.1, in_decimals)
}

/// Puts the values of a feature of a layer, by rising column number.
pub(crate) fn put_values<W: Write>(
    output: &mut Output,
    writer: &mut W,
    layer: &Layer,
    values: &[(u16, AttrValue)],
) -> Result<(), WriteFault>
    ensures ok { OnOk result (Puts (W.contents writer.old) (W.contents writer.new) output.old output.new
        (flat_map (value_bytes layer.now.columns) values.now)) }
    ensures broken { OnErr result (WritesFront (W.contents writer.old) (W.contents writer.new)
        (output.old ++ flat_map (value_bytes layer.now.columns) values.now)) }
{
    for entry in values {
        put_value(output, writer, layer, entry)?;
    }
    Ok(())
}
