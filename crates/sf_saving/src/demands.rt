//! What rules demand of the values in a column.
ghost use Rattle.std.specs.Prelude.{◌≡◌, ◌++◌, flat_map, length, OnErr, OnOk};
ghost use Rattle.byteorder.specs.Endian.{big_bytes};
ghost use Rattle.sf_format.specs.Canonical.{demand_bytes, end_bytes, ends_byte as ends_byte_of, named_bytes, own_type as own_type_of};
ghost use Rattle.sf_streams.specs.Streams.{Puts, WritesFront};

use super::columns::type_byte;
use super::values::put_typed;
use sf_format::Demand;
use sf_layers::{AttrValue, ColumnType, ValueRange};
use sf_streams::{Output, WriteFault};
use std::io::Write;

/// The type that a value is of by itself.
fn own_type(value: &AttrValue) -> ColumnType
    ensures { result ≡ own_type_of value.now }
{
    match value {
        AttrValue::Int(_) => ColumnType::Int,
        AttrValue::Text(_) => ColumnType::Text,
        AttrValue::Decimal(_) => ColumnType::Decimal,
        AttrValue::Bool(_) => ColumnType::Bool,
        AttrValue::Date(_) => ColumnType::Date,
        AttrValue::DateTime(_) => ColumnType::DateTime,
    }
}

/// Puts a value behind the byte of its own type.
fn put_named<W: Write>(
    output: &mut Output,
    writer: &mut W,
    value: &AttrValue,
) -> Result<(), WriteFault>
    ensures ok { OnOk result (Puts (W.contents writer.old) (W.contents writer.new) output.old output.new
        (named_bytes value.now)) }
    ensures broken { OnErr result (WritesFront (W.contents writer.old) (W.contents writer.new)
        (output.old ++ named_bytes value.now)) }
{
    output.put_u8(writer, type_byte(own_type(value)))?;
    put_typed(output, writer, value, false)
}

/// Puts values, in order.
fn put_each<W: Write>(
    output: &mut Output,
    writer: &mut W,
    values: &[AttrValue],
) -> Result<(), WriteFault>
    ensures ok { OnOk result (Puts (W.contents writer.old) (W.contents writer.new) output.old output.new
        (flat_map named_bytes values.now)) }
    ensures broken { OnErr result (WritesFront (W.contents writer.old) (W.contents writer.new)
        (output.old ++ flat_map named_bytes values.now)) }
{
    for value in values {
        put_named(output, writer, value)?;
    }
    Ok(())
}

/// Puts the values that a rule allows behind their number, which has two bytes, as there are at most 1,000.
fn put_allowed<W: Write>(
    output: &mut Output,
    writer: &mut W,
    allowed: &[AttrValue],
) -> Result<(), WriteFault>
    ensures ok { OnOk result (Puts (W.contents writer.old) (W.contents writer.new) output.old output.new
        (big_bytes 2 (length allowed.now) ++ flat_map named_bytes allowed.now)) }
    ensures broken { OnErr result (WritesFront (W.contents writer.old) (W.contents writer.new)
        (output.old ++ (big_bytes 2 (length allowed.now) ++ flat_map named_bytes allowed.now))) }
{
    output.put_u16(writer, (allowed.len() % 65536) as u16)?;
    put_each(output, writer, allowed)
}

/// The byte of the ends of a range that are given.
fn ends_byte(range: &ValueRange) -> u8
    ensures { result ≡ ends_byte_of range.now.from range.now.to }
{
    match (&range.from, &range.to) {
        (None, None) => 0,
        (Some(_), None) => 1,
        (None, Some(_)) => 2,
        (Some(_), Some(_)) => 3,
    }
}

/// Puts an end of a range, where it is given.
fn put_end<W: Write>(
    output: &mut Output,
    writer: &mut W,
    end: &Option<AttrValue>,
) -> Result<(), WriteFault>
    ensures ok { OnOk result (Puts (W.contents writer.old) (W.contents writer.new) output.old output.new
        (end_bytes end.now)) }
    ensures broken { OnErr result (WritesFront (W.contents writer.old) (W.contents writer.new)
        (output.old ++ end_bytes end.now)) }
{
    match end {
        Some(value) => put_named(output, writer, value),
        None => Ok(()),
    }
}

/// Puts a range: which ends are given, and these.
fn put_range<W: Write>(
    output: &mut Output,
    writer: &mut W,
    range: &ValueRange,
) -> Result<(), WriteFault>
    ensures ok { OnOk result (Puts (W.contents writer.old) (W.contents writer.new) output.old output.new
        (big_bytes 1 (ends_byte_of range.now.from range.now.to) ++ (end_bytes range.now.from ++ end_bytes range.now.to))) }
    ensures broken { OnErr result (WritesFront (W.contents writer.old) (W.contents writer.new)
        (output.old ++ (big_bytes 1 (ends_byte_of range.now.from range.now.to) ++ (end_bytes range.now.from ++ end_bytes range.now.to)))) }
{
    output.put_u8(writer, ends_byte(range))?;
    put_end(output, writer, &range.from)?;
    put_end(output, writer, &range.to)
}

/// Puts the values that a rule names, behind its layer and its column.
pub(crate) fn put_demand<W: Write>(
    output: &mut Output,
    writer: &mut W,
    demand: &Demand,
) -> Result<(), WriteFault>
    ensures ok { OnOk result (Puts (W.contents writer.old) (W.contents writer.new) output.old output.new
        (demand_bytes demand.now)) }
    ensures broken { OnErr result (WritesFront (W.contents writer.old) (W.contents writer.new)
        (output.old ++ demand_bytes demand.now)) }
{
    match demand {
        Demand::Unique => Ok(()),
        Demand::Required => Ok(()),
        Demand::OneOf(allowed) => put_allowed(output, writer, allowed.as_slice()),
        Demand::InRange(range) => put_range(output, writer, range.range()),
    }
}
