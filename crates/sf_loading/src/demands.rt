//! What rules demand of the values in a column.
ghost use Rattle.std.specs.Prelude.{◌≡◌, ◌&&◌, [], nat_le, nat_lt};
ghost use Rattle.sf_format.specs.declared.defect.Defect.TheVariants.{BadFile, WrongValue};
ghost use Rattle.sf_format.specs.Readings.{field, items, number};
ghost use Rattle.sf_format.specs.Format.{allowed as allowed_of, allowed_range as read_range, allowed_values as read_values, any_value as read_any_value, demanded as read_demanded, end_value as read_end_value, ends_of_byte as ends_of_byte_of, fraction_in as fraction_in_of, named_value as read_named_value, own_value as read_own_value, present as present_of, range_parts as read_range_parts, values_max};
ghost use Rattle.sf_loading.specs.Streaming.{Gives};

use super::columns::column_type as own_type;
use super::fields::{allowed, present};
use super::halt::Halt;
use super::numbers::{number_u8, number_u16};
use super::values::{
    bool_value, date_value, datetime_value, decimal_in, decimal_parts, int_value, text_value,
};
use sf_decimals::Number;
use sf_features::{AttrValue, ColumnType};
use sf_format::{AllowedValues, BoxedRange, Defect, Demand, DemandForm, RangeEnds, VALUES_MAX};
use sf_layers::ValueRange;
use sf_streams::Window;
use std::alloc::Global;
use std::io::Read;

/// The number of these parts as a value, where they are its one form and it isn't whole.
fn fraction_in(parts: Number) -> Option<AttrValue>
    ensures { result ≡ fraction_in_of parts }
{
    if parts.places == 0 {
        None
    } else {
        decimal_in(parts)
    }
}

/// A number in its one form, with places behind the point.
fn fraction_value<R: Read>(window: &mut Window, reader: &mut R) -> Result<AttrValue, Halt>
    ensures { Gives (λ v. v) (read_own_value ColumnType.Decimal) (R.remaining reader.old) (R.remaining reader.new)
        window.old window.new result }
{
    let place = window.place();
    let parts = decimal_parts(window, reader)?;
    present(fraction_in(parts), place, Defect::WrongValue)
}

/// A value whose own type this is.
fn own_value<R: Read>(
    alloc: Global,
    window: &mut Window,
    reader: &mut R,
    own: ColumnType,
) -> Result<AttrValue, Halt>
    ensures { Gives (λ v. v) (read_own_value own) (R.remaining reader.old) (R.remaining reader.new) window.old
        window.new result }
{
    match own {
        ColumnType::Int => int_value(window, reader),
        ColumnType::Text => text_value(alloc, window, reader),
        ColumnType::Decimal => fraction_value(window, reader),
        ColumnType::Bool => bool_value(window, reader),
        ColumnType::Date => date_value(window, reader),
        ColumnType::DateTime => datetime_value(window, reader),
    }
}

/// A value behind the byte of its own type.
fn any_value<R: Read>(alloc: Global, window: &mut Window, reader: &mut R) -> Result<AttrValue, Halt>
    ensures { Gives (λ v. v) read_any_value (R.remaining reader.old) (R.remaining reader.new) window.old
        window.new result }
{
    let own = own_type(window, reader)?;
    own_value(alloc, window, reader, own)
}

/// A value that may stand in a column of the type.
fn named_value<R: Read>(
    alloc: Global,
    window: &mut Window,
    reader: &mut R,
    column_type: ColumnType,
) -> Result<AttrValue, Halt>
    ensures { Gives (λ v. v) (read_named_value column_type) (R.remaining reader.old) (R.remaining reader.new)
        window.old window.new result }
{
    let place = window.place();
    let value = any_value(alloc, window, reader)?;
    let fits = value.is_of_type(column_type);
    allowed(fits, place, Defect::WrongValue, value)
}

/// So many values that may stand in a column of the type.
fn counted_values<R: Read>(
    alloc: Global,
    window: &mut Window,
    reader: &mut R,
    column_type: ColumnType,
    count: u16,
) -> Result<Vec<AttrValue>, Halt>
    ensures { Gives (λ values. values.items) (items (λ earlier. read_named_value column_type) count [])
        (R.remaining reader.old) (R.remaining reader.new) window.old window.new result }
{
    let mut values = Vec::new(alloc);
    for _ in 0..count {
        let value = named_value(alloc, window, reader, column_type)?;
        if values.push(value).is_err() {
            return Err(Halt::Memory);
        }
    }
    Ok(values)
}

/// Whether a rule may name so many values.
fn are_some(count: u16) -> bool
    ensures { result ≡ (nat_lt 0 count && nat_le count values_max) }
{
    0 < count && count as usize <= VALUES_MAX
}

/// How many values a rule allows.
fn value_count<R: Read>(window: &mut Window, reader: &mut R) -> Result<u16, Halt>
    ensures { Gives (λ n. n) (field (number 2) (λ n. allowed_of (nat_lt 0 n && nat_le n values_max) WrongValue n))
        (R.remaining reader.old) (R.remaining reader.new) window.old window.new result }
{
    let place = window.place();
    let count = number_u16(window, reader)?;
    allowed(are_some(count), place, Defect::WrongValue, count)
}

/// The values that a rule allows, behind their number.
fn allowed_values<R: Read>(
    alloc: Global,
    window: &mut Window,
    reader: &mut R,
    column_type: ColumnType,
) -> Result<Vec<AttrValue>, Halt>
    ensures { Gives (λ values. values.items) (read_values column_type) (R.remaining reader.old) (R.remaining reader.new)
        window.old window.new result }
{
    let count = value_count(window, reader)?;
    counted_values(alloc, window, reader, column_type, count)
}

/// The ends of a range that a byte stands for.
fn ends_of_byte(byte: u8) -> Option<RangeEnds>
    ensures { result ≡ ends_of_byte_of byte }
{
    match byte {
        1 => Some(RangeEnds {
            from: true,
            to: false,
        }),
        2 => Some(RangeEnds {
            from: false,
            to: true,
        }),
        3 => Some(RangeEnds {
            from: true,
            to: true,
        }),
        _ => None,
    }
}

/// Which ends of a range are given.
fn range_ends<R: Read>(window: &mut Window, reader: &mut R) -> Result<RangeEnds, Halt>
    ensures { Gives (λ ends. ends) (field (number 1) (λ byte. present_of (ends_of_byte_of byte) BadFile))
        (R.remaining reader.old) (R.remaining reader.new) window.old window.new result }
{
    let place = window.place();
    let byte = number_u8(window, reader)?;
    present(ends_of_byte(byte), place, Defect::BadFile)
}

/// An end of a range, where it is given.
fn end_value<R: Read>(
    alloc: Global,
    window: &mut Window,
    reader: &mut R,
    column_type: ColumnType,
    given: bool,
) -> Result<Option<AttrValue>, Halt>
    ensures { Gives (λ end. end) (read_end_value column_type given) (R.remaining reader.old) (R.remaining reader.new)
        window.old window.new result }
{
    if given {
        Ok(Some(named_value(alloc, window, reader, column_type)?))
    } else {
        Ok(None)
    }
}

/// The ends of a range, behind the byte that says which are given.
fn range_parts<R: Read>(
    alloc: Global,
    window: &mut Window,
    reader: &mut R,
    column_type: ColumnType,
) -> Result<ValueRange, Halt>
    ensures { Gives (λ range. range) (read_range_parts column_type) (R.remaining reader.old) (R.remaining reader.new)
        window.old window.new result }
{
    let ends = range_ends(window, reader)?;
    let from = end_value(alloc, window, reader, column_type, ends.from)?;
    let to = end_value(alloc, window, reader, column_type, ends.to)?;
    Ok(ValueRange { from, to })
}

/// A range, whose first end is not behind the second.
fn allowed_range<R: Read>(
    alloc: Global,
    window: &mut Window,
    reader: &mut R,
    column_type: ColumnType,
) -> Result<ValueRange, Halt>
    ensures { Gives (λ range. range) (read_range column_type) (R.remaining reader.old) (R.remaining reader.new)
        window.old window.new result }
{
    let place = window.place();
    let range = range_parts(alloc, window, reader, column_type)?;
    let has_some = !range.is_empty();
    allowed(has_some, place, Defect::WrongValue, range)
}

/// The demand for one of the values that follow.
fn one_of<R: Read>(
    alloc: Global,
    window: &mut Window,
    reader: &mut R,
    column_type: ColumnType,
) -> Result<Demand, Halt>
    ensures { Gives (λ demand. demand) (read_demanded column_type DemandForm.OneOf) (R.remaining reader.old)
        (R.remaining reader.new) window.old window.new result }
{
    let allowed = allowed_values(alloc, window, reader, column_type)?;
    Ok(Demand::OneOf(AllowedValues::new(allowed)))
}

/// The demand for a value in the range that follows.
fn in_range<R: Read>(
    alloc: Global,
    window: &mut Window,
    reader: &mut R,
    column_type: ColumnType,
) -> Result<Demand, Halt>
    ensures { Gives (λ demand. demand) (read_demanded column_type DemandForm.InRange) (R.remaining reader.old)
        (R.remaining reader.new) window.old window.new result }
{
    let range = allowed_range(alloc, window, reader, column_type)?;
    Ok(Demand::InRange(BoxedRange::new(alloc, range)?))
}

/// What a rule of a form demands of the values in a column of a type.
pub(crate) fn demanded<R: Read>(
    alloc: Global,
    window: &mut Window,
    reader: &mut R,
    column_type: ColumnType,
    form: DemandForm,
) -> Result<Demand, Halt>
    ensures { Gives (λ demand. demand) (read_demanded column_type form) (R.remaining reader.old) (R.remaining reader.new)
        window.old window.new result }
{
    match form {
        DemandForm::Unique => Ok(Demand::Unique),
        DemandForm::Required => Ok(Demand::Required),
        DemandForm::OneOf => one_of(alloc, window, reader, column_type),
        DemandForm::InRange => in_range(alloc, window, reader, column_type),
    }
}
