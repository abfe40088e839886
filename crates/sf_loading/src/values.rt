//! The values of features.
ghost use Rattle.std.specs.Prelude.{◌≡◌, ◌<◌, ℕ, List, None, [], length, nat_eq, nat_lt, IfOk, IsTrue, if◌then◌else◌};
ghost use Rattle.std.specs.List.{AllByRecursion};
ghost use Rattle.std.specs.List.Sorted.{IsStrictlySortedBy};
ghost use Rattle.std.specs.Map.{keys_of, lookup};
ghost use Rattle.std.specs.Ordering.{nat_cmp};
ghost use Rattle.sf_features.specs.declared.column.Column.{Column as Kept};
ghost use Rattle.sf_features.specs.declared.attr_value.AttrValue.TheVariants as kept;
ghost use Rattle.sf_features.specs.Values.{is_attr_text, is_of_type};
ghost use Rattle.sf_layers.specs.WellFormed.{IsValue};
ghost use Rattle.sf_format.specs.declared.defect.Defect.TheVariants.{NoColumn, WrongValue};
ghost use Rattle.sf_format.specs.Readings.{items, number};
ghost use Rattle.sf_format.specs.Format.{allowed as allowed_of, bool_of_byte as bool_of_byte_of, date_parts as date_parts_of, day_in as day_in_of, decimal_in as decimal_in_of, decimal_parts as decimal_parts_of, moment_in as moment_in_of, moment_parts as moment_parts_of, typed_value as typed_value_of, value as value_of};
ghost use Rattle.sf_loading.specs.Streaming.{Gives, IsTextOf, Judges};
ghost use Rattle.sf_loading.specs.Types.{AreTypesOf, GivesColumn, value_above};

use super::columns::ColumnTypes;
use super::fields::{allowed, present};
use super::halt::Halt;
use super::numbers::{number_i64, number_u8, number_u16, number_u32};
use super::texts::text;
use sf_dates::{Date, DateTime, Day, Moment};
use sf_decimals::{Decimal, Number};
use sf_features::{AttrValue, ColumnType, Feature, Text};
use sf_format::Defect;
use sf_streams::Window;
use std::alloc::Global;
use std::io::Read;

/// The value that a text at a place is.
fn attr_text(place: u64, text: Option<Text>) -> Result<AttrValue, Halt>
    ensures judged { (found : List ℕ) → IsTextOf found text →
        Judges (λ v. v) place (allowed_of (is_attr_text found) WrongValue (kept.Text found)) result }
    ensures typed { IfOk result (λ v. IsTrue (is_of_type ColumnType.Text v)) }
{
    let Some(text) = text else {
        return Err(Halt::Found(place, Defect::WrongValue));
    };
    let value = AttrValue::Text(text);
    if value.is_of_type(ColumnType::Text) {
        Ok(value)
    } else {
        Err(Halt::Found(place, Defect::WrongValue))
    }
}

/// A text, behind its length.
pub(crate) fn text_value<R: Read>(
    alloc: Global,
    window: &mut Window,
    reader: &mut R,
) -> Result<AttrValue, Halt>
    ensures gives { Gives (λ v. v) (typed_value_of ColumnType.Text) (R.remaining reader.old)
        (R.remaining reader.new) window.old window.new result }
    ensures typed { IfOk result (λ v. IsTrue (is_of_type ColumnType.Text v)) }
{
    let place = window.place();
    let size = number_u16(window, reader)? as usize;
    let text = text(alloc, window, reader, size)?;
    attr_text(place, text)
}

/// A number of 64 bits.
pub(crate) fn int_value<R: Read>(window: &mut Window, reader: &mut R) -> Result<AttrValue, Halt>
    ensures gives { Gives (λ v. v) (typed_value_of ColumnType.Int) (R.remaining reader.old)
        (R.remaining reader.new) window.old window.new result }
    ensures typed { IfOk result (λ v. IsTrue (is_of_type ColumnType.Int v)) }
{
    let number = number_i64(window, reader)?;
    Ok(AttrValue::Int(number))
}

/// The parts of a number: its digits without the point, and how many of them stand behind it.
pub(crate) fn decimal_parts<R: Read>(window: &mut Window, reader: &mut R) -> Result<Number, Halt>
    ensures { Gives (λ parts. parts) decimal_parts_of (R.remaining reader.old) (R.remaining reader.new) window.old
        window.new result }
{
    let mantissa = number_i64(window, reader)?;
    let places = number_u8(window, reader)?;
    Ok(Number { mantissa, places })
}

/// The number of these parts as a value, where they are its one form.
pub(crate) fn decimal_in(parts: Number) -> Option<AttrValue>
    ensures { result ≡ decimal_in_of parts }
{
    match Decimal::new(parts) {
        Some(number) => Some(AttrValue::of_number(number)),
        None => None,
    }
}

/// A number in its one form.
fn decimal_value<R: Read>(window: &mut Window, reader: &mut R) -> Result<AttrValue, Halt>
    ensures gives { Gives (λ v. v) (typed_value_of ColumnType.Decimal) (R.remaining reader.old)
        (R.remaining reader.new) window.old window.new result }
    ensures typed { IfOk result (λ v. IsTrue (is_of_type ColumnType.Decimal v)) }
{
    let place = window.place();
    let parts = decimal_parts(window, reader)?;
    present(decimal_in(parts), place, Defect::WrongValue)
}

/// The truth value that a byte stands for.
fn bool_of_byte(byte: u8) -> Option<AttrValue>
    ensures { result ≡ bool_of_byte_of byte }
{
    match byte {
        0 => Some(AttrValue::Bool(false)),
        1 => Some(AttrValue::Bool(true)),
        _ => None,
    }
}

/// A truth value.
pub(crate) fn bool_value<R: Read>(window: &mut Window, reader: &mut R) -> Result<AttrValue, Halt>
    ensures gives { Gives (λ v. v) (typed_value_of ColumnType.Bool) (R.remaining reader.old)
        (R.remaining reader.new) window.old window.new result }
    ensures typed { IfOk result (λ v. IsTrue (is_of_type ColumnType.Bool v)) }
{
    let place = window.place();
    let byte = number_u8(window, reader)?;
    present(bool_of_byte(byte), place, Defect::WrongValue)
}

/// The parts of a day: its year, month and day.
fn date_parts<R: Read>(window: &mut Window, reader: &mut R) -> Result<Day, Halt>
    ensures { Gives (λ parts. parts) date_parts_of (R.remaining reader.old) (R.remaining reader.new) window.old
        window.new result }
{
    let year = number_u16(window, reader)?;
    let month = number_u8(window, reader)?;
    let day = number_u8(window, reader)?;
    Ok(Day { year, month, day })
}

/// The day of these parts as a value, where there is such a day.
fn day_in(parts: Day) -> Option<AttrValue>
    ensures { result ≡ day_in_of parts }
{
    match Date::new(parts) {
        Some(date) => Some(AttrValue::Date(date)),
        None => None,
    }
}

/// A day.
pub(crate) fn date_value<R: Read>(window: &mut Window, reader: &mut R) -> Result<AttrValue, Halt>
    ensures gives { Gives (λ v. v) (typed_value_of ColumnType.Date) (R.remaining reader.old)
        (R.remaining reader.new) window.old window.new result }
    ensures typed { IfOk result (λ v. IsTrue (is_of_type ColumnType.Date v)) }
{
    let place = window.place();
    let parts = date_parts(window, reader)?;
    present(day_in(parts), place, Defect::WrongValue)
}

/// The parts of a moment: its day, and the millisecond of it.
fn moment_parts<R: Read>(window: &mut Window, reader: &mut R) -> Result<Moment, Halt>
    ensures { Gives (λ parts. parts) moment_parts_of (R.remaining reader.old) (R.remaining reader.new) window.old
        window.new result }
{
    let date = date_parts(window, reader)?;
    let millisecond = number_u32(window, reader)?;
    Ok(Moment { date, millisecond })
}

/// The moment of these parts as a value, where there is such a moment.
fn moment_in(parts: Moment) -> Option<AttrValue>
    ensures { result ≡ moment_in_of parts }
{
    match DateTime::new(parts) {
        Some(moment) => Some(AttrValue::DateTime(moment)),
        None => None,
    }
}

/// A moment of a day.
pub(crate) fn datetime_value<R: Read>(
    window: &mut Window,
    reader: &mut R,
) -> Result<AttrValue, Halt>
    ensures gives { Gives (λ v. v) (typed_value_of ColumnType.DateTime) (R.remaining reader.old)
        (R.remaining reader.new) window.old window.new result }
    ensures typed { IfOk result (λ v. IsTrue (is_of_type ColumnType.DateTime v)) }
{
    let place = window.place();
    let parts = moment_parts(window, reader)?;
    present(moment_in(parts), place, Defect::WrongValue)
}

/// A value of a column of the type.
fn typed_value<R: Read>(
    alloc: Global,
    window: &mut Window,
    reader: &mut R,
    column_type: ColumnType,
) -> Result<AttrValue, Halt>
    ensures gives { Gives (λ v. v) (typed_value_of column_type) (R.remaining reader.old)
        (R.remaining reader.new) window.old window.new result }
    ensures typed { IfOk result (λ v. IsTrue (is_of_type column_type v)) }
{
    match column_type {
        ColumnType::Int => int_value(window, reader),
        ColumnType::Text => text_value(alloc, window, reader),
        ColumnType::Decimal => decimal_value(window, reader),
        ColumnType::Bool => bool_value(window, reader),
        ColumnType::Date => date_value(window, reader),
        ColumnType::DateTime => datetime_value(window, reader),
    }
}

/// The type of the column of a number, where that is above the one before.
fn next_type(types: &ColumnTypes, previous: u16, number: u16) -> Option<ColumnType>
    ensures { result ≡ (if nat_lt previous number then lookup (nat_eq number) types.now else None) }
{
    if previous < number {
        types.get(number)
    } else {
        None
    }
}

/// The column of the next value: its number, which is above the one before, and its type.
fn value_column<R: Read>(
    window: &mut Window,
    reader: &mut R,
    types: &ColumnTypes,
    previous: u16,
) -> Result<(u16, ColumnType), Halt>
    ensures gives { (columns : List Kept) → AreTypesOf types.now columns → GivesColumn columns previous
        (R.remaining reader.old) (R.remaining reader.new) window.old window.new result }
    ensures above { IfOk result (λ found. previous < found.0) }
{
    let place = window.place();
    let number = number_u16(window, reader)?;
    match next_type(types, previous, number) {
        Some(column_type) => Ok((number, column_type)),
        None => Err(Halt::Found(place, Defect::NoColumn)),
    }
}

/// A value of a feature, behind the number of its column, which is above the one before.
fn value<R: Read>(
    alloc: Global,
    window: &mut Window,
    reader: &mut R,
    types: &ColumnTypes,
    previous: u16,
) -> Result<(u16, AttrValue), Halt>
    ensures gives { (columns : List Kept) → AreTypesOf types.now columns → Gives (λ v. v) (value_above columns previous)
        (R.remaining reader.old) (R.remaining reader.new) window.old window.new result }
    ensures fits { (columns : List Kept) → AreTypesOf types.now columns → IfOk result (IsValue columns) }
    ensures above { IfOk result (λ v. previous < v.0) }
{
    let (number, column_type) = value_column(window, reader, types, previous)?;
    let value = typed_value(alloc, window, reader, column_type)?;
    Ok((number, value))
}

/// The values of a feature that has none yet. How many there are was read before.
pub(crate) fn values<R: Read>(
    alloc: Global,
    window: &mut Window,
    reader: &mut R,
    types: &ColumnTypes,
    count: u16,
    feature: &mut Feature,
) -> Result<(), Halt>
    requires { feature.old.values ≡ [] }
    ensures gives { (columns : List Kept) → AreTypesOf types.now columns → Gives (λ _. feature.new.values)
        (items (value_of columns) count []) (R.remaining reader.old) (R.remaining reader.new) window.old window.new result }
    ensures fit { (columns : List Kept) → AreTypesOf types.now columns → AllByRecursion (IsValue columns) feature.new.values }
    ensures rising { IsStrictlySortedBy nat_cmp (keys_of feature.new.values) }
    ensures geometry { feature.new.geometry ≡ feature.old.geometry }
{
    let mut previous = 0;
    for _ in 0..count {
        let (number, value) = value(alloc, window, reader, types, previous)?;
        if feature.put_value(number, value).is_err() {
            return Err(Halt::Memory);
        }
        previous = number;
    }
    Ok(())
}
