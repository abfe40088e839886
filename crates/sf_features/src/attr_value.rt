ghost use Rattle.std.specs.Prelude.{◌≡◌, IfOk};
ghost use Rattle.std.specs.List.{list_all};
ghost use Rattle.sf_dates.specs.Calendar.{is_day as is_day_of, is_moment as is_moment_of};
ghost use Rattle.sf_features.specs.Order.{rank_of, value_cmp};
ghost use Rattle.sf_features.specs.Values.{fits_int as fits_int_of, is_attr_text as is_attr_text_of, is_text_byte as is_text_byte_of, is_of_type, number_value, same_date, same_datetime, same_decimal, same_value};

use super::column_type::ColumnType;
use super::text::Text;
use sf_dates::{Date, DateTime, Day, Moment, compare_dates, compare_datetimes};
use sf_decimals::{Decimal, Number, compare as compare_numbers};
use std::alloc::{AllocError, Global};
use std::cmp::Ordering;

/// How many bytes an attribute text has at most.
const TEXT_MAX: usize = 65535;

/// An attribute value. A whole number is an `Int`, in a column of decimals too, so each number has one form.
#[derive(Debug, Drop)]
pub enum AttrValue {
    Int(i64),
    Text(Text),
    Decimal(Decimal),
    Bool(bool),
    Date(Date),
    DateTime(DateTime),
}

impl AttrValue {
    /// A number as a value, an `Int` where it is whole.
    pub fn of_number(number: Decimal) -> AttrValue
        ensures { result ≡ number_value number }
    {
        let parts = number.parts();
        if parts.places == 0 {
            AttrValue::Int(parts.mantissa)
        } else {
            AttrValue::Decimal(number)
        }
    }

    /// Whether the value may stand in a column of the type: a whole number; a text of at most 65,535
    /// bytes, none of them 0; a whole number, or one with 1 to 18 places behind the point in its one
    /// form; true or false; a day that there is; a moment of such a day.
    pub fn is_of_type(&self, column_type: ColumnType) -> bool
        ensures { result ≡ is_of_type column_type self.now }
    {
        match (column_type, self) {
            (ColumnType::Int, AttrValue::Int(n)) => fits_int(*n),
            (ColumnType::Text, AttrValue::Text(text)) => is_attr_text(text.as_str()),
            (ColumnType::Decimal, AttrValue::Int(n)) => fits_int(*n),
            (ColumnType::Decimal, AttrValue::Decimal(number)) => number.is_fraction(),
            (ColumnType::Bool, AttrValue::Bool(_)) => true,
            (ColumnType::Date, AttrValue::Date(date)) => is_date(*date),
            (ColumnType::DateTime, AttrValue::DateTime(moment)) => is_datetime(*moment),
            _ => false,
        }
    }

    /// A copy of the value.
    ///
    /// # Errors
    ///
    /// Out of memory, which a text alone takes.
    pub fn copy(&self, alloc: Global) -> Result<AttrValue, AllocError>
        ensures { IfOk result (λ copy. copy ≡ self.now) }
    {
        Ok(match self {
            AttrValue::Int(n) => AttrValue::Int(*n),
            AttrValue::Text(text) => AttrValue::Text(text.copy(alloc)?),
            AttrValue::Decimal(number) => AttrValue::Decimal(*number),
            AttrValue::Bool(is) => AttrValue::Bool(*is),
            AttrValue::Date(date) => AttrValue::Date(*date),
            AttrValue::DateTime(moment) => AttrValue::DateTime(*moment),
        })
    }

    /// Whether two values are one.
    pub fn is_same(&self, other: &AttrValue) -> bool
        ensures { result ≡ same_value self.now other.now }
    {
        match (self, other) {
            (AttrValue::Int(a), AttrValue::Int(b)) => *a == *b,
            (AttrValue::Text(a), AttrValue::Text(b)) => a.as_str() == b.as_str(),
            (AttrValue::Decimal(a), AttrValue::Decimal(b)) => is_same_decimal(a.parts(), b.parts()),
            (AttrValue::Bool(a), AttrValue::Bool(b)) => *a == *b,
            (AttrValue::Date(a), AttrValue::Date(b)) => is_same_date(a.parts(), b.parts()),
            (AttrValue::DateTime(a), AttrValue::DateTime(b)) => is_same_datetime(
                a.parts(),
                b.parts(),
            ),
            _ => false,
        }
    }

    /// The order of two values: of numbers by what they count, false before true, of days and moments as they come, of texts by
    /// their bytes. Of values that can't stand in one column numbers come first, then texts, truth values, days and moments.
    pub fn compare(&self, other: &AttrValue) -> Ordering
        ensures { result ≡ value_cmp self.now other.now }
    {
        match (self, other) {
            (AttrValue::Int(a), AttrValue::Int(b)) => a.cmp(b),
            (AttrValue::Int(a), AttrValue::Decimal(b)) => compare_numbers(&Decimal::whole(*a), b),
            (AttrValue::Decimal(a), AttrValue::Int(b)) => compare_numbers(a, &Decimal::whole(*b)),
            (AttrValue::Decimal(a), AttrValue::Decimal(b)) => compare_numbers(a, b),
            (AttrValue::Text(a), AttrValue::Text(b)) => a.as_str().cmp(b.as_str()),
            (AttrValue::Bool(a), AttrValue::Bool(b)) => a.cmp(b),
            (AttrValue::Date(a), AttrValue::Date(b)) => compare_dates(a, b),
            (AttrValue::DateTime(a), AttrValue::DateTime(b)) => compare_datetimes(a, b),
            _ => self.rank().cmp(&other.rank()),
        }
    }

    /// Which of two values comes first that can't stand in one column.
    fn rank(&self) -> u8
        ensures { result ≡ rank_of self.now }
    {
        match self {
            AttrValue::Int(_) | AttrValue::Decimal(_) => 0,
            AttrValue::Text(_) => 1,
            AttrValue::Bool(_) => 2,
            AttrValue::Date(_) => 3,
            AttrValue::DateTime(_) => 4,
        }
    }
}

fn is_same_decimal(a: Number, b: Number) -> bool
    ensures { result ≡ same_decimal a b }
{
    a.mantissa == b.mantissa && a.places == b.places
}

fn is_same_date(a: Day, b: Day) -> bool
    ensures { result ≡ same_date a b }
{
    a.year == b.year && a.month == b.month && a.day == b.day
}

fn is_same_datetime(a: Moment, b: Moment) -> bool
    ensures { result ≡ same_datetime a b }
{
    is_same_date(a.date, b.date) && a.millisecond == b.millisecond
}

/// A copy of values by column number.
///
/// # Errors
///
/// Out of memory.
pub(crate) fn copy_of_values(
    alloc: Global,
    values: &[(u16, AttrValue)],
) -> Result<Vec<(u16, AttrValue)>, AllocError>
    ensures { IfOk result (λ copy. copy.items ≡ values.now) }
{
    let mut copy = Vec::with_capacity(alloc, values.len())?;
    for (number, value) in values {
        copy.push((*number, value.copy(alloc)?))?;
    }
    Ok(copy)
}

// Each number of the type fits.
fn fits_int(n: i64) -> bool
    ensures { result ≡ fits_int_of n }
{
    let _ = n;
    true
}

// As does each day of the type, and each moment.
fn is_date(date: Date) -> bool
    ensures { result ≡ is_day_of date }
{
    let _ = date.parts();
    true
}

fn is_datetime(moment: DateTime) -> bool
    ensures { result ≡ is_moment_of moment }
{
    let _ = moment.parts();
    true
}

fn is_text_byte(b: u8) -> bool
    ensures { result ≡ is_text_byte_of b }
{
    b > 0
}

fn are_text_bytes(bytes: &[u8]) -> bool
    ensures { result ≡ list_all is_text_byte_of bytes.now }
{
    bytes.iter().all(|b| is_text_byte(*b))
}

fn is_attr_text(text: &str) -> bool
    ensures { result ≡ is_attr_text_of text.now }
{
    text.len() <= TEXT_MAX && are_text_bytes(text.as_bytes())
}
