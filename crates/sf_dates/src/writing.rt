//! Texts of days and moments.
ghost use Rattle.std.specs.Prelude.{◌≡◌, ◌<◌, ◌++◌, string_bytes, OnOk};
ghost use Rattle.sf_dates.specs.Calendar.{IsDate, IsDateTime};
ghost use Rattle.sf_dates.specs.Texts.{date_text, datetime_text, millisecond_text, second_text};

use super::date::Date;
use super::datetime::DateTime;
use super::day::Day;
use super::moment::Moment;
use std::alloc::AllocError;

/// Puts the text of a day behind a text: YYYY-MM-DD.
///
/// # Errors
///
/// Out of memory. A front of it may then stand there.
pub fn push_date(text: &mut String, date: &Date) -> Result<(), AllocError>
    ensures { OnOk result (string_bytes text.new ≡ string_bytes text.old ++ date_text date.now) }
{
    push_day(text, &date.parts())
}

/// Puts the text of a moment behind a text: YYYY-MM-DDThh:mm:ss.mmmZ.
///
/// # Errors
///
/// Out of memory. A front of it may then stand there.
pub fn push_datetime(text: &mut String, datetime: &DateTime) -> Result<(), AllocError>
    ensures { OnOk result (string_bytes text.new ≡ string_bytes text.old ++ datetime_text datetime.now) }
{
    push_moment(text, &datetime.parts())
}

/// Puts the text of the parts of a day behind a text.
fn push_day(text: &mut String, date: &Day) -> Result<(), AllocError>
    requires { IsDate date.now }
    ensures { OnOk result (string_bytes text.new ≡ string_bytes text.old ++ date_text date.now) }
{
    write!(text, "{:04}-{:02}-{:02}", date.year, date.month, date.day)
}

/// Puts the text of the parts of a moment behind a text.
fn push_moment(text: &mut String, datetime: &Moment) -> Result<(), AllocError>
    requires { IsDateTime datetime.now }
    ensures { OnOk result (string_bytes text.new ≡ string_bytes text.old ++ datetime_text datetime.now) }
{
    push_day(text, &datetime.date)?;
    push_second(text, datetime.millisecond / 1000)?;
    push_millisecond(text, datetime.millisecond % 1000)
}

/// Puts the text of a second of a day behind a text: Thh:mm:ss.
fn push_second(text: &mut String, second: u32) -> Result<(), AllocError>
    requires { second < 86400 }
    ensures { OnOk result (string_bytes text.new ≡ string_bytes text.old ++ second_text second) }
{
    let hour = second / 3600;
    let minute = second / 60 % 60;
    let rest = second % 60;
    write!(text, "T{hour:02}:{minute:02}:{rest:02}")
}

/// Puts the text of a millisecond of a second and the zone behind a text: .mmmZ.
fn push_millisecond(text: &mut String, millisecond: u32) -> Result<(), AllocError>
    requires { millisecond < 1000 }
    ensures { OnOk result (string_bytes text.new ≡ string_bytes text.old ++ millisecond_text millisecond) }
{
    write!(text, ".{millisecond:03}Z")
}
