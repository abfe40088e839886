ghost use Rattle.std.specs.Prelude.{◌≡◌, SomeIff};
ghost use Rattle.sf_dates.specs.Calendar.{IsDate, is_day as is_day_of, is_leap as is_leap_of, month_days};

use super::day::Day;
use std::marker::Model;

/// A day of the Gregorian calendar, which is taken to have held at all times, in a year from 1 to 9999.
#[derive(Clone, Copy, Debug)]
pub struct Date {
    day: Day,
}

impl Model for Date {
    ghost use Rattle.sf_dates.specs.declared.day.Day.{Day};
    ghost use Rattle.sf_dates.specs.Calendar.{IsDate};

    ghost Value = { Day };

    ghost view = { λ d. d.day };

    ghost invariant = { λ d. IsDate d.day };

    ghost inverse = { λ day. record { day = day } };
}

impl Date {
    /// The date of a day, or None exactly where there is no such day.
    pub fn new(day: Day) -> Option<Date>
        ensures { SomeIff result (IsDate day) day }
    {
        if is_day(&day) {
            Some(Date { day })
        } else {
            None
        }
    }

    /// The year, month and day.
    pub fn parts(&self) -> Day
        ensures value { result ≡ self.now }
        ensures there { IsDate self.now }
    {
        self.day
    }
}

/// Whether there is such a day, in a year from 1 to 9999.
pub(crate) fn is_day(day: &Day) -> bool
    ensures { result ≡ is_day_of day.now }
{
    1 <= day.year
        && day.year <= 9999
        && 1 <= day.month
        && day.month <= 12
        && 1 <= day.day
        && day.day <= days_in_month(is_leap(day.year), day.month)
}

/// Whether a year has 366 days.
fn is_leap(year: u16) -> bool
    ensures { result ≡ is_leap_of year }
{
    year % 4 == 0 && (year % 100 != 0 || year % 400 == 0)
}

/// How many days the month of this number has, from 1 to 12, in a leap year or another.
fn days_in_month(leap: bool, month: u8) -> u8
    ensures { result ≡ month_days leap month }
{
    match month {
        2 if leap => 29,
        2 => 28,
        4 | 6 | 9 | 11 => 30,
        _ => 31,
    }
}
