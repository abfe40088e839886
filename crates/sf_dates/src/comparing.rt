//! The order of days and of moments.

ghost use Rattle.std.specs.Prelude.{◌≡◌};
ghost use Rattle.sf_dates.specs.Calendar.{day_cmp, moment_cmp};

use super::date::Date;
use super::datetime::DateTime;
use super::day::Day;
use std::cmp::Ordering;

/// The order of two days: the earlier one is the lesser.
pub fn compare_dates(a: &Date, b: &Date) -> Ordering
    ensures { result ≡ day_cmp a.now b.now }
{
    compare_days(a.parts(), b.parts())
}

/// The order of two moments: the earlier one is the lesser.
pub fn compare_datetimes(a: &DateTime, b: &DateTime) -> Ordering
    ensures { result ≡ moment_cmp a.now b.now }
{
    let (a, b) = (a.parts(), b.parts());
    compare_days(a.date, b.date).then(a.millisecond.cmp(&b.millisecond))
}

fn compare_days(a: Day, b: Day) -> Ordering
    ensures { result ≡ day_cmp a b }
{
    (a.year, a.month, a.day).cmp(&(b.year, b.month, b.day))
}
