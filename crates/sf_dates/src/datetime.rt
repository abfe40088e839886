ghost use Rattle.std.specs.Prelude.{◌≡◌, SomeIff};
ghost use Rattle.sf_dates.specs.Calendar.{IsDateTime, is_moment as is_moment_of};

use super::date::is_day;
use super::moment::Moment;
use std::marker::Model;

/// How many milliseconds a day has.
const DAY_MILLISECONDS: u32 = 86_400_000;

/// A moment of UTC, with no leap second.
#[derive(Clone, Copy, Debug)]
pub struct DateTime {
    moment: Moment,
}

impl Model for DateTime {
    ghost use Rattle.sf_dates.specs.declared.moment.Moment.{Moment};
    ghost use Rattle.sf_dates.specs.Calendar.{IsDateTime};

    ghost Value = { Moment };

    ghost view = { λ d. d.moment };

    ghost invariant = { λ d. IsDateTime d.moment };

    ghost inverse = { λ moment. record { moment = moment } };
}

impl DateTime {
    /// The time of a moment, or None exactly where there is no such moment.
    pub fn new(moment: Moment) -> Option<DateTime>
        ensures { SomeIff result (IsDateTime moment) moment }
    {
        if is_moment(&moment) {
            Some(DateTime { moment })
        } else {
            None
        }
    }

    /// The day, and the millisecond of it.
    pub fn parts(&self) -> Moment
        ensures value { result ≡ self.now }
        ensures there { IsDateTime self.now }
    {
        self.moment
    }
}

/// Whether there is such a moment: a day that there is, and a millisecond of it.
fn is_moment(moment: &Moment) -> bool
    ensures { result ≡ is_moment_of moment.now }
{
    is_day(&moment.date) && moment.millisecond < DAY_MILLISECONDS
}
