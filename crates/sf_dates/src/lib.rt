//! Days of the Gregorian calendar from 0001-01-01 to 9999-12-31, moments of UTC in milliseconds, and their texts.
#![tactic(auto)]

mod comparing;
mod date;
mod datetime;
mod day;
pub mod laws;
mod moment;
mod reading;
mod writing;

pub use comparing::{compare_dates, compare_datetimes};
pub use date::Date;
pub use datetime::DateTime;
pub use day::Day;
pub use moment::Moment;
pub use reading::{date_of, datetime_of};
pub use writing::{push_date, push_datetime};
