//! Days and moments that texts spell.
ghost use Rattle.std.specs.Prelude.{◌≡◌, ◌≤◌, ◌<◌, IfSome};
ghost use Rattle.sf_dates.specs.Texts.{date_by as date_by_of, date_spelled, datetime_by as datetime_by_of, datetime_spelled, four as four_of, millisecond_spelled, second_by as second_by_of, second_spelled, three as three_of, two as two_of};

use super::date::{Date, is_day};
use super::datetime::DateTime;
use super::day::Day;
use super::moment::Moment;

/// The day that a text spells, as `2024-02-29`. None where it spells none, or where there is no such day.
pub fn date_of(text: &str) -> Option<Date>
    ensures { result ≡ date_spelled text.now }
{
    match date_in(text.as_bytes()) {
        Some(day) => Date::new(day),
        None => None,
    }
}

/// The moment that a text spells, as `2026-11-29T19:28:11.000Z`, or without the milliseconds. None where it spells none, or
/// where there is no such moment.
pub fn datetime_of(text: &str) -> Option<DateTime>
    ensures { result ≡ datetime_spelled text.now }
{
    match datetime_in(text.as_bytes()) {
        Some(moment) => DateTime::new(moment),
        None => None,
    }
}

/// The moment that bytes spell.
fn datetime_in(bytes: &[u8]) -> Option<Moment>
    ensures { result ≡ datetime_spelled bytes.now }
{
    if bytes.len() < 19 {
        return None;
    }
    let (date, time) = bytes.split_at(10);
    let (second, millisecond) = time.split_at(9);
    datetime_by(
        date_in(date),
        second_in(second),
        millisecond_in(millisecond),
    )
}

/// The day that bytes spell.
fn date_in(bytes: &[u8]) -> Option<Day>
    ensures { result ≡ date_spelled bytes.now }
{
    match bytes {
        [a, b, c, d, b'-', e, f, b'-', g, h] => {
            date_by(four(*a, *b, *c, *d), two(*e, *f), two(*g, *h))
        }
        _ => None,
    }
}

/// The second of a day that bytes spell.
fn second_in(bytes: &[u8]) -> Option<u32>
    ensures value { result ≡ second_spelled bytes.now }
    ensures within { IfSome result (λ second. second < 86400) }
{
    match bytes {
        [b'T', a, b, b':', c, d, b':', e, f] => second_by(two(*a, *b), two(*c, *d), two(*e, *f)),
        _ => None,
    }
}

/// The millisecond of a second that bytes spell.
fn millisecond_in(bytes: &[u8]) -> Option<u16>
    ensures value { result ≡ millisecond_spelled bytes.now }
    ensures within { IfSome result (λ millisecond. millisecond < 1000) }
{
    match bytes {
        [b'Z'] => Some(0),
        [b'.', a, b, c, b'Z'] => three(*a, *b, *c),
        _ => None,
    }
}

/// The moment of a day, a second of it and a millisecond of that.
fn datetime_by(date: Option<Day>, second: Option<u32>, millisecond: Option<u16>) -> Option<Moment>
    requires second { IfSome second (λ second. second < 86400) }
    requires millisecond { IfSome millisecond (λ millisecond. millisecond < 1000) }
    ensures { result ≡ datetime_by_of date second millisecond }
{
    Some(Moment {
        date: date?,
        millisecond: 1000 * second? + u32::from(millisecond?),
    })
}

/// The day of a year, a month and a day, if there is one.
fn date_by(year: Option<u16>, month: Option<u8>, day: Option<u8>) -> Option<Day>
    ensures { result ≡ date_by_of year month day }
{
    let day = Day {
        year: year?,
        month: month?,
        day: day?,
    };
    if is_day(&day) { Some(day) } else { None }
}

/// The second of a day, by an hour, a minute and a second.
fn second_by(hour: Option<u8>, minute: Option<u8>, second: Option<u8>) -> Option<u32>
    ensures value { result ≡ second_by_of hour minute second }
    ensures within { IfSome result (λ second. second < 86400) }
{
    let (hour, minute, second) = (hour?, minute?, second?);
    if hour < 24 && minute < 60 && second < 60 {
        Some(3600 * u32::from(hour) + 60 * u32::from(minute) + u32::from(second))
    } else {
        None
    }
}

/// The number of four digits.
fn four(a: u8, b: u8, c: u8, d: u8) -> Option<u16>
    ensures { result ≡ four_of a b c d }
{
    Some(100 * u16::from(two(a, b)?) + u16::from(two(c, d)?))
}

/// The number of three digits.
fn three(a: u8, b: u8, c: u8) -> Option<u16>
    ensures value { result ≡ three_of a b c }
    ensures within { IfSome result (λ number. number < 1000) }
{
    if !a.is_ascii_digit() {
        return None;
    }
    Some(100 * u16::from(a - b'0') + u16::from(two(b, c)?))
}

/// The number of two digits.
fn two(a: u8, b: u8) -> Option<u8>
    ensures value { result ≡ two_of a b }
    ensures within { IfSome result (λ number. number < 100) }
{
    if a.is_ascii_digit() && b.is_ascii_digit() {
        Some(10 * (a - b'0') + (b - b'0'))
    } else {
        None
    }
}
