//! What rules ask.
ghost use Rattle.std.specs.Prelude.{◌≡◌, ◌≤◌, length, option_map, take};
ghost use Rattle.sf_known.specs.Patterns.{pattern_of};
ghost use Rattle.sf_format.specs.Stored.{Matching, Named};
ghost use Rattle.sf_format.specs.Format.{ask as read_ask, asked as read_asked, asked_by, distance as read_distance, predicate_of_byte};
ghost use Rattle.sf_loading.specs.Streaming.{Gives};

use super::fields::present;
use super::halt::Halt;
use super::numbers::{number_u8, number_u64, require};
use sf_distance::Reach;
use sf_format::{Ask, Defect};
use sf_known::{Pattern, Predicate};
use sf_streams::Window;
use std::io::Read;
use std::str::from_utf8;

/// How many letters a pattern has.
const LETTERS: usize = 9;

/// The named predicate that a byte stands for.
fn named(byte: u8) -> Option<Ask>
    ensures { result ≡ option_map Named (predicate_of_byte byte) }
{
    match byte {
        1 => Some(Ask::Named(Predicate::Equals)),
        2 => Some(Ask::Named(Predicate::Disjoint)),
        3 => Some(Ask::Named(Predicate::Intersects)),
        4 => Some(Ask::Named(Predicate::Touches)),
        5 => Some(Ask::Named(Predicate::Within)),
        6 => Some(Ask::Named(Predicate::Contains)),
        7 => Some(Ask::Named(Predicate::Crosses)),
        8 => Some(Ask::Named(Predicate::Overlaps)),
        _ => None,
    }
}

/// The pattern that a text spells, or None where it spells none.
fn spelled(text: &str) -> Option<Ask>
    ensures { result ≡ option_map Matching (pattern_of text.now) }
{
    match Pattern::parse(text) {
        Ok(pattern) => Some(Ask::Matching(pattern)),
        Err(_) => None,
    }
}

/// The pattern of the letters ahead, or None where they are none.
fn pattern_ahead(window: &Window) -> Option<Ask>
    requires { 9 ≤ length window.now.bytes }
    ensures { result ≡ option_map Matching (pattern_of (take 9 window.now.bytes)) }
{
    match from_utf8(window.front(LETTERS)) {
        Ok(text) => spelled(text),
        Err(_) => None,
    }
}

/// The pattern of the next letters, or None where they are none.
fn matching<R: Read>(window: &mut Window, reader: &mut R) -> Result<Option<Ask>, Halt>
    ensures { Gives (λ found. found) (asked_by 0) (R.remaining reader.old) (R.remaining reader.new)
        window.old window.new result }
{
    require(window, reader, LETTERS)?;
    let found = pattern_ahead(window);
    window.skip(LETTERS);
    Ok(found)
}

/// What the next bytes ask, or None where they stand for nothing.
fn asked<R: Read>(window: &mut Window, reader: &mut R) -> Result<Option<Ask>, Halt>
    ensures { Gives (λ found. found) read_asked (R.remaining reader.old) (R.remaining reader.new)
        window.old window.new result }
{
    let byte = number_u8(window, reader)?;
    if byte == 0 {
        matching(window, reader)
    } else {
        Ok(named(byte))
    }
}

/// What a rule asks.
pub(crate) fn ask<R: Read>(window: &mut Window, reader: &mut R) -> Result<Ask, Halt>
    ensures { Gives (λ asked. asked) read_ask (R.remaining reader.old) (R.remaining reader.new)
        window.old window.new result }
{
    let place = window.place();
    let asked = asked(window, reader)?;
    present(asked, place, Defect::BadPattern)
}

/// A distance that a rule asks about, in thousandths of a grid step.
pub(crate) fn distance<R: Read>(window: &mut Window, reader: &mut R) -> Result<Reach, Halt>
    ensures { Gives (λ reach. reach) read_distance (R.remaining reader.old) (R.remaining reader.new)
        window.old window.new result }
{
    let place = window.place();
    let thousandths = number_u64(window, reader)?;
    present(Reach::of_thousandths(thousandths), place, Defect::BadFile)
}
