//! Measures as texts.

ghost use Rattle.std.specs.Prelude.{◌≡◌, ◌++◌, string_bytes, OnOk};
ghost use Rattle.sf_geometry.specs.Size.{IsSized};
ghost use Rattle.sf_measure.specs.Texts.{halves_text, measure_text, signed_halves_text, thousandths_text};

use super::area::doubled_area;
use super::length::length_in_thousandths;
use super::measure::Measure;
use sf_geometry::Geometry;
use std::alloc::AllocError;

/// Puts a measure of a geometry behind a text: an area as a whole number of squared grid steps, with `.5` behind it where a
/// half is left; a length in grid steps with three digits behind the point.
///
/// # Errors
///
/// Out of memory. A front of it may then stand there.
pub fn push_measure(
    text: &mut String,
    measure: Measure,
    geometry: &Geometry,
) -> Result<(), AllocError>
    requires sized { IsSized geometry.now }
    ensures { OnOk result (string_bytes text.new ≡ string_bytes text.old ++ measure_text measure geometry.now) }
{
    match measure {
        Measure::Area => push_signed_halves(text, doubled_area(geometry)),
        Measure::Length => push_thousandths(text, length_in_thousandths(geometry)),
    }
}

/// Puts so many halves behind a text.
fn push_signed_halves(text: &mut String, halves: i128) -> Result<(), AllocError>
    ensures { OnOk result (string_bytes text.new ≡ string_bytes text.old ++ signed_halves_text halves) }
{
    if halves < 0 {
        text.push('-')?;
    }
    push_halves(text, halves.unsigned_abs())
}

/// The same without a sign.
fn push_halves(text: &mut String, halves: u128) -> Result<(), AllocError>
    ensures { OnOk result (string_bytes text.new ≡ string_bytes text.old ++ halves_text halves) }
{
    write!(text, "{}", halves / 2)?;
    if halves % 2 == 0 {
        return Ok(());
    }
    text.push_str(".5")
}

/// Puts so many thousandths behind a text.
fn push_thousandths(text: &mut String, thousandths: u64) -> Result<(), AllocError>
    ensures { OnOk result (string_bytes text.new ≡ string_bytes text.old ++ thousandths_text thousandths) }
{
    let whole = thousandths / 1000;
    let tenths = thousandths / 100 % 10;
    let hundredths = thousandths / 10 % 10;
    let rest = thousandths % 10;
    write!(text, "{whole}.{tenths}{hundredths}{rest}")
}
