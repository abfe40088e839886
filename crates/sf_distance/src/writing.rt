//! Distances, and their squares, as texts.

ghost use Rattle.std.specs.Prelude.{◌≡◌, ◌≤◌, ◌++◌, string_bytes, OnOk};
ghost use Rattle.std.specs.Int.{IsGcd};
ghost use Rattle.sf_distance.specs.Mixed.{number_of};
ghost use Rattle.sf_distance.specs.Texts.{distance_text, reach_text, square_text, terms_text, thousandths_text};

use crate::reach::Reach;
use crate::square::Square;
use std::alloc::AllocError;

/// Puts a distance behind a text, in grid steps, rounded down to three digits behind the point.
///
/// # Errors
///
/// Out of memory. A front of it may then stand there.
pub fn push_distance(text: &mut String, square: &Square) -> Result<(), AllocError>
    ensures { OnOk result (string_bytes text.new ≡ string_bytes text.old ++ distance_text (number_of square.now)) }
{
    push_thousandths(text, square.root_in_thousandths())
}

/// Puts the square of a distance behind a text: a whole number of squared grid steps, or a fraction in lowest terms.
///
/// # Errors
///
/// Out of memory. A front of it may then stand there.
pub fn push_square(text: &mut String, square: &Square) -> Result<(), AllocError>
    ensures { OnOk result (string_bytes text.new ≡ string_bytes text.old ++ square_text (number_of square.now)) }
{
    let num = square.numerator();
    let den = square.denominator();
    let divisor = common_divisor(num, den);
    push_terms(text, num / divisor, den / divisor)
}

/// Puts a distance that is asked about behind a text, in grid steps: a whole number, or one with three digits behind the point.
///
/// # Errors
///
/// Out of memory. A front of it may then stand there.
pub fn push_reach(text: &mut String, reach: Reach) -> Result<(), AllocError>
    ensures { OnOk result (string_bytes text.new ≡ string_bytes text.old ++ reach_text reach) }
{
    let thousandths = reach.thousandths();
    if thousandths % 1000 == 0 {
        write!(text, "{}", thousandths / 1000)
    } else {
        push_thousandths(text, thousandths)
    }
}

/// Puts so many thousandths behind a text.
fn push_thousandths(text: &mut String, thousandths: u64) -> Result<(), AllocError>
    ensures { OnOk result (string_bytes text.new ≡ string_bytes text.old ++ thousandths_text thousandths) }
{
    let whole = thousandths / 1000;
    let tenths = thousandths / 100 % 10;
    let hundredths = thousandths / 10 % 10;
    let rest = thousandths % 10;
    write!(text, "{whole}.{tenths}{hundredths}{rest}")
}

/// Puts a fraction behind a text, without the denominator 1.
fn push_terms(text: &mut String, num: u128, den: u128) -> Result<(), AllocError>
    ensures { OnOk result (string_bytes text.new ≡ string_bytes text.old ++ terms_text num den) }
{
    write!(text, "{num}")?;
    if den == 1 {
        return Ok(());
    }
    write!(text, "/{den}")
}

/// The greatest common divisor of two numbers, the second above 0.
fn common_divisor(a: u128, b: u128) -> u128
    requires { 1 ≤ b }
    ensures some { 1 ≤ result }
    ensures value { IsGcd a b result }
{
    let mut x = a;
    let mut y = b;
    while y != 0 {
        let rest = x % y;
        x = y;
        y = rest;
    }
    x
}
