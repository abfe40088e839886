//! The text of a number.
ghost use Rattle.std.specs.Prelude.{◌≡◌, ◌≤◌, ◌<◌, ◌^◌, ◌++◌, string_bytes, OnOk};
ghost use Rattle.sf_decimals.specs.Decimals.{decimal_text, padded, unsigned_text};

use super::decimal::Decimal;
use std::alloc::AllocError;

/// Puts the text of a number behind a text: a minus or nothing, digits with no zero before them, and the fraction behind a
/// point, if there is one.
///
/// # Errors
///
/// Out of memory. A front of it may then stand there.
pub fn push_decimal(text: &mut String, decimal: &Decimal) -> Result<(), AllocError>
    ensures { OnOk result (string_bytes text.new ≡ string_bytes text.old ++ decimal_text decimal.now) }
{
    let parts = decimal.parts();
    if parts.mantissa < 0 {
        write!(text, "-")?;
    }
    push_unsigned(text, parts.places, parts.mantissa.unsigned_abs())
}

/// Puts the text of a number without a sign behind a text.
fn push_unsigned(text: &mut String, places: u8, magnitude: u64) -> Result<(), AllocError>
    requires { places ≤ 18 }
    ensures { OnOk result (string_bytes text.new ≡ string_bytes text.old ++ unsigned_text places magnitude) }
{
    if places == 0 {
        return write!(text, "{magnitude}");
    }
    let unit = 10u64.pow(u32::from(places));
    write!(text, "{}.", magnitude / unit)?;
    push_padded(text, places, magnitude % unit)
}

/// Puts the last digits of a number behind a text, with zeros before them.
fn push_padded(text: &mut String, places: u8, number: u64) -> Result<(), AllocError>
    requires few { places ≤ 18 }
    requires fits { number < 10 ^ places }
    ensures { OnOk result (string_bytes text.new ≡ string_bytes text.old ++ padded places number) }
{
    let mut left = places;
    let mut rest = number;
    while left > 0 {
        left = left - 1;
        let unit = 10u64.pow(u32::from(left));
        write!(text, "{}", rest / unit)?;
        rest = rest % unit;
    }
    Ok(())
}
