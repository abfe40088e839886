ghost use Rattle.std.specs.Prelude.{◌≡◌, SomeIff};
ghost use Rattle.sf_decimals.specs.Decimals.{IsDecimal, is_decimal as is_decimal_of, is_fraction as is_fraction_of, is_reduced as is_reduced_of, magnitude};

use super::number::Number;
use super::reading::PLACES_MAX;
use std::marker::Model;

/// An exact number in its one form: a mantissa of 64 bits, and how many of its digits stand behind the point, 0 to 18.
/// The last of these is no 0.
#[derive(Clone, Copy, Debug)]
pub struct Decimal {
    number: Number,
}

impl Model for Decimal {
    ghost use Rattle.sf_decimals.specs.declared.number.Number.{Number};
    ghost use Rattle.sf_decimals.specs.Decimals.{IsDecimal};

    ghost Value = { Number };

    ghost view = { λ d. d.number };

    ghost invariant = { λ d. IsDecimal d.number };

    ghost inverse = { λ n. record { number = n } };
}

impl Decimal {
    /// The number of these parts, or None exactly where they are not its one form.
    pub fn new(parts: Number) -> Option<Decimal>
        ensures { SomeIff result (IsDecimal parts) parts }
    {
        if is_decimal(&parts) {
            Some(Decimal { number: parts })
        } else {
            None
        }
    }

    /// A whole number.
    pub fn whole(number: i64) -> Decimal
        ensures { result ≡ record { mantissa = number; places = 0 } }
    {
        Decimal {
            number: Number {
                mantissa: number,
                places: 0,
            },
        }
    }

    /// The parts of the number.
    pub fn parts(&self) -> Number
        ensures value { result ≡ self.now }
        ensures form { IsDecimal self.now }
    {
        self.number
    }

    /// Whether the number is no whole one.
    pub fn is_fraction(&self) -> bool
        ensures { result ≡ is_fraction_of self.now }
    {
        self.number.places > 0
    }
}

/// Whether a number is in its one form: at most 18 places, and no zero at the end of its fraction.
fn is_decimal(number: &Number) -> bool
    ensures { result ≡ is_decimal_of number.now }
{
    number.places <= PLACES_MAX && is_reduced(number.places, number.mantissa)
}

/// Whether no zero stands at the end of the fraction.
fn is_reduced(places: u8, mantissa: i64) -> bool
    ensures { result ≡ is_reduced_of places (magnitude mantissa) }
{
    places == 0 || mantissa.unsigned_abs() % 10 != 0
}
