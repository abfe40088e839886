//! The order of numbers.

ghost use Rattle.std.specs.Prelude.{◌≡◌, ◌≤◌, ◌-◌, ◌*ℤ◌, ◌^◌, pos};
ghost use Rattle.std.specs.Ordering.{int_cmp};
ghost use Rattle.sf_decimals.specs.Decimals.{places_max, scaled as scaled_of};

use super::decimal::Decimal;
use super::number::Number;
use super::reading::PLACES_MAX;
use std::cmp::Ordering;

/// The order of two numbers by their value.
pub fn compare(a: &Decimal, b: &Decimal) -> Ordering
    ensures { result ≡ int_cmp (scaled_of a.now) (scaled_of b.now) }
{
    scaled(a.parts()).cmp(&scaled(b.parts()))
}

/// A number of at most 18 places as whole 10 ^ 18ths of one.
fn scaled(number: Number) -> i128
    requires { number.places ≤ places_max }
    ensures { result ≡ scaled_of number }
{
    product(number.mantissa, weight(number.places))
}

/// How many 10 ^ 18ths the last of so many places counts.
fn weight(places: u8) -> u64
    requires { places ≤ places_max }
    ensures value { result ≡ 10 ^ (places_max - places) }
    ensures bound { result ≤ 10 ^ places_max }
{
    10_u64.pow(u32::from(PLACES_MAX - places))
}

/// A product that needs more than 64 bits.
fn product(a: i64, b: u64) -> i128
    requires { b ≤ 10 ^ places_max }
    ensures { result ≡ a *ℤ pos b }
{
    i128::from(a) * i128::from(b)
}
