//! Distances that words spell.
ghost use Rattle.std.specs.Prelude.{◌≡◌, Some};
ghost use Rattle.sf_words.specs.Reaches.{is_near as is_near_word, reach_by, reach_of as reach_spelled, scale_of as scale_of_places};

use sf_decimals::decimal_of;
use sf_distance::Reach;

/// Whether a word asks for what is near.
pub fn is_near(word: &str) -> bool
    ensures { result ≡ is_near_word word.now }
{
    word == "near"
}

/// The distance that a word spells: a number of grid steps from 0 on, as a decimal value is written, below 2^32 and with three
/// places behind the point at most.
pub fn reach_of(word: &str) -> Option<Reach>
    ensures { result ≡ reach_spelled word.now }
{
    let number = decimal_of(word)?.parts();
    let scale = scale_of(number.places)?;
    reach_by_scale(number.mantissa, scale)
}

/// How many thousandths one of the last digit is, where so many stand behind the point.
fn scale_of(places: u8) -> Option<u64>
    ensures { result ≡ scale_of_places places }
{
    match places {
        0 => Some(1000),
        1 => Some(100),
        2 => Some(10),
        3 => Some(1),
        _ => None,
    }
}

/// The distance of so many units, of so many thousandths each, where it is none below 0 and below the limit.
fn reach_by_scale(units: i64, scale: u64) -> Option<Reach>
    ensures { result ≡ reach_by units (Some scale) }
{
    let units = u64::try_from(units).ok()?;
    Reach::of_thousandths(units.checked_mul(scale)?)
}
