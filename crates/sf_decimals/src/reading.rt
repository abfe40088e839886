ghost use Rattle.std.specs.Prelude.{◌≡◌, ◌≢◌, ◌≤◌, ◌<◌, ◌^◌, ◌+◌, ◌-◌, ◌*◌, ◌++◌, ◌∷◌, [], ℕ, List, length, take, drop, option_map, IsTrue, IfSome, MatchOption, None, Some, if◌then◌else◌, nat_lt};
ghost use Rattle.std.specs.List.{prefix_len, list_all};
ghost use Rattle.std.specs.Char.{is_ascii_digit};
ghost use Rattle.sf_decimals.specs.Decimals.{decimal_spelled, fits_int, fraction_of, is_negative as is_negative_of, kept as kept_of, number_of as number_spelled, read_on as read_on_of, sign_len as sign_len_of, signed as signed_of, unsigned_spelled};

use super::decimal::Decimal;
use super::number::Number;

/// How many places a number has at most.
pub(crate) const PLACES_MAX: u8 = 18;

/// The number that a text spells: digits behind an optional sign, and behind them an optional point and digits. Zeros
/// at the end of the fraction are dropped. None where it spells none, or none of 64 bits and 18 places.
pub fn decimal_of(text: &str) -> Option<Decimal>
    ensures { result ≡ decimal_spelled text.now }
{
    let bytes = text.as_bytes();
    match unsigned(is_negative(bytes), bytes.split_at(sign_len(bytes)).1) {
        Some(number) => Decimal::new(number),
        None => None,
    }
}

/// How many bytes a sign at the front takes.
fn sign_len(bytes: &[u8]) -> usize
    ensures len { result ≡ sign_len_of bytes.now }
    ensures within { result ≤ length bytes.now }
{
    match bytes {
        [b'+' | b'-', ..] => 1,
        _ => 0,
    }
}

/// Whether a minus stands at the front.
fn is_negative(bytes: &[u8]) -> bool
    ensures { result ≡ is_negative_of bytes.now }
{
    matches!(bytes, [b'-', ..])
}

/// The number of a text behind its sign.
fn unsigned(negative: bool, unsigned: &[u8]) -> Option<Number>
    ensures { result ≡ unsigned_spelled negative unsigned.now }
{
    let (whole, rest) = unsigned.split_at(digits_len(unsigned));
    match fraction(rest) {
        Some(fraction) => number_of(negative, whole, kept(fraction)),
        None => None,
    }
}

/// How many digits stand at the front.
fn digits_len(bytes: &[u8]) -> usize
    ensures len { result ≡ prefix_len is_ascii_digit bytes.now }
    ensures within { result ≤ length bytes.now }
{
    bytes
        .iter()
        .take_while(|byte| byte.is_ascii_digit())
        .count()
}

/// The digits behind a point, where that is all.
fn fraction(rest: &[u8]) -> Option<&[u8]>
    ensures { option_map (λ digits. digits.now) result ≡ fraction_of rest.now }
{
    match rest {
        [] => Some(rest),
        [b'.', digits @ ..] => {
            if !digits.is_empty() && are_digits(digits) {
                Some(digits)
            } else {
                None
            }
        }
        _ => None,
    }
}

fn are_digits(bytes: &[u8]) -> bool
    ensures { result ≡ list_all is_ascii_digit bytes.now }
{
    bytes.iter().all(|byte| byte.is_ascii_digit())
}

/// Digits without the zeros at their end.
fn kept(digits: &[u8]) -> &[u8]
    ensures { result.now ≡ kept_of digits.now }
{
    let mut left = digits;
    while let Some(front) = before_zero(left) {
        left = front;
    }
    left
}

/// What stands before a zero at the end.
fn before_zero(digits: &[u8]) -> Option<&[u8]>
    ensures { MatchOption result
        ((front : List ℕ) → digits.now ≢ front ++ 48 ∷ [])
        (λ front. digits.now ≡ front.now ++ 48 ∷ []) }
{
    let Some((last, front)) = digits.split_last() else {
        return None;
    };
    if *last == b'0' { Some(front) } else { None }
}

/// The number of these digits before and behind the point.
fn number_of(negative: bool, whole: &[u8], fraction: &[u8]) -> Option<Number>
    ensures { result ≡ number_spelled negative whole.now fraction.now }
{
    if whole.is_empty() || fraction.len() > usize::from(PLACES_MAX) {
        return None;
    }
    let Some(before) = read_on(0, whole) else {
        return None;
    };
    let Some(magnitude) = read_on(before, fraction) else {
        return None;
    };
    match signed(negative, magnitude) {
        Some(mantissa) => Some(Number {
            mantissa,
            places: fraction.len() as u8,
        }),
        None => None,
    }
}

/// The number that digits spell behind a number, if it is below 2 ^ 64.
fn read_on(from: u64, digits: &[u8]) -> Option<u64>
    ensures { result ≡ (if nat_lt (read_on_of from digits.now) (2 ^ 64) then Some (read_on_of from digits.now) else None) }
{
    let mut number = from;
    for digit in digits {
        let Some(more) = with_digit(number, *digit) else {
            return None;
        };
        number = more;
    }
    Some(number)
}

/// The number with one more digit behind it, if it is below 2 ^ 64.
fn with_digit(number: u64, digit: u8) -> Option<u64>
    ensures { MatchOption result (2 ^ 64 ≤ 10 * number + (digit - 48)) (λ more. more ≡ 10 * number + (digit - 48)) }
{
    let Some(tens) = number.checked_mul(10) else {
        return None;
    };
    tens.checked_add(u64::from(digit.saturating_sub(b'0')))
}

/// The number under a sign, if it has 64 bits.
fn signed(negative: bool, magnitude: u64) -> Option<i64>
    ensures { result ≡ (if fits_int (signed_of negative magnitude) then Some (signed_of negative magnitude) else None) }
{
    if negative {
        0i64.checked_sub_unsigned(magnitude)
    } else {
        0i64.checked_add_unsigned(magnitude)
    }
}
