//! Attribute values that texts spell.
ghost use Rattle.std.specs.Prelude.{◌≡◌, ◌≢◌, ℕ, List, [], ◌∷◌, ◌++◌, IfOk, IsTrue, MatchOption, if◌then◌else◌};
ghost use Rattle.std.specs.List.{list_all};
ghost use Rattle.sf_values.specs.Values.{begins_with_escape as begins_with_escape_of, begins_with_letter as begins_with_letter_of, begins_with_quote as begins_with_quote_of, bool_of as bool_spelled, dated_of as dated_spelled, escaped_text_of as escaped_text_spelled, is_plain, number_of as number_spelled, text_of as text_spelled, value_of as value_spelled, wordless_of as wordless_spelled};

use super::unescaping::escaped_text_of;
use sf_features::{AttrValue, Text};
use std::alloc::{AllocError, Global};

/// How many bytes the text of a day has.
const DAY_LEN: usize = 10;

/// The value that a text spells: `true` or `false`; a day, as 2024-02-29; a moment in UTC, as
/// 2024-02-29T18:30:00.500Z, where the milliseconds may be left out; a number, digits behind an optional sign and
/// then optionally a point and digits; a text in single quotes, each quote in it doubled; or a text with escapes,
/// `E'..'`, in which a line feed is `\n`, a tab `\t`, a carriage return `\r`, a backslash `\\`, a quote `''`, and
/// each other control character of ASCII `\x` with two digits in base 16, in small letters. None where it spells no
/// value.
///
/// # Errors
///
/// Out of memory, which a text alone takes.
pub fn value_of(alloc: Global, text: &str) -> Result<Option<AttrValue>, AllocError>
    ensures { IfOk result (λ value. value ≡ value_spelled text.now) }
{
    let bytes = text.as_bytes();
    if begins_with_quote(bytes) {
        text_of(alloc, text)
    } else if begins_with_letter(bytes) {
        lettered_of(alloc, text)
    } else {
        Ok(wordless_of(text))
    }
}

fn begins_with_quote(bytes: &[u8]) -> bool
    ensures { result ≡ begins_with_quote_of bytes.now }
{
    matches!(bytes, [b'\'', ..])
}

/// Whether a letter stands in front, or another byte that neither a number nor a day begins with.
fn begins_with_letter(bytes: &[u8]) -> bool
    ensures { result ≡ begins_with_letter_of bytes.now }
{
    matches!(bytes, [b'A'..=255, ..])
}

/// The value that a text with a letter in front spells: a text with escapes, or a word.
fn lettered_of(alloc: Global, text: &str) -> Result<Option<AttrValue>, AllocError>
    ensures { IfOk result (λ value. value ≡ (if begins_with_escape_of text.now then escaped_text_spelled text.now else bool_spelled text.now)) }
{
    if begins_with_escape(text.as_bytes()) {
        escaped_text_of(alloc, text)
    } else {
        Ok(word_of(text))
    }
}

fn begins_with_escape(bytes: &[u8]) -> bool
    ensures { result ≡ begins_with_escape_of bytes.now }
{
    matches!(bytes, [b'E', b'\'', ..])
}

fn word_of(text: &str) -> Option<AttrValue>
    ensures { result ≡ bool_spelled text.now }
{
    match text {
        "true" => Some(AttrValue::Bool(true)),
        "false" => Some(AttrValue::Bool(false)),
        _ => None,
    }
}

/// The day, the moment or the number that a text spells.
fn wordless_of(text: &str) -> Option<AttrValue>
    ensures { result ≡ wordless_spelled text.now }
{
    match dated_of(text) {
        Some(value) => Some(value),
        None => number_of(text),
    }
}

/// The day or the moment that a text spells. Most numbers are shorter than one.
fn dated_of(text: &str) -> Option<AttrValue>
    ensures { result ≡ dated_spelled text.now }
{
    if text.len() < DAY_LEN {
        return None;
    }
    if let Some(date) = sf_dates::date_of(text) {
        return Some(AttrValue::Date(date));
    }
    match sf_dates::datetime_of(text) {
        Some(moment) => Some(AttrValue::DateTime(moment)),
        None => None,
    }
}

/// The number that a text spells, an `Int` where it is whole.
fn number_of(text: &str) -> Option<AttrValue>
    ensures { result ≡ number_spelled text.now }
{
    match sf_decimals::decimal_of(text) {
        Some(number) => Some(AttrValue::of_number(number)),
        None => None,
    }
}

/// The text that is written so in quotes.
fn text_of(alloc: Global, quoted: &str) -> Result<Option<AttrValue>, AllocError>
    ensures { IfOk result (λ value. value ≡ text_spelled quoted.now) }
{
    let Some(inner) = between_quotes(quoted) else {
        return Ok(None);
    };
    let mut value = String::new(alloc);
    let mut rest = inner;
    while let Some((plain, after)) = at_quote(rest) {
        let Some(after) = behind_quote(after) else {
            return Ok(None);
        };
        value.push_str(plain)?;
        value.push('\'')?;
        rest = after;
    }
    value.push_str(rest)?;
    Ok(Some(AttrValue::Text(Text::from_string(value))))
}

/// What stands between a quote at the front and another at the end.
fn between_quotes(quoted: &str) -> Option<&str>
    ensures { MatchOption result
        ((inner : List ℕ) → quoted.now ≢ 39 ∷ inner ++ 39 ∷ [])
        (λ inner. quoted.now ≡ 39 ∷ inner.now ++ 39 ∷ []) }
{
    before_last_quote(behind_quote(quoted)?)
}

/// What stands behind a quote at the front.
fn behind_quote(text: &str) -> Option<&str>
    ensures { MatchOption result
        ((rest : List ℕ) → text.now ≢ 39 ∷ rest)
        (λ rest. text.now ≡ 39 ∷ rest.now) }
{
    text.strip_prefix('\'')
}

/// What stands before a quote at the end.
fn before_last_quote(text: &str) -> Option<&str>
    ensures { MatchOption result
        ((front : List ℕ) → text.now ≢ front ++ 39 ∷ [])
        (λ front. text.now ≡ front.now ++ 39 ∷ []) }
{
    text.strip_suffix('\'')
}

/// What stands before the first quote, and behind it.
fn at_quote(text: &str) -> Option<(&str, &str)>
    ensures { MatchOption result
        (IsTrue (list_all is_plain text.now))
        (λ parts. IsTrue (list_all is_plain parts.0.now) × (text.now ≡ parts.0.now ++ 39 ∷ parts.1.now)) }
{
    text.split_once('\'')
}
