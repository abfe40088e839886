//! The text of a value.
ghost use Rattle.std.specs.Prelude.{◌≡◌, ◌<◌, ◌++◌, OnOk, flat_map, string_bytes};
ghost use Rattle.std.specs.Char.{digit_char};
ghost use Rattle.std.specs.List.{list_any, prefix_len};
ghost use Rattle.sf_values.specs.Escapes.{code_of, escape_of, escaped, is_control as is_control_of, is_unescaped};
ghost use Rattle.sf_values.specs.Values.{is_plain, is_plain_in, quoted, special_byte, value_text, written_byte, written_text};

use super::form::Form;
use sf_features::AttrValue;
use std::alloc::AllocError;

/// Puts the text of a value behind a text: what [`value_of`](super::value_of) reads as the same value.
///
/// # Errors
///
/// Out of memory. A part of it may then stand behind the text.
pub fn push_value(text: &mut String, value: &AttrValue) -> Result<(), AllocError>
    ensures { OnOk result (string_bytes text.new ≡ string_bytes text.old ++ value_text value.now) }
{
    match value {
        AttrValue::Int(number) => write!(text, "{number}"),
        AttrValue::Text(value) => push_text(text, value.as_str()),
        AttrValue::Decimal(number) => sf_decimals::push_decimal(text, number),
        AttrValue::Bool(true) => text.push_str("true"),
        AttrValue::Bool(false) => text.push_str("false"),
        AttrValue::Date(date) => sf_dates::push_date(text, date),
        AttrValue::DateTime(moment) => sf_dates::push_datetime(text, moment),
    }
}

/// A text in quotes, or with escapes where it has a control character.
fn push_text(text: &mut String, value: &str) -> Result<(), AllocError>
    ensures { OnOk result (string_bytes text.new ≡ string_bytes text.old ++ written_text value.now) }
{
    if has_control(value.as_bytes()) {
        push_escaped(text, value)
    } else {
        push_quoted(text, value)
    }
}

fn has_control(bytes: &[u8]) -> bool
    ensures { result ≡ list_any is_control_of bytes.now }
{
    bytes.iter().any(|byte| is_control(*byte))
}

/// A text in quotes, each quote in it doubled.
fn push_quoted(text: &mut String, value: &str) -> Result<(), AllocError>
    ensures { OnOk result (string_bytes text.new ≡ string_bytes text.old ++ quoted value.now) }
{
    text.push('\'')?;
    push_inner(text, value, &Form::Quoted)?;
    text.push('\'')
}

/// A text with escapes.
pub(crate) fn push_escaped(text: &mut String, value: &str) -> Result<(), AllocError>
    ensures { OnOk result (string_bytes text.new ≡ string_bytes text.old ++ escaped value.now) }
{
    text.push_str("E'")?;
    push_inner(text, value, &Form::Escaped)?;
    text.push('\'')
}

/// What stands between the quotes: the pieces of plain bytes as they are, and something else for each other byte.
fn push_inner(text: &mut String, value: &str, form: &Form) -> Result<(), AllocError>
    ensures { OnOk result (string_bytes text.new ≡ string_bytes text.old ++ flat_map (written_byte form.now) value.now) }
{
    let mut rest = value;
    let mut end = plain_len(rest, form);
    while end < rest.len() {
        text.push_str(&rest[..end])?;
        let special = &rest[end..];
        push_special(text, special.as_bytes()[0], form)?;
        rest = &special[1..];
        end = plain_len(rest, form);
    }
    text.push_str(rest)
}

/// How many bytes at the front of a text stand as they are.
fn plain_len(text: &str, form: &Form) -> usize
    ensures { result ≡ prefix_len (is_plain_in form.now) text.now }
{
    match form {
        Form::Quoted => unquoted_len(text.as_bytes()),
        Form::Escaped => unescaped_len(text.as_bytes()),
    }
}

/// How many bytes stand before the first quote.
fn unquoted_len(bytes: &[u8]) -> usize
    ensures { result ≡ prefix_len is_plain bytes.now }
{
    bytes
        .iter()
        .take_while(|byte| is_plain_byte(**byte))
        .count()
}

/// How many bytes stand before the first that has an escape.
fn unescaped_len(bytes: &[u8]) -> usize
    ensures { result ≡ prefix_len is_unescaped bytes.now }
{
    bytes
        .iter()
        .take_while(|byte| is_unescaped_byte(**byte))
        .count()
}

/// What stands for a byte that is not plain.
fn push_special(text: &mut String, byte: u8, form: &Form) -> Result<(), AllocError>
    ensures { OnOk result (string_bytes text.new ≡ string_bytes text.old ++ special_byte form.now byte) }
{
    match form {
        Form::Quoted => text.push_str("''"),
        Form::Escaped => push_escape(text, byte),
    }
}

fn push_escape(text: &mut String, byte: u8) -> Result<(), AllocError>
    ensures { OnOk result (string_bytes text.new ≡ string_bytes text.old ++ escape_of byte) }
{
    match byte {
        b'\n' => text.push_str("\\n"),
        b'\t' => text.push_str("\\t"),
        b'\r' => text.push_str("\\r"),
        b'\\' => text.push_str("\\\\"),
        b'\'' => text.push_str("''"),
        _ => push_code(text, byte),
    }
}

/// A byte as `\x` and two digits in base 16.
fn push_code(text: &mut String, byte: u8) -> Result<(), AllocError>
    ensures { OnOk result (string_bytes text.new ≡ string_bytes text.old ++ code_of byte) }
{
    text.push_str("\\x")?;
    text.push(hex_digit(byte / 16))?;
    text.push(hex_digit(byte % 16))
}

/// A digit in base 16, in small letters.
fn hex_digit(digit: u8) -> char
    requires { digit < 16 }
    ensures digit { result ≡ digit_char digit }
    ensures ascii { result < 128 }
{
    char::from_digit(u32::from(digit), 16).unwrap()
}

/// Whether a byte is no quote.
fn is_plain_byte(byte: u8) -> bool
    ensures { result ≡ is_plain byte }
{
    byte != b'\''
}

/// Whether a byte has no escape.
fn is_unescaped_byte(byte: u8) -> bool
    ensures { result ≡ is_unescaped byte }
{
    !(is_control(byte) || byte == b'\\' || byte == b'\'')
}

/// Whether a byte is a control character of ASCII.
fn is_control(byte: u8) -> bool
    ensures { result ≡ is_control_of byte }
{
    byte < 32 || byte == 127
}
