//! Texts with escapes, as they are read.
ghost use Rattle.std.specs.Prelude.{◌≡◌, ◌+◌, ◌*◌, ◌%◌, ◌++◌, IfOk, OnOk};
ghost use Rattle.std.specs.Option.{option_to_list};
ghost use Rattle.sf_values.specs.Escapes.{byte_at as byte_at_of, digit_value as digit_value_of, named_byte as named_byte_of, state_behind as state_behind_of, unescaped as unescaped_of, within_escape as within_escape_of};
ghost use Rattle.sf_values.specs.Values.{escaped_text_of as escaped_text_spelled};
ghost use Rattle.sf_values.specs.declared.state.State.TheVariants as states;

use super::state::State;
use super::writing::push_escaped;
use sf_features::{AttrValue, Text};
use std::alloc::{AllocError, Global};

/// The text that is written so with escapes: what its bytes spell, where the spelling of that is just these.
pub(crate) fn escaped_text_of(alloc: Global, written: &str) -> Result<Option<AttrValue>, AllocError>
    ensures { IfOk result (λ value. value ≡ escaped_text_spelled written.now) }
{
    let bytes = unescaped(alloc, within_escape(written.as_bytes()))?;
    let Ok(text) = String::from_utf8(bytes) else {
        return Ok(None);
    };
    let mut again = String::with_capacity(alloc, written.len())?;
    push_escaped(&mut again, text.as_str())?;
    if again.as_str() == written {
        Ok(Some(AttrValue::Text(Text::from_string(text))))
    } else {
        Ok(None)
    }
}

/// The bytes between `E'` and a quote at the end.
fn within_escape(bytes: &[u8]) -> &[u8]
    ensures { result.now ≡ within_escape_of bytes.now }
{
    if bytes.len() < 3 {
        return bytes.split_at(0).0;
    }
    bytes.split_at(2).1.split_at(bytes.len() - 3).0
}

/// The text that bytes between `E'` and a quote spell.
fn unescaped(alloc: Global, bytes: &[u8]) -> Result<Vec<u8>, AllocError>
    ensures { IfOk result (λ text. text.items ≡ unescaped_of states.Plain bytes.now) }
{
    let mut text = Vec::with_capacity(alloc, bytes.len())?;
    let mut state = State::Plain;
    for byte in bytes {
        push_told(&mut text, byte_at(&state, *byte))?;
        state = state_behind(&state, *byte);
    }
    Ok(text)
}

/// Puts a byte behind others, if there is one.
fn push_told(text: &mut Vec<u8>, byte: Option<u8>) -> Result<(), AllocError>
    ensures { OnOk result (text.new.items ≡ text.old.items ++ option_to_list byte) }
{
    match byte {
        Some(byte) => Ok(text.push(byte)?),
        None => Ok(()),
    }
}

/// The byte that is told at a byte, if one is.
fn byte_at(state: &State, byte: u8) -> Option<u8>
    ensures { result ≡ byte_at_of state.now byte }
{
    match state {
        State::Plain if byte == b'\\' || byte == b'\'' => None,
        State::Plain => Some(byte),
        State::Quote => Some(b'\''),
        State::Backslash if byte == b'x' => None,
        State::Backslash => Some(named_byte(byte)),
        State::Code => None,
        State::Digit(digit) => Some(byte_of(*digit, digit_value(byte))),
    }
}

/// Where the reading stands behind a byte.
fn state_behind(state: &State, byte: u8) -> State
    ensures { result ≡ state_behind_of state.now byte }
{
    match state {
        State::Plain if byte == b'\\' => State::Backslash,
        State::Plain if byte == b'\'' => State::Quote,
        State::Backslash if byte == b'x' => State::Code,
        State::Code => State::Digit(digit_value(byte)),
        _ => State::Plain,
    }
}

/// The byte that a letter behind a backslash stands for.
fn named_byte(byte: u8) -> u8
    ensures { result ≡ named_byte_of byte }
{
    match byte {
        b'n' => b'\n',
        b't' => b'\t',
        b'r' => b'\r',
        _ => byte,
    }
}

/// The byte of two digits in base 16.
fn byte_of(first: u8, second: u8) -> u8
    ensures { result ≡ (16 * first + second) % 256 }
{
    ((16 * u16::from(first) + u16::from(second)) % 256) as u8
}

/// The value of a digit in base 16.
fn digit_value(byte: u8) -> u8
    ensures { result ≡ digit_value_of byte }
{
    if byte < 58 {
        byte.saturating_sub(b'0')
    } else {
        byte.saturating_sub(87)
    }
}
