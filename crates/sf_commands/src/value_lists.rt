//! How values that a text names are parted: in a list by commas, in a range by the word `to`. Neither parts within quotes.
ghost use Rattle.std.specs.Prelude.{◌≡◌, ◌&&◌, ◌∷◌, [], None, Some, MatchOption};
ghost use Rattle.sf_commands.specs.ValueLists.{around_to as around_to_of, begins_with_to as begins_with_to_of, listed, may_begin as may_begin_of, trimmed as trimmed_of, within_behind as within_behind_of};

use sf_words::{Words, is_blank, trimmed_end};

/// The text without the blanks around it.
pub(crate) fn trimmed(text: &str) -> &str
    ensures { result.now ≡ trimmed_of text.now }
{
    match Words::new(text).rest() {
        Ok(text) => trimmed_end(text),
        Err(_) => "",
    }
}

/// What stands before the first comma outside of quotes, and what behind it; None where there is none.
pub(crate) fn split_at_comma(text: &str) -> Option<(&str, &str)>
    ensures { MatchOption result
        (listed text.now ≡ text.now ∷ [])
        (λ parts. listed text.now ≡ parts.0.now ∷ listed parts.1.now) }
{
    let mut within = false;
    for (place, byte) in text.as_bytes().iter().enumerate() {
        if !within && *byte == b',' {
            return Some((&text[..place], &text[place + 1..]));
        }
        within = within_behind(within, *byte);
    }
    None
}

/// What stands before the first word `to` outside of quotes, and what behind it; None where there is none.
pub(crate) fn around_to(text: &str) -> Option<(&str, &str)>
    ensures { MatchOption result
        (around_to_of text.now ≡ None)
        (λ ends. around_to_of text.now ≡ Some (ends.0.now, ends.1.now)) }
{
    let bytes = text.as_bytes();
    let mut within = false;
    let mut begins = true;
    for (place, byte) in bytes.iter().enumerate() {
        if is_to(begins, &bytes[place..]) {
            return Some((&text[..place], &text[place + 2..]));
        }
        begins = may_begin(within, *byte);
        within = within_behind(within, *byte);
    }
    None
}

/// Whether what stands behind a byte is within quotes.
fn within_behind(within: bool, byte: u8) -> bool
    ensures { result ≡ within_behind_of within byte }
{
    if byte == b'\'' { !within } else { within }
}

/// Whether a word outside of quotes may begin behind a byte.
fn may_begin(within: bool, byte: u8) -> bool
    ensures { result ≡ may_begin_of within byte }
{
    !within && is_blank(byte)
}

/// Whether the word `to` stands at the front of bytes, where a word may begin there.
fn is_to(begins: bool, bytes: &[u8]) -> bool
    ensures { result ≡ (begins && begins_with_to_of bytes.now) }
{
    begins && begins_with_to(bytes)
}

/// Whether `to` stands at the front of bytes, with a blank or the end behind it.
fn begins_with_to(bytes: &[u8]) -> bool
    ensures { result ≡ begins_with_to_of bytes.now }
{
    match bytes {
        [b't', b'o'] => true,
        [b't', b'o', byte, ..] => is_blank(*byte),
        _ => false,
    }
}
