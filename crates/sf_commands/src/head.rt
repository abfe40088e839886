//! The head of several lines that are one step.
ghost use Rattle.std.specs.Prelude.{◌≡◌, ◌∷◌, [], IsFalse, None};
ghost use Rattle.sf_commands.specs.GroupTexts.{begins_as_head as begins_as_head_of, count_of as count_spelled, group_of, head_by_words, head_of as head_spelled};
ghost use Rattle.sf_words.specs.Words.{words as words_of};

use sf_words::{Words, addressed, id_of, is_blank};

/// The first line of several that are one step: whose step it is, and how many members come.
#[derive(Clone, Copy, Debug, PartialEq, Eq)]
pub struct Head {
    pub editor: u8,
    pub members: u16,
}

/// The head that a text is: `together` and a number from 1 to 65535, behind an editor's word where one stands there.
pub fn head_of(text: &str) -> Option<Head>
    ensures { result ≡ head_spelled text.now }
{
    let Ok((editor, words)) = addressed(text) else {
        return None;
    };
    let head = head_of_words(editor, words)?;
    if text.contains('\r') {
        None
    } else {
        Some(head)
    }
}

/// Whether bytes begin as a head may: with a blank, an editor's word or a `t`. Those of most lines do not, and are
/// neither a head nor a group, which one look tells.
pub fn begins_as_head(bytes: &[u8]) -> bool
    ensures value { result ≡ begins_as_head_of bytes.now }
    ensures head { IsFalse result → head_spelled bytes.now ≡ None }
    ensures group { IsFalse result → group_of bytes.now ≡ None }
{
    begins(bytes)
}

/// Whether bytes begin with one with which a head may.
fn begins(bytes: &[u8]) -> bool
    ensures { result ≡ begins_as_head_of bytes.now }
{
    match bytes.first() {
        Some(byte) => begins_head(*byte),
        None => false,
    }
}

/// Whether a head may begin with a byte.
fn begins_head(byte: u8) -> bool
    ensures { result ≡ begins_as_head_of (byte ∷ []) }
{
    is_blank(byte) || byte == b'@' || byte == b't'
}

/// The head that the words behind an editor's are.
fn head_of_words(editor: u8, words: Words<'_>) -> Option<Head>
    ensures { result ≡ head_by_words editor (words_of words.entry) }
{
    let mut words = words;
    if words.next().ok()? != "together" {
        return None;
    }
    let members = count_of(words.next().ok()?)?;
    words.finish().ok()?;
    Some(Head { editor, members })
}

/// The number of members that a word spells: from 1 to 65535.
fn count_of(word: &str) -> Option<u16>
    ensures { result ≡ count_spelled word.now }
{
    match id_of(word) {
        Some(0) | None => None,
        Some(count) => u16::try_from(count).ok(),
    }
}
