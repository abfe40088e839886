//! Numbers that words of digits spell.
ghost use Rattle.std.specs.Prelude.{◌≡◌, ◌&&◌, nat_le, length};
ghost use Rattle.std.specs.Char.{is_ascii_digit};
ghost use Rattle.std.specs.List.{list_all};
ghost use Rattle.sf_words.specs.Naming.{id_of as id_spelled};

/// How many digits an identifier has at most.
const ID_DIGITS_MAX: usize = 10;

/// The identifier, place or index that one to ten digits spell, where it is at most 4294967295.
pub fn id_of(word: &str) -> Option<u32>
    ensures { result ≡ id_spelled word.now }
{
    if !is_short_numeral(word, ID_DIGITS_MAX) {
        return None;
    }
    word.parse().ok()
}

/// Whether a word has ASCII digits alone, at most so many of them.
pub(crate) fn is_short_numeral(word: &str, digits_max: usize) -> bool
    ensures { result ≡ (nat_le (length word.now) digits_max && list_all is_ascii_digit word.now) }
{
    word.len() <= digits_max && is_numeral(word.as_bytes())
}

/// Whether all bytes are ASCII digits.
fn is_numeral(bytes: &[u8]) -> bool
    ensures { result ≡ list_all is_ascii_digit bytes.now }
{
    bytes.iter().all(|byte| byte.is_ascii_digit())
}
