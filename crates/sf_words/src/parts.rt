//! The parts of a text, between carriage returns.
ghost use Rattle.std.specs.Prelude.{◌≡◌, ◌∷◌, ◌++◌, MatchOption, false, length, not};
ghost use Rattle.std.specs.List.{count_by, list_any, prefix_len};
ghost use Rattle.sf_words.specs.Parts.{is_return, parts_of};

/// What stands before the first carriage return of a text, and what behind it; None where it has none.
pub fn split_part(text: &str) -> Option<(&str, &str)>
    ensures { MatchOption result
        (list_any is_return text.now ≡ false)
        (λ parts. (list_any is_return parts.0.now ≡ false) × (text.now ≡ parts.0.now ++ 13 ∷ parts.1.now)) }
{
    let end = part_len(text.as_bytes());
    if end == text.len() {
        return None;
    }
    Some((&text[..end], &text[end + 1..]))
}

/// How many bytes stand before the first carriage return.
fn part_len(bytes: &[u8]) -> usize
    ensures { result ≡ prefix_len (λ byte. not (is_return byte)) bytes.now }
{
    bytes.iter().take_while(|byte| **byte != b'\r').count()
}

/// How many parts a text has, between carriage returns.
pub fn parts_count(text: &str) -> usize
    ensures { result ≡ length (parts_of text.now) }
{
    returns_count(text) + 1
}

/// How many carriage returns a text has.
fn returns_count(text: &str) -> usize
    ensures { result ≡ count_by is_return text.now }
{
    text.bytes().filter(|byte| *byte == b'\r').count()
}
