//! The editor who gives a command: the first word of a line may name one, as `@7`.
ghost use Rattle.std.specs.Prelude.{◌≡◌, Ok, Err, Some, None, MatchOption, MatchResult};
ghost use Rattle.sf_words.specs.Editors.{addressed as addressed_of, behind_at as behind_at_of, editor_of as editor_spelled};

use super::numerals::is_short_numeral;
use super::words::Words;
use sf_refusals::Refusal;

/// How many digits the number of an editor has at most.
const EDITOR_DIGITS_MAX: usize = 3;

/// The editor of a line, and the words behind the one that names it; editor 0 and all words where none does.
/// `BadCommand` where there is no word, or a word that begins with `@` names no editor.
pub fn addressed(line: &str) -> Result<(u8, Words<'_>), Refusal>
    ensures { MatchResult result
        (λ at. addressed_of line.now ≡ Ok (at.0, at.1))
        (λ refusal. addressed_of line.now ≡ Err refusal) }
{
    let mut words = Words::new(line);
    let first = words.next()?;
    let Some(digits) = behind_at(first) else {
        return Ok((0, Words::new(line)));
    };
    let editor = editor_of(digits).ok_or(Refusal::BadCommand)?;
    Ok((editor, words))
}

/// What stands behind the `@` at the front of a word, if one stands there.
fn behind_at(word: &str) -> Option<&str>
    ensures { MatchOption result
        (behind_at_of word.now ≡ None)
        (λ rest. behind_at_of word.now ≡ Some rest.now) }
{
    word.strip_prefix('@')
}

/// The number of an editor that one to three digits spell, where it is from 1 to 255.
fn editor_of(digits: &str) -> Option<u8>
    ensures { result ≡ editor_spelled digits.now }
{
    if !is_short_numeral(digits, EDITOR_DIGITS_MAX) {
        return None;
    }
    let editor = digits.parse::<u8>().ok()?;
    if editor == 0 {
        return None;
    }
    Some(editor)
}
