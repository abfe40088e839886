//! The words of a line, which spaces and tabs part.
ghost use Rattle.std.specs.Prelude.{◌≡◌, ◌≢◌, [], ◌∷◌, MatchResult, not};
ghost use Rattle.std.specs.List.{prefix_len, suffix_len, list_all};
ghost use Rattle.sf_wkt.specs.Tokens.{is_blank as is_blank_byte};
ghost use Rattle.sf_words.specs.Words.{words as words_of, skip_blanks as skip_blanks_of, skip_word as skip_word_of, trimmed_end as trimmed_end_of};

use sf_refusals::Refusal;
use std::marker::Model;

/// The words of a line that have not been taken yet. Each call answers `BadCommand` where the line has
/// too few words or too many.
#[derive(Drop)]
pub struct Words<'a> {
    rest: &'a str,
}

impl<'a> Model for Words<'a> {
    ghost use Rattle.std.specs.Prelude.{ℕ, List};

    ghost Value = { List ℕ };

    ghost view = { λ a. a.rest.now };
}

impl<'a> Words<'a> {
    /// All words of a line.
    pub fn new(line: &'a str) -> Words<'a>
        ensures { result ≡ line.now }
    {
        Words { rest: line }
    }

    /// The same words, to be looked at beforehand.
    pub fn again(&self) -> Words<'a>
        ensures { result ≡ self.now }
    {
        Words { rest: self.rest }
    }

    /// The next word.
    pub fn next(&mut self) -> Result<&'a str, Refusal>
        ensures { MatchResult result
            (λ word. (words_of self.old ≡ word.now ∷ words_of self.new) × (self.new ≡ skip_word_of self.old))
            (λ refusal. (words_of self.old ≡ []) × (refusal ≡ Refusal.BadCommand)) }
    {
        let text = self.rest()?;
        let end = word_len(text.as_bytes());
        self.rest = &text[end..];
        Ok(&text[..end])
    }

    /// The text from the next word on.
    pub fn rest(&self) -> Result<&'a str, Refusal>
        ensures { MatchResult result
            (λ text. (words_of self.now ≢ []) × (text.now ≡ skip_blanks_of self.now))
            (λ refusal. (words_of self.now ≡ []) × (refusal ≡ Refusal.BadCommand)) }
    {
        let text = skip_blanks(self.rest);
        if text.is_empty() {
            Err(Refusal::BadCommand)
        } else {
            Ok(text)
        }
    }

    /// The end of the line.
    pub fn finish(&self) -> Result<(), Refusal>
        ensures { MatchResult result
            (λ _. words_of self.now ≡ [])
            (λ refusal. (words_of self.now ≢ []) × (refusal ≡ Refusal.BadCommand)) }
    {
        match self.rest() {
            Ok(_) => Err(Refusal::BadCommand),
            Err(_) => Ok(()),
        }
    }
}

/// Whether a text has blanks alone, or nothing.
pub fn is_blank_text(text: &str) -> bool
    ensures { result ≡ list_all is_blank_byte text.now }
{
    are_blanks(text.as_bytes())
}

/// Whether bytes are blanks alone, or none.
pub fn are_blanks(bytes: &[u8]) -> bool
    ensures { result ≡ list_all is_blank_byte bytes.now }
{
    bytes.iter().all(|byte| is_blank(*byte))
}

/// Whether a byte parts words: a space or a tab.
pub fn is_blank(byte: u8) -> bool
    ensures { result ≡ is_blank_byte byte }
{
    byte == b' ' || byte == b'\t'
}

/// How many blanks stand before the first word.
fn blanks_len(bytes: &[u8]) -> usize
    ensures { result ≡ prefix_len is_blank_byte bytes.now }
{
    bytes.iter().take_while(|byte| is_blank(**byte)).count()
}

/// How many bytes stand before the first blank.
fn word_len(bytes: &[u8]) -> usize
    ensures { result ≡ prefix_len (λ byte. not (is_blank_byte byte)) bytes.now }
{
    bytes.iter().take_while(|byte| !is_blank(**byte)).count()
}

/// The text from its first byte on that is no blank.
fn skip_blanks(text: &str) -> &str
    ensures { result.now ≡ skip_blanks_of text.now }
{
    &text[blanks_len(text.as_bytes())..]
}

/// The text without the blanks at its end.
pub fn trimmed_end(text: &str) -> &str
    ensures { result.now ≡ trimmed_end_of text.now }
{
    &text[..text.len() - blanks_at_end(text.as_bytes())]
}

/// How many blanks stand behind the last word.
fn blanks_at_end(bytes: &[u8]) -> usize
    ensures { result ≡ suffix_len is_blank_byte bytes.now }
{
    bytes
        .iter()
        .rev()
        .take_while(|byte| is_blank(**byte))
        .count()
}
