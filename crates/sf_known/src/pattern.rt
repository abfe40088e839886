ghost use Rattle.std.specs.Prelude.{◌≡◌, Result, length};
ghost use Rattle.sf_known.specs.Patterns.{asks_contact, matches, pattern_of};
ghost use Rattle.sf_known.specs.Known.{allows_contact, exceeds_letters, falls_short};
ghost use Rattle.sf_known.specs.Transposed.{transposed};
ghost use Rattle.sf_known.specs.declared.refusal.Refusal.TheVariants.{BadPattern};
ghost use Rattle.std.specs.Option.{ok_or};

use super::entries::exceeds;
use super::letter::Letter;
use super::matrix::Matrix;
use super::refusal::Refusal;
use sf_plane::Dim;
use std::marker::Model;

/// What nine entries are to be.
#[derive(Clone, Copy, Debug, PartialEq, Eq)]
pub struct Pattern(pub(crate) [Letter; 9]);

impl Model for Pattern {
    ghost use Rattle.std.specs.Prelude.{List};
    ghost use Rattle.sf_known.specs.declared.letter.Letter.{Letter};

    ghost Value = { List Letter };

    ghost view = { λ a. a.0 };

    ghost inverse = { λ ls. record { 0 = ls } };
}

impl Pattern {
    /// The pattern of nine letters, or BadPattern exactly where they aren't nine of `T t F f * 0 1 2`.
    pub fn parse(text: &str) -> Result<Pattern, Refusal>
        ensures { result ≡ ok_or (pattern_of text.now) BadPattern }
    {
        let bytes = text.as_bytes();
        if bytes.len() != 9 {
            return Err(Refusal::BadPattern);
        }
        let mut letters = [Letter::Any; 9];
        for place in 0..9 {
            match Letter::of(bytes[place]) {
                None => return Err(Refusal::BadPattern),
                Some(letter) => letters[place] = letter,
            }
        }
        Ok(Pattern(letters))
    }

    /// Its nine letters, row by row.
    pub fn letters(&self) -> &[Letter; 9]
        ensures { result.now ≡ self.now }
    {
        &self.0
    }

    /// The pattern of the two geometries the other way round: its columns as rows.
    pub fn transposed(&self) -> Pattern
        ensures turned { result ≡ transposed self.now }
        ensures nine { length self.now ≡ 9 }
    {
        let [ii, ib, ie, bi, bb, be, ei, eb, ee] = self.0;
        Pattern([ii, bi, ei, ib, bb, eb, ie, be, ee])
    }

    /// Whether the matrix matches.
    pub fn matches(&self, matrix: &Matrix) -> bool
        ensures { result ≡ matches self.now matrix.now.0 }
    {
        self.admits(&matrix.0)
    }

    /// Whether each entry is as its letter asks.
    pub(crate) fn admits(&self, entries: &[Dim; 9]) -> bool
        ensures { result ≡ matches self.now entries.now }
    {
        self.0
            .iter()
            .zip(entries.iter())
            .all(|(letter, dim)| letter.admits(*dim))
    }

    /// Whether an entry that has at least this has more than its letter admits.
    pub(crate) fn is_exceeded(&self, least: &[Dim; 9]) -> bool
        ensures { result ≡ exceeds_letters self.now least.now }
    {
        self.0
            .iter()
            .zip(least.iter())
            .any(|(letter, dim)| exceeds(*dim, letter.highest()))
    }

    /// Whether an entry that has at most this has less than its letter admits.
    pub(crate) fn is_fallen_short(&self, most: &[Dim; 9]) -> bool
        ensures { result ≡ falls_short self.now most.now }
    {
        self.0
            .iter()
            .zip(most.iter())
            .any(|(letter, dim)| exceeds(letter.lowest(), *dim))
    }

    /// Whether geometries that share a point can match: an entry of interiors and boundaries may be filled.
    pub(crate) fn allows_contact(&self) -> bool
        ensures { result ≡ allows_contact self.now }
    {
        self.0[0].allows_filled()
            || self.0[1].allows_filled()
            || self.0[3].allows_filled()
            || self.0[4].allows_filled()
    }

    /// Whether only geometries that share a point can match: an entry of interiors and boundaries
    /// is to be filled.
    pub fn needs_contact(&self) -> bool
        ensures { result ≡ asks_contact self.now }
    {
        self.0[0].asks_filled()
            || self.0[1].asks_filled()
            || self.0[3].asks_filled()
            || self.0[4].asks_filled()
    }
}
