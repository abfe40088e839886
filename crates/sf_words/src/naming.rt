//! Words that name features.
ghost use Rattle.std.specs.Prelude.{◌≡◌};
ghost use Rattle.sf_words.specs.Naming.{id_named, is_last, is_until};

use super::numerals::id_of;

/// How a word may name a feature.
#[derive(Clone, Copy, Debug, PartialEq, Eq)]
pub enum Naming {
    /// By its identifier alone.
    ById,
    /// By its identifier, or by `last` as the one that its layer was given last.
    OrLast,
}

/// The identifier of the feature that a word names; 0 where it is the last one, which is not known yet.
pub fn id_named(naming: Naming, word: &str) -> Option<u32>
    ensures { result ≡ id_named naming word.now }
{
    match naming {
        Naming::OrLast if is_last(word) => Some(0),
        _ => id_of(word),
    }
}

/// Whether a word stands for the feature that a layer was given last.
pub fn is_last(word: &str) -> bool
    ensures { result ≡ is_last word.now }
{
    word == "last"
}

/// Whether a word stands before the features at which chains end.
pub fn is_until(word: &str) -> bool
    ensures { result ≡ is_until word.now }
{
    word == "until"
}
