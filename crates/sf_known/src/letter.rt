ghost use Rattle.std.specs.Prelude.{◌≡◌, ◌∷◌, []};
ghost use Rattle.sf_known.specs.Patterns.{admits, asks_filled, is_filled, letter_character, letter_of};
ghost use Rattle.sf_known.specs.Known.{highest, lowest};

use sf_plane::Dim;

/// What a pattern asks of one entry of a matrix.
#[derive(Clone, Copy, Debug, PartialEq, Eq)]
pub enum Letter {
    /// `*`: anything.
    Any,
    /// `T`: not empty.
    Filled,
    /// `F`: empty.
    Empty,
    /// `0`.
    Zero,
    /// `1`.
    One,
    /// `2`.
    Two,
}

impl Letter {
    /// The letter of a character, or None where it is none of `T t F f * 0 1 2`.
    pub(crate) fn of(byte: u8) -> Option<Letter>
        ensures { result ≡ letter_of byte }
    {
        match byte {
            b'*' => Some(Letter::Any),
            b'T' | b't' => Some(Letter::Filled),
            b'F' | b'f' => Some(Letter::Empty),
            b'0' => Some(Letter::Zero),
            b'1' => Some(Letter::One),
            b'2' => Some(Letter::Two),
            _ => None,
        }
    }

    /// Its character, `T` and `F` as capitals.
    pub fn text(self) -> &'static str
        ensures { result.now ≡ letter_character self ∷ [] }
    {
        match self {
            Letter::Any => "*",
            Letter::Filled => "T",
            Letter::Empty => "F",
            Letter::Zero => "0",
            Letter::One => "1",
            Letter::Two => "2",
        }
    }

    /// Whether an entry is as the letter asks.
    pub(crate) fn admits(self, dim: Dim) -> bool
        ensures { result ≡ admits self dim }
    {
        match (self, dim) {
            (Letter::Any, _) => true,
            (Letter::Filled, Dim::Nothing) => false,
            (Letter::Filled, _) => true,
            (Letter::Empty, Dim::Nothing) => true,
            (Letter::Zero, Dim::Zero) => true,
            (Letter::One, Dim::One) => true,
            (Letter::Two, Dim::Two) => true,
            _ => false,
        }
    }

    /// The lowest dimension that it admits.
    pub(crate) fn lowest(self) -> Dim
        ensures { result ≡ lowest self }
    {
        match self {
            Letter::Any | Letter::Empty => Dim::Nothing,
            Letter::Filled | Letter::Zero => Dim::Zero,
            Letter::One => Dim::One,
            Letter::Two => Dim::Two,
        }
    }

    /// The highest one. It admits all between.
    pub(crate) fn highest(self) -> Dim
        ensures { result ≡ highest self }
    {
        match self {
            Letter::Empty => Dim::Nothing,
            Letter::Zero => Dim::Zero,
            Letter::One => Dim::One,
            Letter::Any | Letter::Filled | Letter::Two => Dim::Two,
        }
    }

    /// Whether it admits an entry that isn't empty.
    pub(crate) fn allows_filled(self) -> bool
        ensures { result ≡ is_filled (highest self) }
    {
        !matches!(self, Letter::Empty)
    }

    /// Whether it asks for an entry that isn't empty.
    pub(crate) fn asks_filled(self) -> bool
        ensures { result ≡ asks_filled self }
    {
        !matches!(self, Letter::Any | Letter::Empty)
    }
}
