ghost use Rattle.std.specs.Prelude.{◌≡◌, ◌≤ℤ◌, pos};
ghost use Rattle.sf_wkb.specs.Words.{in_grid, is_up_to as is_up_to_of};

use sf_grid::GridPoint;

/// The greatest coordinate of 20 bits.
const MAX_OF_20: i32 = 524_287;

/// The greatest coordinate of 24 bits.
const MAX_OF_24: i32 = 8_388_607;

/// How far the coordinates of well-known binary go.
#[derive(Clone, Copy, Debug, PartialEq, Eq)]
pub enum Grid {
    /// From -524288 to 524287, 20 bits with the sign: the rows of files of the first version.
    Bits20,
    /// From -8388608 to 8388607, 24 bits with the sign: the rows of files of the second version and of the third.
    Bits24,
    /// All coordinates of the grid, 31 bits with the sign.
    Bits31,
}

impl Grid {
    /// Whether a whole number is a coordinate of it.
    pub(crate) fn has(self, n: i32) -> bool
        ensures { result ≡ in_grid self n }
    {
        match self {
            Grid::Bits20 => is_up_to(MAX_OF_20, n),
            Grid::Bits24 => is_up_to(MAX_OF_24, n),
            Grid::Bits31 => GridPoint::new(n, 0).is_some(),
        }
    }
}

/// Whether a whole number is at most `most`, and at least the one below `-most`.
fn is_up_to(most: i32, n: i32) -> bool
    requires { pos 0 ≤ℤ most }
    ensures { result ≡ is_up_to_of most n }
{
    -1 - most <= n && n <= most
}
