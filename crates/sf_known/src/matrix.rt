ghost use Rattle.std.specs.Prelude.{◌≡◌, map};
ghost use Rattle.sf_known.specs.Entries.{character_of};
ghost use Rattle.sf_known.specs.Transposed.{transposed};

use sf_plane::Dim;

/// A DE-9IM matrix: nine entries row by row; the rows are interior, boundary and exterior of the
/// first geometry, the columns those of the second.
#[derive(Clone, Copy, Debug, PartialEq, Eq)]
pub struct Matrix(pub [Dim; 9]);

impl Matrix {
    /// The nine entries as characters.
    pub fn text(&self) -> [u8; 9]
        ensures { result ≡ map character_of self.now.0 }
    {
        self.0.map(character)
    }

    /// The matrix of the two geometries the other way round: its columns as rows.
    pub fn transposed(&self) -> Matrix
        ensures { result.0 ≡ transposed self.now.0 }
    {
        let [ii, ib, ie, bi, bb, be, ei, eb, ee] = self.0;
        Matrix([ii, bi, ei, ib, bb, eb, ie, be, ee])
    }
}

/// The character of an entry.
fn character(dim: Dim) -> u8
    ensures { result ≡ character_of dim }
{
    match dim {
        Dim::Nothing => b'F',
        Dim::Zero => b'0',
        Dim::One => b'1',
        Dim::Two => b'2',
    }
}
