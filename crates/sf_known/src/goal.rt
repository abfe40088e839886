//! What is asked of the matrix of two geometries.

ghost use Rattle.std.specs.Prelude.{◌≡◌};
ghost use Rattle.sf_known.specs.Goals.{is_met};

use super::matrix::Matrix;
use super::pattern::Pattern;

/// What is asked of a matrix: which patterns it is to match, or not to match.
#[derive(Clone, Copy, Debug, PartialEq, Eq)]
pub enum Goal {
    /// The matrix matches this pattern.
    Match(Pattern),
    /// It matches one of the three.
    MatchOne(Pattern, Pattern, Pattern),
    /// It doesn't match this pattern.
    Miss(Pattern),
    /// No matrix is as is asked.
    Never,
}

impl Goal {
    /// Whether the matrix is as is asked.
    pub fn is_met(&self, matrix: &Matrix) -> bool
        ensures { result ≡ is_met self.now matrix.now.0 }
    {
        match self {
            Goal::Match(pattern) => pattern.matches(matrix),
            Goal::MatchOne(one, other, third) => {
                one.matches(matrix) || other.matches(matrix) || third.matches(matrix)
            }
            Goal::Miss(pattern) => !pattern.matches(matrix),
            Goal::Never => false,
        }
    }
}
