//! What is known of a matrix before all of it is: each entry lies between a least and a most dimension.

ghost use Rattle.std.specs.Prelude.{◌≡◌, ◌<◌, ◌&&◌, ◌||◌, Some, None, not, slice_index_or, if◌then◌else◌};
ghost use Rattle.sf_plane.specs.declared.dim.Dim.TheVariants.{Nothing};
ghost use Rattle.sf_known.specs.Entries.{exceeds};
ghost use Rattle.sf_known.specs.Transposed.{known_transposed};
ghost use Rattle.sf_known.specs.Known.{allows_contact, answer_of, are_beside, at_most, boundaries_meet, but_boundaries, contact_placed, exactly, have_most, greatest_each, is_enough, is_matched, is_missed, known_by_both, known_with, least_each, nothing_known, one_answer, pattern_answer, settled};

use super::aim::Aim;
use super::entries::{exceeds, greater, lesser};
use super::goal::Goal;
use super::matrix::Matrix;
use super::pattern::Pattern;
use sf_plane::Dim;
use std::array;

/// What is known of a matrix. It holds of those matrices of which each entry lies between its least and its most.
#[derive(Clone, Copy, Debug, PartialEq, Eq)]
pub struct Known {
    /// What each entry has at least, row by row.
    pub least: [Dim; 9],
    /// What each entry has at most, row by row.
    pub most: [Dim; 9],
    /// Whether the geometries are known to share a point, so that an entry of interiors and boundaries is filled.
    pub contact: bool,
}

impl Known {
    /// That each entry has at most this.
    pub fn at_most(most: [Dim; 9]) -> Known
        ensures { result ≡ at_most most }
    {
        Known {
            least: [Dim::Nothing; 9],
            most,
            contact: false,
        }
    }

    /// That it is this matrix.
    pub fn exactly(matrix: &Matrix) -> Known
        ensures { result ≡ exactly matrix.now.0 }
    {
        Known {
            least: matrix.0,
            most: matrix.0,
            contact: false,
        }
    }

    /// Of no entry anything.
    pub fn nothing() -> Known
        ensures { result ≡ nothing_known }
    {
        Known::at_most([Dim::Two; 9])
    }

    /// What this and another one say together: it holds of those matrices of which both hold.
    pub fn and(&self, other: &Known) -> Known
        ensures { result ≡ known_by_both self.now other.now }
    {
        Known {
            least: greatest_each(&self.least, &other.least),
            most: least_each(&self.most, &other.most),
            contact: self.contact || other.contact,
        }
    }

    /// The same, where contact can be one of the boundaries alone, with that: neither interior has a point of the other
    /// geometry then.
    pub fn with_contact_placed(&self) -> Known
        ensures { result ≡ contact_placed self.now }
    {
        if self.contact && are_beside(&self.most) {
            self.and(&boundaries_meet())
        } else {
            *self
        }
    }

    /// What is so known of the two geometries the other way round.
    pub fn transposed(&self) -> Known
        ensures { result ≡ known_transposed self.now }
    {
        let Matrix(least) = Matrix(self.least).transposed();
        let Matrix(most) = Matrix(self.most).transposed();
        Known {
            least,
            most,
            contact: self.contact,
        }
    }

    /// That each entry has what it has at least, and no more.
    pub fn settled(&self) -> Known
        ensures { result ≡ settled self.now }
    {
        Known {
            most: self.least,
            ..*self
        }
    }

    /// Raises what an entry has at least to a dimension, and says whether that was lower before.
    pub fn raise(&mut self, entry: usize, dim: Dim) -> bool
        requires { entry < 9 }
        ensures raised { self.new ≡ known_with self.old entry dim }
        ensures rose { result ≡ exceeds dim (slice_index_or self.old.least entry Nothing) }
    {
        let before = self.least[entry];
        self.least[entry] = greater(before, dim);
        exceeds(dim, before)
    }

    /// The matrix, where all entries are known.
    pub fn matrix(&self) -> Option<Matrix>
        ensures { result ≡ (if have_most self.now.least self.now.most then Some (record { 0 = self.now.least }) else None) }
    {
        have_most(&self.least, &self.most).then_some(Matrix(self.least))
    }

    /// Whether the matrix is as is asked, as far as that is known.
    pub fn answer(&self, goal: &Goal) -> Option<bool>
        ensures { result ≡ answer_of self.now goal.now }
    {
        match goal {
            Goal::Match(pattern) => self.pattern_answer(pattern),
            Goal::MatchOne(one, other, third) => self.one_answer(one, other, third),
            Goal::Miss(pattern) => self.pattern_answer(pattern).map(|matched| !matched),
            Goal::Never => Some(false),
        }
    }

    /// Whether what is to be found out is known.
    pub fn is_enough(&self, aim: &Aim) -> bool
        ensures { result ≡ is_enough self.now aim.now }
    {
        match aim {
            Aim::Answer(goal) => self.answer(goal).is_some(),
            Aim::Entries => have_most(&self.least, &self.most),
            Aim::ButBoundaries => have_most(&self.least, &but_boundaries(&self.most)),
        }
    }

    /// Whether the matrix matches, as far as that is known.
    fn pattern_answer(&self, pattern: &Pattern) -> Option<bool>
        ensures { result ≡ pattern_answer self.now pattern.now }
    {
        if self.is_missed(pattern) {
            Some(false)
        } else if self.is_matched(pattern) {
            Some(true)
        } else {
            None
        }
    }

    /// Whether the matrix matches one of three patterns, as far as that is known.
    fn one_answer(&self, one: &Pattern, other: &Pattern, third: &Pattern) -> Option<bool>
        ensures { result ≡ one_answer self.now one.now other.now third.now }
    {
        if self.is_missed(one) && self.is_missed(other) && self.is_missed(third) {
            Some(false)
        } else if self.is_matched(one) || self.is_matched(other) || self.is_matched(third) {
            Some(true)
        } else {
            None
        }
    }

    /// Whether each matrix of which it holds matches.
    fn is_matched(&self, pattern: &Pattern) -> bool
        ensures { result ≡ is_matched self.now pattern.now }
    {
        pattern.admits(&self.least) && pattern.admits(&self.most)
    }

    /// Whether none does.
    fn is_missed(&self, pattern: &Pattern) -> bool
        ensures { result ≡ is_missed self.now pattern.now }
    {
        (self.contact && !pattern.allows_contact())
            || pattern.is_exceeded(&self.least)
            || pattern.is_fallen_short(&self.most)
    }
}

/// Whether neither interior can have a point of the other geometry.
fn are_beside(most: &[Dim; 9]) -> bool
    ensures { result ≡ are_beside most.now }
{
    let [ii, ib, _, bi, ..] = *most;
    (ii, ib, bi) == (Dim::Nothing, Dim::Nothing, Dim::Nothing)
}

/// That the boundaries share a point.
fn boundaries_meet() -> Known
    ensures { result ≡ boundaries_meet }
{
    let mut least = [Dim::Nothing; 9];
    least[4] = Dim::Zero;
    Known {
        least,
        ..Known::nothing()
    }
}

/// Whether each entry has its most.
fn have_most(least: &[Dim; 9], most: &[Dim; 9]) -> bool
    ensures { result ≡ have_most least.now most.now }
{
    least
        .iter()
        .zip(most.iter())
        .all(|(least, most)| !exceeds(*most, *least))
}

/// Of each entry the greater one of both.
fn greatest_each(a: &[Dim; 9], b: &[Dim; 9]) -> [Dim; 9]
    ensures { result ≡ greatest_each a.now b.now }
{
    array::from_fn(|place| greater(a[place], b[place]))
}

/// Of each entry the lesser one of both.
fn least_each(a: &[Dim; 9], b: &[Dim; 9]) -> [Dim; 9]
    ensures { result ≡ least_each a.now b.now }
{
    array::from_fn(|place| lesser(a[place], b[place]))
}

/// The most of each entry but that of the two boundaries, of which it is enough to have a point.
fn but_boundaries(most: &[Dim; 9]) -> [Dim; 9]
    ensures { result ≡ but_boundaries most.now }
{
    let [ii, ib, ie, bi, bb, be, ei, eb, ee] = *most;
    [ii, ib, ie, bi, lesser(Dim::Zero, bb), be, ei, eb, ee]
}
