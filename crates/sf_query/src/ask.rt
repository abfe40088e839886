ghost use Rattle.std.specs.Prelude.{◌≡◌};
ghost use Rattle.sf_known.specs.Goals.{AsksFor};
ghost use Rattle.sf_query.specs.Answers.{is_answered, is_of_contact, needs_contact};

use sf_relate::{Goal, Pattern, Predicate, dimension};
use sf_validity::Valid;

/// What is asked of the matrix of a feature with the given geometry.
#[derive(Clone, Copy, Debug, PartialEq, Eq)]
pub enum Ask {
    /// That it matches a pattern.
    Matching(Pattern),
    /// That a named predicate holds.
    Named(Predicate),
}

impl Ask {
    /// Whether only features that share a point with the given geometry can answer.
    pub fn needs_contact(&self) -> bool
        ensures { result ≡ needs_contact self.now }
    {
        match self {
            Ask::Matching(pattern) => pattern.needs_contact(),
            Ask::Named(predicate) => predicate.needs_contact(),
        }
    }

    /// What is asked of the matrix of these geometries.
    pub(crate) fn goal(&self, a: &Valid, b: &Valid) -> Goal
        ensures { AsksFor (is_answered self.now a.now b.now) result }
    {
        match self {
            Ask::Matching(pattern) => Goal::Match(*pattern),
            Ask::Named(predicate) => {
                predicate.goal(dimension(a.geometry()), dimension(b.geometry()))
            }
        }
    }

    /// Whether contact is all that is asked for, or its absence, by name.
    pub(crate) fn is_of_contact(&self) -> bool
        ensures { result ≡ is_of_contact self.now }
    {
        matches!(
            self,
            Ask::Named(Predicate::Intersects | Predicate::Disjoint)
        )
    }
}
