ghost use Rattle.std.specs.Prelude.{◌≡◌};
ghost use Rattle.sf_known.specs.Goals.{AsksFor};
ghost use Rattle.sf_known.specs.Predicates.{crosses, holds, overlaps, predicate_asks_contact, predicate_name, touches};

use super::goal::Goal;
use super::letter::Letter::{Any, Empty, Filled, One, Zero};
use super::matrix::Matrix;
use super::pattern::Pattern;
use sf_plane::Dim;

/// The named predicates.
#[derive(Clone, Copy, Debug, PartialEq, Eq)]
pub enum Predicate {
    Equals,
    Disjoint,
    Intersects,
    Touches,
    Within,
    Contains,
    Crosses,
    Overlaps,
}

/// `T*F**FFF*`
const EQUAL: Pattern = Pattern([Filled, Any, Empty, Any, Any, Empty, Empty, Empty, Any]);
/// `FF*FF****`
const APART: Pattern = Pattern([Empty, Empty, Any, Empty, Empty, Any, Any, Any, Any]);
/// `FT*******`
const BOUNDARY_IN_INTERIOR: Pattern = Pattern([Empty, Filled, Any, Any, Any, Any, Any, Any, Any]);
/// `F**T*****`
const INTERIOR_IN_BOUNDARY: Pattern = Pattern([Empty, Any, Any, Filled, Any, Any, Any, Any, Any]);
/// `F***T****`
const BOUNDARIES_MEET: Pattern = Pattern([Empty, Any, Any, Any, Filled, Any, Any, Any, Any]);
/// `T*F**F***`
const WITHIN: Pattern = Pattern([Filled, Any, Empty, Any, Any, Empty, Any, Any, Any]);
/// `T*****FF*`
const CONTAINING: Pattern = Pattern([Filled, Any, Any, Any, Any, Any, Empty, Empty, Any]);
/// `T*T******`, of a geometry with one of a higher dimension
const CROSSING_HIGHER: Pattern = Pattern([Filled, Any, Filled, Any, Any, Any, Any, Any, Any]);
/// `T*****T**`, of a geometry with one of a lower dimension
const CROSSING_LOWER: Pattern = Pattern([Filled, Any, Any, Any, Any, Any, Filled, Any, Any]);
/// `0********`, of lines
const CROSSING_LINES: Pattern = Pattern([Zero, Any, Any, Any, Any, Any, Any, Any, Any]);
/// `T*T***T**`, of points and of areas
const OVERLAPPING: Pattern = Pattern([Filled, Any, Filled, Any, Any, Any, Filled, Any, Any]);
/// `1*T***T**`, of lines
const OVERLAPPING_LINES: Pattern = Pattern([One, Any, Filled, Any, Any, Any, Filled, Any, Any]);

impl Predicate {
    /// Its name, in small letters.
    pub fn name(self) -> &'static str
        ensures { result.now ≡ predicate_name self }
    {
        match self {
            Predicate::Equals => "equals",
            Predicate::Disjoint => "disjoint",
            Predicate::Intersects => "intersects",
            Predicate::Touches => "touches",
            Predicate::Within => "within",
            Predicate::Contains => "contains",
            Predicate::Crosses => "crosses",
            Predicate::Overlaps => "overlaps",
        }
    }

    /// What the predicate asks of the matrix of two geometries of these dimensions (06-103r4, 6.1.15.3).
    pub fn goal(self, a: Dim, b: Dim) -> Goal
        ensures { AsksFor (holds self a b) result }
    {
        match self {
            Predicate::Equals => Goal::Match(EQUAL),
            Predicate::Disjoint => Goal::Match(APART),
            Predicate::Intersects => Goal::Miss(APART),
            Predicate::Touches => {
                Goal::MatchOne(BOUNDARY_IN_INTERIOR, INTERIOR_IN_BOUNDARY, BOUNDARIES_MEET)
            }
            Predicate::Within => Goal::Match(WITHIN),
            Predicate::Contains => Goal::Match(CONTAINING),
            Predicate::Crosses => crosses(a, b),
            Predicate::Overlaps => overlaps(a, b),
        }
    }

    /// Whether it holds only of geometries that share a point: all but disjoint.
    pub fn needs_contact(self) -> bool
        ensures { result ≡ predicate_asks_contact self }
    {
        !matches!(self, Predicate::Disjoint)
    }
}

/// That the interiors meet in less than the geometries have.
fn crosses(a: Dim, b: Dim) -> Goal
    ensures { AsksFor (crosses a b) result }
{
    match (a, b) {
        (Dim::Zero, Dim::One) | (Dim::Zero, Dim::Two) | (Dim::One, Dim::Two) => {
            Goal::Match(CROSSING_HIGHER)
        }
        (Dim::One, Dim::One) => Goal::Match(CROSSING_LINES),
        (Dim::One, Dim::Zero) | (Dim::Two, Dim::Zero) | (Dim::Two, Dim::One) => {
            Goal::Match(CROSSING_LOWER)
        }
        _ => Goal::Never,
    }
}

/// That geometries of one dimension share a part of it, and each has more.
fn overlaps(a: Dim, b: Dim) -> Goal
    ensures { AsksFor (overlaps a b) result }
{
    match (a, b) {
        (Dim::Zero, Dim::Zero) | (Dim::Two, Dim::Two) => Goal::Match(OVERLAPPING),
        (Dim::One, Dim::One) => Goal::Match(OVERLAPPING_LINES),
        _ => Goal::Never,
    }
}

/// Whether the predicate holds of two geometries of these dimensions, with this matrix.
pub fn holds(predicate: Predicate, a: Dim, b: Dim, matrix: &Matrix) -> bool
    ensures { result ≡ holds predicate a b matrix.now.0 }
{
    predicate.goal(a, b).is_met(matrix)
}
