//! What a geometry leaves of a wider one: points have no length, so a part of each line is off all of them, and lines have no width,
//! so a part of each area is off them.

ghost use Rattle.std.specs.Prelude.{◌≡◌, ◌<◌, IfSome, is_some};
ghost use Rattle.sf_known.specs.Known.{Holds};
ghost use Rattle.sf_relate.specs.Matrices.{matrix_of};
ghost use Rattle.sf_relate.specs.Places.{shape_of};
ghost use Rattle.sf_linework.specs.Beside.{entry_beside, has_lines, known_beside, known_of_rest};

use sf_known::Known;
use sf_plane::Dim::{self, Nothing, One, Two};
use sf_relate::Shape;
use sf_validity::Valid;

/// What points leave of lines, and lines of areas: a part of the interior is off them, and the exteriors share an area. None
/// where neither geometry is of lines.
pub fn known_beside(a: &Valid, b: &Valid) -> Option<Known>
    ensures holds { IfSome result (λ known. Holds known (matrix_of a.now b.now)) }
    ensures value { IfSome result (λ known. known ≡ known_beside (shape_of a.now) (shape_of b.now)) }
    ensures answers { is_some result ≡ has_lines (shape_of a.now) (shape_of b.now) }
{
    let Some((entry, rest)) = entry_beside(Shape::of(a.geometry()), Shape::of(b.geometry())) else {
        return None;
    };
    Some(known_of_rest(entry, rest))
}

/// The entry of what is left of the interior of the wider geometry, and its dimension.
fn entry_beside(a: Shape, b: Shape) -> Option<(usize, Dim)>
    ensures place { result ≡ entry_beside a b }
    ensures bound { IfSome result (λ entry. entry.0 < 9) }
{
    match (a, b) {
        (Shape::Points, Shape::Lines) => Some((6, One)),
        (Shape::Lines, Shape::Points) => Some((2, One)),
        (Shape::Lines, Shape::Areas) => Some((6, Two)),
        (Shape::Areas, Shape::Lines) => Some((2, Two)),
        (Shape::Lines, Shape::Lines) => Some((8, Two)),
        _ => None,
    }
}

/// What is known where this much is left at an entry.
fn known_of_rest(entry: usize, rest: Dim) -> Known
    requires { entry < 9 }
    ensures { result ≡ known_of_rest entry rest }
{
    let mut least = [Nothing; 9];
    least[entry] = rest;
    least[8] = Two;
    Known {
        least,
        ..Known::nothing()
    }
}
