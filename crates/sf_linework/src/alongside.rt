//! What edges that run along one another show of the matrix of two lines, or of a line and an area.

ghost use Rattle.std.specs.Prelude.{◌≡◌, ◌<◌, IfSome};
ghost use Rattle.sf_known.specs.Known.{Holds};
ghost use Rattle.sf_relate.specs.Matrices.{matrix_of};
ghost use Rattle.sf_linework.specs.Alongside.{IsKnownAlong, entry_alongside, known_of_length};

use sf_along::run_along;
use sf_known::Known;
use sf_plane::Dim::{Nothing, One, Two, Zero};
use sf_relate::Shape;
use sf_validity::Valid;
use std::alloc::Global;

/// What it shows of the matrix of two lines, or of a line and an area, whether an edge of one runs along an edge of the other. None
/// of other geometries, and where no memory is found.
pub fn known_alongside(alloc: Global, a: &Valid, b: &Valid) -> Option<Known>
    ensures holds { IfSome result (λ known. Holds known (matrix_of a.now b.now)) }
    ensures known { IfSome result (IsKnownAlong a.now b.now) }
{
    let Some(entry) = entry_alongside(Shape::of(a.geometry()), Shape::of(b.geometry())) else {
        return None;
    };
    let Ok(along) = run_along(alloc, a.geometry(), b.geometry()) else {
        return None;
    };
    Some(known_of_length(entry, along))
}

/// The entry that edges tell which run along one another, of two lines or of a line and an area.
pub(crate) fn entry_alongside(a: Shape, b: Shape) -> Option<usize>
    ensures place { result ≡ entry_alongside a b }
    ensures bound { IfSome result (λ entry. entry < 9) }
{
    match (a, b) {
        (Shape::Lines, Shape::Lines) => Some(0),
        (Shape::Lines, Shape::Areas) => Some(1),
        (Shape::Areas, Shape::Lines) => Some(3),
        _ => None,
    }
}

/// What is known of an entry by whether it has a length.
pub(crate) fn known_of_length(entry: usize, along: bool) -> Known
    requires { entry < 9 }
    ensures { result ≡ known_of_length entry along }
{
    let mut least = [Nothing; 9];
    let mut most = [Two; 9];
    if along {
        least[entry] = One;
    } else {
        most[entry] = Zero;
    }
    Known {
        least,
        most,
        contact: false,
    }
}
