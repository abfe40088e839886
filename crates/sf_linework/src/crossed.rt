//! What edges that cross show of the matrix of two lines, or of a line and an area.

ghost use Rattle.std.specs.Prelude.{◌≡◌, IfSome};
ghost use Rattle.sf_known.specs.Known.{Holds};
ghost use Rattle.sf_relate.specs.Matrices.{matrix_of};
ghost use Rattle.sf_relate.specs.Places.{shape_of};
ghost use Rattle.sf_linework.specs.Crossed.{at_least, known_of_crossed, known_of_line_and_area, known_of_lines};

use sf_known::Known;
use sf_plane::Dim::{self, Nothing, One, Two, Zero};
use sf_relate::{Shape, are_crossed};
use sf_validity::Valid;
use std::alloc::Global;

/// What edges that cross at a point of no other edge show of the matrix of two lines, or of a line and an area, whichever comes
/// first. None where no such edges are found, of other geometries, and where no memory is found.
pub fn known_by_crossed_lines(alloc: Global, a: &Valid, b: &Valid) -> Option<Known>
    ensures holds { IfSome result (λ known. Holds known (matrix_of a.now b.now)) }
    ensures all { IfSome result (λ known. known ≡ known_of_crossed (shape_of a.now) (shape_of b.now)) }
{
    let known = match (Shape::of(a.geometry()), Shape::of(b.geometry())) {
        (Shape::Lines, Shape::Lines) => known_of_lines(),
        (Shape::Lines, Shape::Areas) => known_of_line_and_area(),
        (Shape::Areas, Shape::Lines) => known_of_line_and_area().transposed(),
        _ => return None,
    };
    match are_crossed(alloc, a, b) {
        Ok(true) => Some(known),
        _ => None,
    }
}

/// What is known of two lines that cross.
fn known_of_lines() -> Known
    ensures { result ≡ known_of_lines }
{
    at_least([
        Zero, Nothing, One, Nothing, Nothing, Nothing, One, Nothing, Two,
    ])
}

/// What is known of a line that crosses the border of an area.
fn known_of_line_and_area() -> Known
    ensures { result ≡ known_of_line_and_area }
{
    at_least([One, Zero, One, Nothing, Nothing, Nothing, Two, One, Two])
}

/// That each entry has at least this.
fn at_least(least: [Dim; 9]) -> Known
    ensures { result ≡ at_least least }
{
    Known {
        least,
        most: [Two; 9],
        contact: false,
    }
}
