//! What is known of the matrix of a Point, by its place in the other geometry.

ghost use Rattle.std.specs.Prelude.{◌≡◌};
ghost use Rattle.sf_relate.specs.Placed.{known_of_place};

use super::place::Place;
use sf_known::Known;
use sf_plane::Dim::{Nothing, Two, Zero};

/// What is known of the matrix of a Point with a geometry in which it has this place: of its interior and boundary that place
/// alone is filled.
pub fn known_of_place(place: Place) -> Known
    ensures { result ≡ known_of_place place }
{
    let mut least = [Nothing; 9];
    let mut most = [
        Nothing, Nothing, Nothing, Nothing, Nothing, Nothing, Two, Two, Two,
    ];
    let column = place.row();
    least[column] = Zero;
    most[column] = Zero;
    Known {
        least,
        most,
        contact: false,
    }
}
