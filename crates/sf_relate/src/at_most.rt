//! What is known of a matrix at first: the most that each entry can have, by the kinds of the two geometries.

ghost use Rattle.std.specs.Prelude.{◌≡◌};
ghost use Rattle.sf_known.specs.Known.{Holds};
ghost use Rattle.sf_relate.specs.Matrices.{matrix_of};
ghost use Rattle.sf_relate.specs.Most.{boundary_most, known_of_kinds, most_entries};

use super::by_kinds::boundary_dim;
use super::shape::dimension;
use sf_geometry::Geometry;
use sf_known::{Known, lesser};
use sf_plane::Dim;
use sf_validity::Valid;

/// What is known of the matrix of two valid geometries by their kinds.
pub fn known_of_kinds(a: &Valid, b: &Valid) -> Known
    ensures value { result ≡ known_of_kinds a.now b.now }
    ensures holds { Holds result (matrix_of a.now b.now) }
{
    Known::at_most(most_entries(a.geometry(), b.geometry()))
}

/// The most that each entry can have: what two sets have in common has at most the dimension of each.
pub(crate) fn most_entries(a: &Geometry, b: &Geometry) -> [Dim; 9]
    ensures { result ≡ most_entries a.now b.now }
{
    let ia = dimension(a);
    let ba = boundary_most(a);
    let ib = dimension(b);
    let bb = boundary_most(b);
    [
        lesser(ia, ib),
        lesser(ia, bb),
        ia,
        lesser(ba, ib),
        lesser(ba, bb),
        ba,
        ib,
        bb,
        Dim::Two,
    ]
}

/// The most that the boundary can have. Of several lines it is that of ends, since to find out which of them cancel
/// can take longer than the walk.
fn boundary_most(geometry: &Geometry) -> Dim
    ensures { result ≡ boundary_most geometry.now }
{
    match geometry {
        Geometry::MultiLineString(_) => Dim::Zero,
        _ => boundary_dim(geometry),
    }
}
