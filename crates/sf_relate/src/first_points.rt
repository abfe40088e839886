//! Contact that first points show, without a matrix.

ghost use Rattle.std.specs.Prelude.{◌≡◌, ◌||◌, IsTrue};
ghost use Rattle.sf_relate.specs.Contact.{SharePoint, has_first_point_in};
ghost use Rattle.sf_relate.specs.Matrices.{matrix_of};
ghost use Rattle.sf_known.specs.Patterns.{has_contact};

use super::locating::is_in;
use sf_validity::Valid;

/// Whether the first point of either geometry lies in the other. If it does, they have contact; if
/// not, nothing is known.
pub fn shares_first_point(a: &Valid, b: &Valid) -> bool
    ensures contact { IsTrue result → IsTrue (has_contact (matrix_of a.now b.now)) }
    ensures value { result ≡ (has_first_point_in a.now b.now || has_first_point_in b.now a.now) }
{
    has_first_point_in(a, b) || has_first_point_in(b, a)
}

/// Whether the first point of `a` lies in `b`.
fn has_first_point_in(a: &Valid, b: &Valid) -> bool
    ensures shared { IsTrue result → SharePoint a.now b.now }
    ensures value { result ≡ has_first_point_in a.now b.now }
{
    match a.geometry().vertex(0, 0, 0) {
        Some(point) => is_in(b, point),
        None => false,
    }
}
