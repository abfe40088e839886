//! Whether geometries share a point that their segments need not show.

ghost use Rattle.std.specs.Prelude.{◌≡◌, ◌||◌, IfOk, IsFalse, IsTrue};
ghost use Rattle.sf_contact.specs.Divided.{is_area as is_areal};
ghost use Rattle.sf_known.specs.Patterns.{has_contact};
ghost use Rattle.sf_nearness.specs.Near.{IsBySegments};
ghost use Rattle.sf_relate.specs.Contact.{SharePoint};
ghost use Rattle.sf_relate.specs.Matrices.{matrix_of};
ghost use Rattle.sf_valid_rules.specs.Validity.{IsValid};

use sf_contact::contact_between;
use sf_geometry::Geometry;
use sf_relate::{Dim, Predicate, meets};
use sf_validity::Valid;
use std::alloc::{AllocError, Global};

/// Whether two geometries share a point, where one of them is an area: inside it no segment need be near. Of points and lines
/// the segments are all, and nothing is looked at.
///
/// # Errors
///
/// Out of memory alone.
pub(crate) fn share_inside(alloc: Global, a: &Valid, b: &Valid) -> Result<bool, AllocError>
    ensures shared { IfOk result (λ answer. IsTrue answer → SharePoint a.now b.now) }
    ensures seen { IfOk result (λ answer. IsFalse answer → IsBySegments a.now b.now) }
    ensures valid { IsValid a.now × IsValid b.now }
{
    if !has_area(a, b) {
        return Ok(false);
    }
    have_contact(alloc, a, b)
}

/// Whether one of two geometries is an area.
fn has_area(a: &Valid, b: &Valid) -> bool
    ensures value { result ≡ (is_areal a.now || is_areal b.now) }
    ensures valid { IsValid a.now × IsValid b.now }
{
    let first = a.geometry();
    let second = b.geometry();
    is_area(first) || is_area(second)
}

/// Whether a geometry has an inside.
fn is_area(geometry: &Geometry) -> bool
    ensures { result ≡ is_areal geometry.now }
{
    match geometry {
        Geometry::Polygon(_) | Geometry::MultiPolygon(_) => true,
        Geometry::Point(_)
        | Geometry::MultiPoint(_)
        | Geometry::LineString(_)
        | Geometry::MultiLineString(_) => false,
    }
}

/// Whether two geometries have contact: by their boxes, by their edges and first points, or by a walk over both.
///
/// # Errors
///
/// Out of memory alone.
fn have_contact(alloc: Global, a: &Valid, b: &Valid) -> Result<bool, AllocError>
    ensures { IfOk result (λ answer. answer ≡ has_contact (matrix_of a.now b.now)) }
{
    if are_boxes_apart(a, b) {
        return Ok(false);
    }
    match contact_between(alloc, a, b) {
        Some(answer) => Ok(answer),
        None => contact_by_walk(alloc, a, b),
    }
}

/// Whether the boxes of two geometries share no point.
fn are_boxes_apart(a: &Valid, b: &Valid) -> bool
    ensures { IsTrue result → IsFalse (has_contact (matrix_of a.now b.now)) }
{
    !a.geometry().envelope().meets(b.geometry().envelope())
}

/// Whether two geometries have contact, by a walk over both.
fn contact_by_walk(alloc: Global, a: &Valid, b: &Valid) -> Result<bool, AllocError>
    ensures { IfOk result (λ answer. answer ≡ has_contact (matrix_of a.now b.now)) }
{
    let goal = Predicate::Intersects.goal(Dim::Two, Dim::Two);
    meets(alloc, &goal, a, b)
}
