//! Whether two geometries have contact, where that is known without a walk.

ghost use Rattle.std.specs.Prelude.{◌≡◌, true, ◌&&◌, ◌||◌, IfSome, IsTrue, is_some, nat_le};
ghost use Rattle.sf_geometry.specs.Size.{point_count};
ghost use Rattle.sf_relate.specs.Matrices.{matrix_of};
ghost use Rattle.sf_known.specs.Patterns.{has_contact};
ghost use Rattle.sf_contact.specs.Absence.{has_start_in, is_lines};
ghost use Rattle.sf_contact.specs.Few.{few_points};

use super::edges::edges_meet;
use super::starts::has_start_in;
use sf_crossing::find_sharing;
use sf_edge_tree::Outcome;
use sf_geometry::{Geometry, Sequence};
use sf_validity::Valid;
use std::alloc::Global;

/// How many points the smaller of two geometries has at most for its edges to be tried one by one: with
/// more, trees of edges, or a walk, find contact sooner.
pub const FEW_POINTS: usize = 16;

/// How many parts each of two geometries has at most for the first point of each part to be looked for in the other, unless
/// both are of lines: that takes a pass over the other for each part, and with more of them a walk takes less.
const FEW_PARTS: usize = 64;

/// Whether two geometries have contact, as `intersects` asks and `disjoint` denies it. Where one of the two is small each
/// of its edges is tried with those of the other near it, which takes no memory. Where both have more points, trees of
/// their edges find two that share a point; `None` where that search takes long, or finds no memory, and where no edges
/// share a point, one of the two has many parts, and not both are of lines.
pub fn contact_between(alloc: Global, a: &Valid, b: &Valid) -> Option<bool>
    ensures holds { IfSome result (λ answer. answer ≡ has_contact (matrix_of a.now b.now)) }
    ensures few { IsTrue (nat_le (point_count b.now) few_points || nat_le (point_count a.now) few_points) → is_some result ≡ true }
{
    if b.geometry().point_count() <= FEW_POINTS {
        Some(have_contact(a, b))
    } else if a.geometry().point_count() <= FEW_POINTS {
        Some(have_contact(b, a))
    } else {
        contact_of_many(alloc, a, b)
    }
}

/// Whether two geometries have contact, by trees of those of their edges that meet the box that both have in common: a
/// point that both have lies in it.
fn contact_of_many(alloc: Global, a: &Valid, b: &Valid) -> Option<bool>
    ensures { IfSome result (λ answer. answer ≡ has_contact (matrix_of a.now b.now)) }
{
    let first = a.geometry();
    let second = b.geometry();
    let common = first.envelope().common(second.envelope());
    match find_sharing(alloc, first, second, &common) {
        Ok(Outcome::Found) => Some(true),
        // What is in lines is on an edge of theirs.
        Ok(Outcome::Absent) if are_lines(first, second) => Some(false),
        Ok(Outcome::Absent) if has_few_parts(first) && has_few_parts(second) => {
            Some(has_any_start(a, b))
        }
        Ok(_) | Err(_) => None,
    }
}

/// Whether both geometries are of lines.
fn are_lines(a: &Geometry, b: &Geometry) -> bool
    ensures { result ≡ (is_lines a.now && is_lines b.now) }
{
    is_of_lines(a) && is_of_lines(b)
}

/// Whether a geometry is one line or several.
fn is_of_lines(geometry: &Geometry) -> bool
    ensures { result ≡ is_lines geometry.now }
{
    matches!(
        geometry,
        Geometry::LineString(_) | Geometry::MultiLineString(_)
    )
}

/// Whether a geometry is of at most [`FEW_PARTS`] points, lines or polygons, and each polygon of as many rings.
fn has_few_parts(geometry: &Geometry) -> bool {
    match geometry {
        Geometry::Point(_) | Geometry::LineString(_) => true,
        Geometry::MultiPoint(points) => is_few(points),
        Geometry::MultiLineString(lines) => is_few(lines),
        Geometry::Polygon(rings) => is_few(rings),
        Geometry::MultiPolygon(polygons) => is_few(polygons)
            && polygons.as_slice().iter().all(is_few),
    }
}

/// Whether a list is of at most [`FEW_PARTS`] parts.
fn is_few<T>(parts: &Sequence<T>) -> bool {
    parts.as_slice().len() <= FEW_PARTS
}

/// Whether a part of either geometry begins in the other.
fn has_any_start(a: &Valid, b: &Valid) -> bool
    ensures { result ≡ (has_start_in a.now b.now || has_start_in b.now a.now) }
{
    has_start_in(a, b) || has_start_in(b, a)
}

/// Whether two geometries have contact, of which the second is small: a part of either begins in the other, or an edge of
/// each shares a point. Lines that have contact mostly cross, so of these edges are looked at first.
fn have_contact(a: &Valid, b: &Valid) -> bool
    requires { IsTrue (nat_le (point_count b.now) few_points) }
    ensures first { result ≡ has_contact (matrix_of a.now b.now) }
    ensures second { result ≡ has_contact (matrix_of b.now a.now) }
{
    let first = a.geometry();
    let second = b.geometry();
    if are_lines(first, second) {
        return edges_meet(first, second) || has_any_start(a, b);
    }
    has_any_start(a, b) || edges_meet(first, second)
}
