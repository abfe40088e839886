//! The matrix of two areas. Where they overlap no cell is needed once two edges are found that cross, and else the walk
//! ends after a few columns: then each entry has the most that areas allow, but that of the two boundaries, and edges that
//! run along one another decide that one.

ghost use Rattle.std.specs.Prelude.{◌≡◌, IfOk, IfSome, IsTrue};
ghost use Rattle.sf_crossing.specs.Crossing.{HaveCrossing};
ghost use Rattle.sf_geometry.specs.Parts.{edges_of};
ghost use Rattle.sf_known.specs.Known.{Holds};
ghost use Rattle.sf_relate.specs.Areas.{Overlap, known_overlapping, overlapping_entries, with_boundaries};
ghost use Rattle.sf_relate.specs.Matrices.{matrix_of};
ghost use Rattle.sf_relate.specs.Places.{shape_of};
ghost use Rattle.sf_relate.specs.declared.shape.Shape.TheVariants.{Areas};
ghost use Rattle.sf_validity.specs.Held.{IsHeld};

use super::shape::Shape;
use sf_crossing::have_crossing;
use sf_known::{Known, Matrix};
use sf_plane::Dim::{self, One, Two, Zero};
use sf_validity::Valid;
use std::alloc::{AllocError, Global};

/// What edges that cross show of the matrix of two areas: all but how their boundaries share points. None where none are
/// found, and where no memory is.
pub fn known_by_crossing(alloc: Global, a: &Valid, b: &Valid) -> Option<Known>
    ensures { IfSome result (λ known. Holds known (matrix_of a.now b.now)) }
{
    match are_known_to_overlap(alloc, a, b) {
        Ok(true) => Some(known_overlapping()),
        _ => None,
    }
}

/// Whether two geometries are areas of which edges are found that cross, so that they overlap. If not, nothing is known.
///
/// # Errors
///
/// Out of memory alone.
pub fn are_known_to_overlap(alloc: Global, a: &Valid, b: &Valid) -> Result<bool, AllocError>
    ensures { IfOk result (λ told. IsTrue told → Overlap a.now b.now) }
{
    if !are_areas(a, b) {
        return Ok(false);
    }
    are_crossed(alloc, a, b)
}

/// Whether an edge of one geometry is found that crosses an edge of the other at a point that no other edge of the two has. If
/// not, nothing is known. Only edges are tried whose boxes meet the box that both geometries have in common.
///
/// # Errors
///
/// Out of memory alone.
pub fn are_crossed(alloc: Global, a: &Valid, b: &Valid) -> Result<bool, AllocError>
    ensures { IfOk result (λ told. IsTrue told → HaveCrossing (edges_of a.now) (edges_of b.now)) }
{
    let first = a.geometry();
    let second = b.geometry();
    let common = first.envelope().common(second.envelope());
    if second.point_count() <= first.point_count() {
        have_crossing(alloc, first, second, &common)
    } else {
        have_crossing(alloc, second, first, &common)
    }
}

/// Whether both geometries are polygons.
pub(crate) fn are_areas(a: &Valid, b: &Valid) -> bool
    ensures areas { IsTrue result → (shape_of a.now ≡ Areas) × (shape_of b.now ≡ Areas) }
    ensures valid { IsTrue result → IsHeld a.now × IsHeld b.now }
{
    Shape::of(a.geometry()).is_areal() && Shape::of(b.geometry()).is_areal()
}

/// The matrix of which all is known but how the boundaries of two areas share points, by whether they run along one another.
pub(crate) fn matrix_along(known: &Known, along: bool) -> Matrix
    ensures { result.0 ≡ with_boundaries known.now.least along }
{
    let mut entries = known.least;
    entries[4] = if along { One } else { Zero };
    Matrix(entries)
}

/// What is known of areas that overlap.
fn known_overlapping() -> Known
    ensures { result ≡ known_overlapping }
{
    Known {
        least: overlapping_entries(false),
        most: overlapping_entries(true),
        contact: false,
    }
}

/// The entries of two areas that overlap, by whether their boundaries run along one another.
fn overlapping_entries(along: bool) -> [Dim; 9]
    ensures { result ≡ overlapping_entries along }
{
    let bb = if along { One } else { Zero };
    [Two, One, Two, One, bb, One, Two, One, Two]
}
