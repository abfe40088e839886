//! The matrix of a geometry with an area, by a walk over those edges of the area alone that can be on a point of
//! the geometry or above one.

ghost use Rattle.sf_geometry.specs.Size.{points_max};
ghost use Rattle.std.specs.Prelude.{◌≡◌, ◌≤◌, ◌++◌, IfOk, IsFalse, OnOk, length, map};
ghost use Rattle.std.specs.List.{AllByRecursion};
ghost use Rattle.sf_geometry.specs.Lists.{is_same};
ghost use Rattle.sf_geometry.specs.Parts.{edge_of};
ghost use Rattle.sf_pieces.specs.Marked.{marked, piece_of};
ghost use Rattle.sf_known.specs.Known.{Holds};
ghost use Rattle.sf_relate.specs.Contact.{own_rows};
ghost use Rattle.sf_relate.specs.Matrices.{matrix_of};
ghost use Rattle.sf_relate.specs.Most.{beyond_row, known_beyond};
ghost use Rattle.sf_relate.specs.Nearby.{ReachesBeyond, TellPlaces, nearby_grouped};
ghost use Rattle.sf_relate.specs.Places.{shape_of};
ghost use Rattle.sf_relate.specs.declared.shape.Shape.TheVariants.{Areas};

use super::at_most::{known_of_kinds, most_entries};
use super::grouping::{FIRST, FIRST_ENDS, SECOND, push_grouped};
use super::shape::Shape;
use super::sink::KnownSink;
use sf_geometry::Geometry;
use sf_grid::GridPoint;
use sf_known::{Aim, Known, Matrix};
use sf_pieces::GroupedPieces;
use sf_plane::Dim;
use sf_validity::Valid;
use std::alloc::{AllocError, Global};

/// The matrix of a geometry with an area that has parts of its interior and of its boundary outside of it, by
/// those edges of the area that decide the place of each point of the geometry. What the area has in the
/// geometry's exterior is known, so the edges that are far away are not walked.
///
/// # Errors
///
/// Out of memory alone.
pub fn relate_nearby(
    alloc: Global,
    a: &Valid,
    area: &Valid,
    edges: &[(GridPoint, GridPoint)],
) -> Result<Matrix, AllocError>
    requires areal { shape_of area.now ≡ Areas }
    requires few { length edges.now ≤ points_max }
    requires long { AllByRecursion (λ pair. IsFalse (is_same pair.0 pair.1)) edges.now }
    requires places { TellPlaces a.now area.now (map edge_of edges.now) }
    requires beyond { ReachesBeyond a.now area.now }
    ensures { IfOk result (λ matrix. matrix.0 ≡ matrix_of a.now area.now) }
{
    let first = a.geometry();
    let pieces = pieces_nearby(alloc, first, edges)?;
    let second = area.geometry();
    let first_shape = Shape::of(first);
    let second_shape = Shape::of(second);
    let known = known_beyond(first, second);
    let mut sink = KnownSink::new(first_shape, second_shape, Aim::Entries, known);
    let areal = [first_shape.is_areal(), second_shape.is_areal()];
    pieces.walk(alloc, &areal, &mut sink)?;
    let entries = reaching_beyond(sink.known.least);
    Ok(Matrix(entries))
}

/// What is known of the matrix of two geometries at first, by their kinds. Points leave an area parts of its interior and of its
/// boundary.
pub(crate) fn known_at_first(a: &Valid, b: &Valid) -> Known
    ensures { Holds result (matrix_of a.now b.now) }
{
    let first = a.geometry();
    let second = b.geometry();
    match (Shape::of(first), Shape::of(second)) {
        (Shape::Points, Shape::Areas) => known_beyond(first, second),
        _ => known_of_kinds(a, b),
    }
}

/// What is known of the matrix of a geometry with an area that reaches beyond it.
fn known_beyond(a: &Geometry, area: &Geometry) -> Known
    ensures { result ≡ known_beyond a.now area.now }
{
    let least = reaching_beyond([Dim::Nothing; 9]);
    let most = reaching_beyond(most_entries(a, area));
    Known {
        least,
        most,
        contact: false,
    }
}

/// The first two rows of these entries, and the third one of an area that reaches beyond the other geometry.
fn reaching_beyond(entries: [Dim; 9]) -> [Dim; 9]
    ensures { result ≡ own_rows entries ++ beyond_row }
{
    let [ii, ib, ie, bi, bb, be, _, _, _] = entries;
    [ii, ib, ie, bi, bb, be, Dim::Two, Dim::One, Dim::Two]
}

/// The pieces of a geometry with its ends, and these edges, by groups.
fn pieces_nearby(
    alloc: Global,
    first: &Geometry,
    edges: &[(GridPoint, GridPoint)],
) -> Result<GroupedPieces, AllocError>
    requires { AllByRecursion (λ pair. IsFalse (is_same pair.0 pair.1)) edges.now }
    ensures { IfOk result (λ pieces. pieces ≡ nearby_grouped first.now (map edge_of edges.now)) }
{
    let mut pieces = GroupedPieces::new(alloc);
    push_edges(&mut pieces, edges)?;
    push_grouped(alloc, &mut pieces, first, FIRST, FIRST_ENDS)?;
    Ok(pieces)
}

/// Adds edges to the group of the second geometry.
fn push_edges(
    pieces: &mut GroupedPieces,
    edges: &[(GridPoint, GridPoint)],
) -> Result<(), AllocError>
    requires { AllByRecursion (λ pair. IsFalse (is_same pair.0 pair.1)) edges.now }
    ensures { OnOk result (pieces.new ≡ pieces.old ++ marked 1 (map piece_of (map edge_of edges.now))) }
{
    for edge in edges {
        let (from, to) = edge;
        pieces.push_edges(&[*from, *to], SECOND)?;
    }
    Ok(())
}
