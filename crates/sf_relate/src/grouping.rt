//! The pieces of a geometry, added to groups.

ghost use Rattle.std.specs.Prelude.{◌≡◌, ◌++◌, IfOk, OnOk, map};
ghost use Rattle.sf_strips.specs.declared.piece.Piece.TheVariants.{Dot};
ghost use Rattle.sf_geometry.specs.Parts.{joined};
ghost use Rattle.sf_pieces.specs.Marked.{marked};
ghost use Rattle.sf_relate.specs.AllPieces.{all_grouped, grouped, lists_in, pieces_of};

use sf_geometry::{Geometry, Sequence};
use sf_grid::GridPoint;
use sf_pieces::GroupedPieces;
use std::alloc::{AllocError, Global};

/// The group of the pieces of the first geometry.
pub(crate) const FIRST: u32 = 0;

/// The group of the pieces of the second geometry.
pub(crate) const SECOND: u32 = 1;

/// The group of the ends of the first geometry's lines.
pub(crate) const FIRST_ENDS: u32 = 2;

/// The group of the ends of the second geometry's lines.
pub(crate) const SECOND_ENDS: u32 = 3;

/// The pieces of two geometries and dots at the ends of their lines, by groups.
pub(crate) fn pieces_of(
    alloc: Global,
    first: &Geometry,
    second: &Geometry,
) -> Result<GroupedPieces, AllocError>
    ensures { IfOk result (λ pieces. pieces ≡ all_grouped first.now second.now) }
{
    let mut pieces = GroupedPieces::new(alloc);
    push_grouped(alloc, &mut pieces, second, SECOND, SECOND_ENDS)?;
    push_grouped(alloc, &mut pieces, first, FIRST, FIRST_ENDS)?;
    Ok(pieces)
}

/// Adds the pieces of a geometry to one group, and dots at the ends of its lines to another one.
pub(crate) fn push_grouped(
    alloc: Global,
    pieces: &mut GroupedPieces,
    geometry: &Geometry,
    group: u32,
    ends_group: u32,
) -> Result<(), AllocError>
    ensures { OnOk result (pieces.new ≡ pieces.old ++ grouped group ends_group geometry.now) }
{
    push_pieces(pieces, geometry, group)?;
    let ends = geometry.ends(alloc)?;
    push_dots(pieces, ends.as_slice(), ends_group)
}

/// Adds the points or the edges of a geometry.
fn push_pieces(
    pieces: &mut GroupedPieces,
    geometry: &Geometry,
    group: u32,
) -> Result<(), AllocError>
    ensures { OnOk result (pieces.new ≡ pieces.old ++ marked group (pieces_of geometry.now)) }
{
    match geometry {
        Geometry::Point(point) => pieces.push_dot(*point, group),
        Geometry::MultiPoint(points) => push_dots(pieces, points.as_slice(), group),
        Geometry::LineString(points) => pieces.push_edges(points.as_slice(), group),
        Geometry::Polygon(lists) | Geometry::MultiLineString(lists) => {
            push_lists(pieces, lists.as_slice(), group)
        }
        Geometry::MultiPolygon(polygons) => push_polygons(pieces, polygons.as_slice(), group),
    }
}

/// Adds the edges of the rings of polygons.
fn push_polygons(
    pieces: &mut GroupedPieces,
    polygons: &[Sequence<Sequence<GridPoint>>],
    group: u32,
) -> Result<(), AllocError>
    ensures { OnOk result (pieces.new ≡ pieces.old ++ lists_in group (joined polygons.now)) }
{
    for rings in polygons {
        push_lists(pieces, rings.as_slice(), group)?;
    }
    Ok(())
}

/// Adds the edges of lines or rings.
fn push_lists(
    pieces: &mut GroupedPieces,
    lists: &[Sequence<GridPoint>],
    group: u32,
) -> Result<(), AllocError>
    ensures { OnOk result (pieces.new ≡ pieces.old ++ lists_in group lists.now) }
{
    for points in lists {
        pieces.push_edges(points.as_slice(), group)?;
    }
    Ok(())
}

/// Adds points.
fn push_dots(pieces: &mut GroupedPieces, points: &[GridPoint], group: u32) -> Result<(), AllocError>
    ensures { OnOk result (pieces.new ≡ pieces.old ++ marked group (map Dot points.now)) }
{
    for point in points {
        pieces.push_dot(*point, group)?;
    }
    Ok(())
}
