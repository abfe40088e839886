//! The edges and ends of a geometry.

ghost use Rattle.std.specs.Prelude.{◌≡◌, ◌++◌, ◌∷◌, [], IfOk, MatchOption, OnOk, length, map};
ghost use Rattle.std.specs.List.{flat_map};
ghost use Rattle.sf_geometry.specs.Lists.{edges_of as edges_of_list, ends_of as ends_of_line, is_closed as is_closed_list, last_from, tight as tight_of};
ghost use Rattle.sf_geometry.specs.Parts.{edge_of, edges_of, ends_of, joined};

use super::geometry::Geometry;
use super::sequence::Sequence;
use sf_grid::GridPoint;
use std::alloc::{AllocError, Global};

/// The points of a line or ring, consecutive repeats dropped.
pub fn tight(alloc: Global, points: &[GridPoint]) -> Result<Vec<GridPoint>, AllocError>
    ensures { IfOk result (λ found. found.items ≡ tight_of points.now) }
{
    let mut found = points.to_vec(alloc)?;
    found.dedup();
    Ok(found)
}

/// How many points of a line or ring are left where consecutive repeats are dropped.
pub fn tight_length(points: &[GridPoint]) -> usize
    ensures { result ≡ length (tight_of points.now) }
{
    let Some((first, others)) = points.split_first() else {
        return 0;
    };
    let mut length = 1;
    let mut from = *first;
    for to in others {
        if from != *to {
            length += 1;
        }
        from = *to;
    }
    length
}

/// Whether a line or ring is closed: whether its first and its last point are equal.
pub fn is_closed(points: &[GridPoint]) -> bool
    ensures { result ≡ is_closed_list points.now }
{
    match points.split_first() {
        Some((first, others)) => *first == last_of(*first, others),
        None => true,
    }
}

/// The first and the last point of a line that isn't closed.
pub fn line_ends(points: &[GridPoint]) -> Option<(GridPoint, GridPoint)>
    ensures { MatchOption result (ends_of_line points.now ≡ []) (λ ends. ends_of_line points.now ≡ ends.0 ∷ ends.1 ∷ []) }
{
    let Some((first, others)) = points.split_first() else {
        return None;
    };
    let last = last_of(*first, others);
    if *first == last {
        return None;
    }
    Some((*first, last))
}

impl Geometry {
    /// The edges of the geometry's lines and rings, in order: each by its two ends, which differ.
    pub fn edges(&self, alloc: Global) -> Result<Vec<(GridPoint, GridPoint)>, AllocError>
        ensures { IfOk result (λ found. map edge_of found.items ≡ edges_of self.now) }
    {
        let mut found = Vec::new(alloc);
        match self {
            Geometry::Point(_) | Geometry::MultiPoint(_) => {}
            Geometry::LineString(points) => push_edges(&mut found, points.as_slice())?,
            Geometry::Polygon(lists) | Geometry::MultiLineString(lists) => {
                push_all_edges(&mut found, lists.as_slice())?;
            }
            Geometry::MultiPolygon(polygons) => {
                push_polygons_edges(&mut found, polygons.as_slice())?;
            }
        }
        Ok(found)
    }

    /// The end points of the geometry's lines that aren't closed, in order.
    pub fn ends(&self, alloc: Global) -> Result<Vec<GridPoint>, AllocError>
        ensures { IfOk result (λ found. found.items ≡ ends_of self.now) }
    {
        let mut found = Vec::new(alloc);
        match self {
            Geometry::LineString(points) => push_ends(&mut found, points.as_slice())?,
            Geometry::MultiLineString(lines) => push_all_ends(&mut found, lines.as_slice())?,
            _ => {}
        }
        Ok(found)
    }
}

/// Pushes the edges of a line or ring.
fn push_edges(
    found: &mut Vec<(GridPoint, GridPoint)>,
    points: &[GridPoint],
) -> Result<(), AllocError>
    ensures { OnOk result (map edge_of found.new.items
        ≡ map edge_of found.old.items ++ edges_of_list points.now) }
{
    let Some((first, others)) = points.split_first() else {
        return Ok(());
    };
    let mut from = *first;
    for to in others {
        if from != *to {
            found.push((from, *to))?;
        }
        from = *to;
    }
    Ok(())
}

/// Pushes the edges of lines or rings.
fn push_all_edges(
    found: &mut Vec<(GridPoint, GridPoint)>,
    lists: &[Sequence<GridPoint>],
) -> Result<(), AllocError>
    ensures { OnOk result (map edge_of found.new.items
        ≡ map edge_of found.old.items ++ flat_map edges_of_list lists.now) }
{
    for points in lists {
        push_edges(found, points.as_slice())?;
    }
    Ok(())
}

/// Pushes the edges of polygons.
fn push_polygons_edges(
    found: &mut Vec<(GridPoint, GridPoint)>,
    polygons: &[Sequence<Sequence<GridPoint>>],
) -> Result<(), AllocError>
    ensures { OnOk result (map edge_of found.new.items
        ≡ map edge_of found.old.items ++ flat_map edges_of_list (joined polygons.now)) }
{
    for rings in polygons {
        push_all_edges(found, rings.as_slice())?;
    }
    Ok(())
}

/// Pushes the ends of the lines that aren't closed.
fn push_all_ends(
    found: &mut Vec<GridPoint>,
    lines: &[Sequence<GridPoint>],
) -> Result<(), AllocError>
    ensures { OnOk result (found.new.items ≡ found.old.items ++ flat_map ends_of_line lines.now) }
{
    for points in lines {
        push_ends(found, points.as_slice())?;
    }
    Ok(())
}

/// Pushes the ends of a line, if it isn't closed.
fn push_ends(found: &mut Vec<GridPoint>, points: &[GridPoint]) -> Result<(), AllocError>
    ensures { OnOk result (found.new.items ≡ found.old.items ++ ends_of_line points.now) }
{
    if let Some((first, last)) = line_ends(points) {
        found.push(first)?;
        found.push(last)?;
    }
    Ok(())
}

/// The last point of a list, from its first point and the others.
pub(crate) fn last_of(first: GridPoint, others: &[GridPoint]) -> GridPoint
    ensures { result ≡ last_from first others.now }
{
    match others.split_last() {
        Some((last, _)) => *last,
        None => first,
    }
}
