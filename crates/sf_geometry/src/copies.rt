//! Copies of geometries.

ghost use Rattle.std.specs.Prelude.{◌≡◌, IfOk};

use super::geometry::Geometry;
use super::sequence::Sequence;
use sf_grid::GridPoint;
use std::alloc::{AllocError, Global};

impl Geometry {
    /// A copy of the geometry.
    pub fn copy(&self, alloc: Global) -> Result<Geometry, AllocError>
        ensures { IfOk result (λ copy. copy ≡ self.now) }
    {
        Ok(match self {
            Geometry::Point(point) => Geometry::Point(*point),
            Geometry::LineString(points) => {
                Geometry::LineString(copy_of_points(alloc, points.as_slice())?)
            }
            Geometry::Polygon(rings) => Geometry::Polygon(copy_of_lists(alloc, rings.as_slice())?),
            Geometry::MultiPoint(points) => {
                Geometry::MultiPoint(copy_of_points(alloc, points.as_slice())?)
            }
            Geometry::MultiLineString(lines) => {
                Geometry::MultiLineString(copy_of_lists(alloc, lines.as_slice())?)
            }
            Geometry::MultiPolygon(polygons) => {
                Geometry::MultiPolygon(copy_of_polygons(alloc, polygons.as_slice())?)
            }
        })
    }
}

/// A copy of a list of points.
fn copy_of_points(alloc: Global, points: &[GridPoint]) -> Result<Sequence<GridPoint>, AllocError>
    ensures { IfOk result (λ copy. copy ≡ points.now) }
{
    Ok(Sequence::from_vec(points.to_vec(alloc)?))
}

/// A copy of several lists of points.
fn copy_of_lists(
    alloc: Global,
    lists: &[Sequence<GridPoint>],
) -> Result<Sequence<Sequence<GridPoint>>, AllocError>
    ensures { IfOk result (λ copy. copy ≡ lists.now) }
{
    let mut copy = Vec::with_capacity(alloc, lists.len())?;
    for points in lists {
        copy.push(copy_of_points(alloc, points.as_slice())?)?;
    }
    Ok(Sequence::from_vec(copy))
}

/// A copy of several polygons.
fn copy_of_polygons(
    alloc: Global,
    polygons: &[Sequence<Sequence<GridPoint>>],
) -> Result<Sequence<Sequence<Sequence<GridPoint>>>, AllocError>
    ensures { IfOk result (λ copy. copy ≡ polygons.now) }
{
    let mut copy = Vec::with_capacity(alloc, polygons.len())?;
    for rings in polygons {
        copy.push(copy_of_lists(alloc, rings.as_slice())?)?;
    }
    Ok(Sequence::from_vec(copy))
}
