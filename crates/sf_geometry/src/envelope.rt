//! The box of a geometry.

ghost use Rattle.std.specs.Prelude.{◌≡◌, None, Some, fold};
ghost use Rattle.sf_geometry.specs.Envelope.{envelope_of, grown as grown_to};
ghost use Rattle.sf_geometry.specs.Parts.{joined, points_of};
ghost use Rattle.sf_geometry.specs.Size.{IsSized};

use super::extent::Extent;
use super::geometry::Geometry;
use super::sequence::Sequence;
use sf_grid::GridPoint;

impl Geometry {
    /// The least box that has all points of the geometry.
    pub fn envelope(&self) -> Extent
        requires sized { IsSized self.now }
        ensures { result ≡ envelope_of self.now }
    {
        self.extent().unwrap()
    }

    /// The least box that has all points of the geometry, or None where it has none.
    pub fn extent(&self) -> Option<Extent>
        ensures { result ≡ fold grown_to None (points_of self.now) }
    {
        match self {
            Geometry::Point(point) => Some(Extent::at(*point)),
            Geometry::LineString(points) | Geometry::MultiPoint(points) => {
                with_points(None, points.as_slice())
            }
            Geometry::Polygon(lists) | Geometry::MultiLineString(lists) => {
                with_lists(None, lists.as_slice())
            }
            Geometry::MultiPolygon(polygons) => with_polygons(None, polygons.as_slice()),
        }
    }
}

impl Extent {
    /// The least box that has these points, or None where there are none.
    pub fn of_points(points: &[GridPoint]) -> Option<Extent>
        ensures { result ≡ fold grown_to None points.now }
    {
        with_points(None, points)
    }

    /// The least box that has the points of these lists, or None where there are none.
    pub fn of_lists(lists: &[Sequence<GridPoint>]) -> Option<Extent>
        ensures { result ≡ fold grown_to None (joined lists.now) }
    {
        with_lists(None, lists)
    }
}

/// The least box that has these points beside those of a box.
fn with_points(extent: Option<Extent>, points: &[GridPoint]) -> Option<Extent>
    ensures { result ≡ fold grown_to extent points.now }
{
    points
        .iter()
        .fold(extent, |extent, point| Some(with_point(extent, *point)))
}

/// The least box that has the points of these lists beside those of a box.
fn with_lists(extent: Option<Extent>, lists: &[Sequence<GridPoint>]) -> Option<Extent>
    ensures { result ≡ fold grown_to extent (joined lists.now) }
{
    let mut extent = extent;
    for points in lists {
        extent = with_points(extent, points.as_slice());
    }
    extent
}

/// The least box that has the points of these polygons beside those of a box.
fn with_polygons(
    extent: Option<Extent>,
    polygons: &[Sequence<Sequence<GridPoint>>],
) -> Option<Extent>
    ensures { result ≡ fold grown_to extent (joined (joined polygons.now)) }
{
    let mut extent = extent;
    for rings in polygons {
        extent = with_lists(extent, rings.as_slice());
    }
    extent
}

/// The least box that has a point beside those of a box.
fn with_point(extent: Option<Extent>, point: GridPoint) -> Extent
    ensures { Some result ≡ grown_to extent point }
{
    match extent {
        None => Extent::at(point),
        Some(extent) => extent.with(point),
    }
}
