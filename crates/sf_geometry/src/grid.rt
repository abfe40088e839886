//! That the points of a geometry are on the grid: what the type of each point says, said of all.

ghost use Rattle.std.specs.List.{AllByRecursion};
ghost use Rattle.sf_geometry.specs.Parts.{LiesOnGrid, joined};
ghost use Rattle.sf_grid.specs.Plane.{IsOnGrid};

use super::geometry::Geometry;
use super::sequence::Sequence;
use sf_grid::GridPoint;

impl Geometry {
    /// Shows a proof that each point is on the grid. It reads the points and does nothing with
    /// them, so a compiler may leave it out.
    pub fn lies_on_grid(&self)
        ensures { LiesOnGrid self.now }
    {
        match self {
            Geometry::Point(point) => point_lies_on_grid(*point),
            Geometry::LineString(points) | Geometry::MultiPoint(points) => {
                points_lie_on_grid(points.as_slice());
            }
            Geometry::Polygon(lists) | Geometry::MultiLineString(lists) => {
                lists_lie_on_grid(lists.as_slice());
            }
            Geometry::MultiPolygon(polygons) => polygons_lie_on_grid(polygons.as_slice()),
        }
    }
}

fn polygons_lie_on_grid(polygons: &[Sequence<Sequence<GridPoint>>])
    ensures { AllByRecursion IsOnGrid (joined (joined polygons.now)) }
{
    for rings in polygons {
        lists_lie_on_grid(rings.as_slice());
    }
}

fn lists_lie_on_grid(lists: &[Sequence<GridPoint>])
    ensures { AllByRecursion IsOnGrid (joined lists.now) }
{
    for points in lists {
        points_lie_on_grid(points.as_slice());
    }
}

fn points_lie_on_grid(points: &[GridPoint])
    ensures { AllByRecursion IsOnGrid points.now }
{
    for point in points {
        point_lies_on_grid(*point);
    }
}

fn point_lies_on_grid(point: GridPoint)
    ensures { IsOnGrid point }
{
    point.x();
}
