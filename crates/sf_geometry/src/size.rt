//! How large a geometry is.

ghost use Rattle.std.specs.Prelude.{◌≡◌, ◌≤◌, ◌^◌, ◌-◌, Ok, Err, None, Some, IfErr, OnOk, length, min};
ghost use Rattle.sf_geometry.specs.Parts.{joined};
ghost use Rattle.std.specs.List.{list_any};
ghost use Rattle.sf_geometry.specs.Size.{IsSized, has_empty as has_empty_of, has_empty_list, is_empty, point_count as point_count_of, size_fault};

use super::geometry::Geometry;
use super::refusal::Refusal;
use super::sequence::Sequence;
use sf_grid::GridPoint;

/// How many points a geometry has at most.
pub(crate) const POINTS_MAX: usize = 65_536;

impl Geometry {
    /// Whether no list of the geometry is empty and its points are at most 65,536.
    ///
    /// # Errors
    ///
    /// `Empty` where a list is empty, else `TooManyVertices` above the limit.
    pub fn check_size(&self) -> Result<(), Refusal>
        ensures ok { OnOk result (size_fault self.now ≡ None) }
        ensures refused { IfErr result (λ refusal. size_fault self.now ≡ Some refusal) }
    {
        if self.has_empty_list() {
            Err(Refusal::Empty)
        } else if self.points_within() > POINTS_MAX {
            Err(Refusal::TooManyVertices)
        } else {
            Ok(())
        }
    }

    /// How many points the geometry has, repeats and closing points counted.
    pub fn point_count(&self) -> usize
        requires sized { IsSized self.now }
        ensures { result ≡ point_count_of self.now }
    {
        self.points_within()
    }

    /// Whether a list is empty.
    fn has_empty_list(&self) -> bool
        ensures { result ≡ has_empty_list self.now }
    {
        match self {
            Geometry::Point(_) => false,
            Geometry::LineString(points) => points.as_slice().is_empty(),
            Geometry::Polygon(rings) => has_empty(rings.as_slice()),
            Geometry::MultiPoint(points) => points.as_slice().is_empty(),
            Geometry::MultiLineString(lines) => has_empty(lines.as_slice()),
            Geometry::MultiPolygon(polygons) => {
                polygons.as_slice().is_empty() || has_empty_polygon(polygons.as_slice())
            }
        }
    }

    /// How many points there are, or the greatest number that fits.
    fn points_within(&self) -> usize
        ensures { result ≡ min (point_count_of self.now) (2 ^ 64 - 1) }
    {
        match self {
            Geometry::Point(_) => 1,
            Geometry::LineString(points) => points.as_slice().len(),
            Geometry::Polygon(rings) => count_in(rings.as_slice()),
            Geometry::MultiPoint(points) => points.as_slice().len(),
            Geometry::MultiLineString(lines) => count_in(lines.as_slice()),
            Geometry::MultiPolygon(polygons) => polygons.as_slice().iter().fold(
                0usize,
                |count, rings| { count.saturating_add(count_in(rings.as_slice())) },
            ),
        }
    }
}

/// Whether there is no list, or one is empty.
fn has_empty(lists: &[Sequence<GridPoint>]) -> bool
    ensures { result ≡ has_empty_of lists.now }
{
    lists.is_empty() || has_empty_member(lists)
}

/// Whether a list is empty.
fn has_empty_member(lists: &[Sequence<GridPoint>]) -> bool
    ensures { result ≡ list_any is_empty lists.now }
{
    lists.iter().any(|points| points.as_slice().is_empty())
}

/// Whether a polygon has no ring or an empty one.
fn has_empty_polygon(polygons: &[Sequence<Sequence<GridPoint>>]) -> bool
    ensures { result ≡ list_any has_empty_of polygons.now }
{
    polygons.iter().any(|rings| has_empty(rings.as_slice()))
}

/// How many points the lists have, or the greatest number that fits.
fn count_in(lists: &[Sequence<GridPoint>]) -> usize
    ensures { result ≡ min (length (joined lists.now)) (2 ^ 64 - 1) }
{
    lists.iter().fold(0usize, |count, points| {
        count.saturating_add(points.as_slice().len())
    })
}
