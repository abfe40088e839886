//! Edges as runs, numbered by the lines on which they lie.

ghost use Rattle.std.specs.Prelude.{◌≡◌, ◌≢◌, ◌↔◌, ◌∷◌, ◌*◌, ◌-ℤ◌, ◌*ℤ◌, ◌<◌, ◌≤◌, IfOk, IsTrue, unsigned_abs};
ghost use Rattle.sf_grid.specs.Bounds.{IsCoordinate, coordinate_bound, difference_bound};
ghost use Rattle.sf_grid.specs.Edge.{edge_between};
ghost use Rattle.sf_plane.specs.Laws.{ShareTwoPoints};
ghost use Rattle.sf_along.specs.Covers.{edge_of_run, has_edge};
ghost use Rattle.sf_along.specs.Marks.{place_of};
ghost use Rattle.sf_along.specs.Runs.{AreInOrder, GoTogether, HasPartner, IsRun, height_of, key_of, offset_of, reaches as reaches_of, run_of, runs_of, slope_of};

use sf_grid::edges::{comes_before, meet, on_edge};
use sf_grid::{GridPoint, Meet};
use std::alloc::{AllocError, Global};

/// Slopes are counted in parts of 2^-31: the steepest, of 2^31 - 1 grid steps on one, is less than 2^62 of them.
const SLOPE_STEPS: i64 = 1 << 31;

/// Heights are counted in half grid steps: the greatest, of less than 2^62 grid steps, is less than 2^63 of them.
const HEIGHT_STEPS: i64 = 2;

/// How many places a table has in which lines are marked.
pub(crate) const PLACES: usize = 1 << 15;

/// An edge from its earlier end to its later, by x and then y, of the first of two geometries or of the second.
///
/// Its slope and its height are those of its line, rounded down. Equal fractions are rounded to equal numbers, so edges
/// of one line have the same two. Edges of two lines hardly ever have, and `goes_with` distinguishes them.
#[derive(Clone, Copy)]
pub(crate) struct Run {
    slope: i64,
    height: i64,
    pub(crate) left: GridPoint,
    right: GridPoint,
    pub(crate) is_first: bool,
}

impl Run {
    /// The run of an edge between two points.
    pub(crate) fn of(edge: &(GridPoint, GridPoint), is_first: bool) -> Run
        ensures { result ≡ run_of is_first edge.now }
    {
        let (left, right) = if comes_before(edge.1, edge.0) {
            (edge.1, edge.0)
        } else {
            *edge
        };
        Run {
            slope: slope(left, right),
            height: height(left, right),
            left,
            right,
            is_first,
        }
    }

    /// By what runs are sorted: those of one line come together, from its first point on.
    pub(crate) fn key(&self) -> (i64, i64, i32, i32)
        ensures { result ≡ key_of self.now }
    {
        (self.slope, self.height, self.left.x(), self.left.y())
    }

    /// By what runs are sorted where those of the second geometry stand before those of the first with the same first point.
    pub(crate) fn key_behind_second(&self) -> (i64, i64, i32, i32, bool) {
        (
            self.slope,
            self.height,
            self.left.x(),
            self.left.y(),
            self.is_first,
        )
    }

    /// The place of its line in a table: lines with the same numbers have one place, and now and then others have it too. A
    /// height counts by its parts and by its whole steps, since those of level lines have no parts.
    pub(crate) fn place(&self) -> usize
        ensures value { result ≡ place_of self.now }
        ensures within { result < PLACES }
    {
        let height = self.height.unsigned_abs();
        (self.slope.unsigned_abs() ^ height ^ (height / HEIGHT_STEPS.unsigned_abs())) as usize
            & (PLACES - 1)
    }

    /// Whether another run has the same numbers, and begins before this one ends.
    fn reaches(&self, other: &Run) -> bool
        ensures { result ≡ reaches_of self.now other.now }
    {
        self.slope == other.slope
            && self.height == other.height
            && comes_before(other.left, self.right)
    }

    /// Whether another run has the same numbers, and ends no later.
    pub(crate) fn ends_behind(&self, other: &Run) -> bool {
        self.slope == other.slope
            && self.height == other.height
            && !comes_before(self.right, other.right)
    }

    /// Whether all of another run lies in this one.
    pub(crate) fn has(&self, other: &Run) -> bool
        ensures { result ≡ has_edge (edge_of_run self.now) (edge_of_run other.now) }
    {
        on_edge(other.left, self.left, self.right) && on_edge(other.right, self.left, self.right)
    }

    /// Whether another run is of the other geometry and has two points in common with this one.
    fn goes_with(&self, other: &Run) -> bool
        requires this { IsRun self.now }
        requires that { IsRun other.now }
        ensures { IsTrue result ↔ GoTogether self.now other.now }
    {
        self.is_first != other.is_first
            && do_share((self.left, self.right), (other.left, other.right))
    }

    /// Whether one of the runs behind it, which are in order, goes along it.
    pub(crate) fn goes_with_one(&self, behind: &[Run]) -> bool
        requires { AreInOrder (self.now ∷ behind.now) }
        ensures { IsTrue result ↔ HasPartner self.now behind.now }
    {
        for other in behind {
            if !self.reaches(other) {
                return false;
            }
            if self.goes_with(other) {
                return true;
            }
        }
        false
    }
}

/// The runs of the edges of both geometries, those of the first one ahead.
pub(crate) fn all_runs(
    alloc: Global,
    first: &[(GridPoint, GridPoint)],
    second: &[(GridPoint, GridPoint)],
) -> Result<Vec<Run>, AllocError>
    ensures { IfOk result (λ runs. runs.items ≡ runs_of first.now second.now) }
{
    first
        .iter()
        .map(|edge| Run::of(edge, true))
        .chain(second.iter().map(|edge| Run::of(edge, false)))
        .collect(alloc)
}

/// The slope of the line through two points of which `right` is the later one: the greatest number for an upright line.
fn slope(left: GridPoint, right: GridPoint) -> i64
    ensures { result ≡ slope_of left right }
{
    if left.x() == right.x() {
        return i64::MAX;
    }
    let width = difference(right.x(), left.x());
    let rise = difference(right.y(), left.y());
    (rise * SLOPE_STEPS).div_euclid(width)
}

/// The height of the line through two points at the origin, or the x of an upright line.
fn height(left: GridPoint, right: GridPoint) -> i64
    ensures { result ≡ height_of left right }
{
    if left.x() == right.x() {
        return i64::from(left.x());
    }
    let width = difference(right.x(), left.x());
    (offset(left, right) * HEIGHT_STEPS).div_euclid(width)
}

/// The height of the line through two points at the origin, times the width between them.
fn offset(left: GridPoint, right: GridPoint) -> i64
    ensures value { result ≡ offset_of left right }
    ensures bound { unsigned_abs result ≤ 2 * (coordinate_bound * difference_bound) }
{
    let width = difference(right.x(), left.x());
    let rise = difference(right.y(), left.y());
    product(i64::from(left.y()), width) - product(i64::from(left.x()), rise)
}

/// The product of a coordinate and a difference of coordinates.
fn product(a: i64, b: i64) -> i64
    requires first_small { unsigned_abs a ≤ coordinate_bound }
    requires second_small { unsigned_abs b ≤ difference_bound }
    ensures value { result ≡ a *ℤ b }
    ensures bound { unsigned_abs result ≤ coordinate_bound * difference_bound }
{
    a * b
}

/// How far `a` is above `b`.
fn difference(a: i32, b: i32) -> i64
    requires first_on_grid { IsCoordinate a }
    requires second_on_grid { IsCoordinate b }
    ensures value { result ≡ a -ℤ b }
    ensures bound { unsigned_abs result ≤ difference_bound }
{
    i64::from(a) - i64::from(b)
}

/// Whether two edges have two points in common.
fn do_share(e: (GridPoint, GridPoint), f: (GridPoint, GridPoint)) -> bool
    requires first_has_length { e.0 ≢ e.1 }
    requires second_has_length { f.0 ≢ f.1 }
    ensures { IsTrue result ↔ ShareTwoPoints (edge_between e.0 e.1) (edge_between f.0 f.1) }
{
    match meet(e, f) {
        Meet::Apart | Meet::At(_) => false,
        Meet::Along(..) => true,
    }
}
