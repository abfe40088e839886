//! Edges from left to right: on which side of them points lie, and how steep they are.

ghost use Rattle.std.specs.Prelude.{◌≡◌, ◌≤◌, ◌-ℤ◌, ◌*ℤ◌, unsigned_abs, ◌↔◌, IfSome, IsNone, IsTrue};
ghost use Rattle.sf_grid.specs.Bounds.{difference_bound};
ghost use Rattle.sf_grid.specs.Edge.{edge_between, is_vertical, left_end, right_end};
ghost use Rattle.sf_grid.specs.Plane.{grid_point};
ghost use Rattle.sf_strips.specs.Slanted.{IsRightward, side_of, slope_order as slope_order_of};

use sf_grid::edges::orientation;
use sf_grid::{GridPoint, Turn};
use std::cmp::Ordering;
use std::marker::Model;

/// An edge that isn't vertical, from its left end to its right end.
#[derive(Clone, Copy)]
pub struct Slanted {
    left: GridPoint,
    right: GridPoint,
    ghost rightward: { IsRightward left right },
}

impl Model for Slanted {
    ghost use Rattle.sf_strips.specs.Slanted.{RightwardEdge};

    ghost Value = { RightwardEdge };

    ghost view = { λ e. record { left = e.left; right = e.right; rightward = e.rightward } };

    ghost inverse = { λ e. record { left = e.left; right = e.right; rightward = e.rightward } };
}

impl Slanted {
    /// The edge between two points, or None exactly where they are in one column.
    pub fn between(a: GridPoint, b: GridPoint) -> Option<Slanted>
        ensures some { IfSome result (λ e.
            (e.left ≡ left_end (edge_between a b)) × (e.right ≡ right_end (edge_between a b))) }
        ensures none { IsNone result ↔ IsTrue (is_vertical (edge_between a b)) }
    {
        if a.x() < b.x() {
            Some(Slanted { left: a, right: b })
        } else if b.x() < a.x() {
            Some(Slanted { left: b, right: a })
        } else {
            None
        }
    }

    /// The left end.
    pub fn left(&self) -> GridPoint
        ensures { result ≡ self.now.left }
    {
        self.left
    }

    /// The right end.
    pub fn right(&self) -> GridPoint
        ensures { result ≡ self.now.right }
    {
        self.right
    }

    /// Where `p` lies in its column: below the line of this edge, on it, or above it.
    pub fn side(&self, p: GridPoint) -> Ordering
        ensures { result ≡ side_of self.now.left self.now.right (grid_point p) }
    {
        match orientation(self.left, self.right, p) {
            Turn::Left => Ordering::Greater,
            Turn::Straight => Ordering::Equal,
            Turn::Right => Ordering::Less,
        }
    }

    /// Which of two edges rises less.
    pub(crate) fn slope_order(&self, other: &Slanted) -> Ordering
        ensures { result ≡ slope_order_of
            self.now.left self.now.right other.now.left other.now.right }
    {
        let rises = product(self.rise(), other.run());
        let other_rises = product(other.rise(), self.run());
        rises.cmp(&other_rises)
    }

    /// How far the right end is from the left end.
    fn run(&self) -> i64
        ensures value { result ≡ self.now.right.x -ℤ self.now.left.x }
        ensures bound { unsigned_abs result ≤ difference_bound }
    {
        i64::from(self.right.x()) - i64::from(self.left.x())
    }

    /// How far the right end is above the left end.
    fn rise(&self) -> i64
        ensures value { result ≡ self.now.right.y -ℤ self.now.left.y }
        ensures bound { unsigned_abs result ≤ difference_bound }
    {
        i64::from(self.right.y()) - i64::from(self.left.y())
    }
}

/// The product of two differences of coordinates.
fn product(a: i64, b: i64) -> i64
    requires first_small { unsigned_abs a ≤ difference_bound }
    requires second_small { unsigned_abs b ≤ difference_bound }
    ensures { result ≡ a *ℤ b }
{
    a * b
}
