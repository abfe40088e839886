ghost use Rattle.std.specs.Prelude.{◌≡◌, int_le};
ghost use Rattle.std.specs.Int.{int_max, int_min};
ghost use Rattle.sf_geometry.specs.Envelope.{common_extent, extent_at, extent_with, extents_meet};

use sf_grid::GridPoint;

/// A closed box with sides along the axes, in grid steps.
#[derive(Clone, Copy, Debug, PartialEq, Eq)]
pub struct Extent {
    pub min_x: i32,
    pub min_y: i32,
    pub max_x: i32,
    pub max_y: i32,
}

impl Extent {
    /// The box of a point alone.
    pub fn at(point: GridPoint) -> Extent
        ensures { result ≡ extent_at point }
    {
        Extent {
            min_x: point.x(),
            min_y: point.y(),
            max_x: point.x(),
            max_y: point.y(),
        }
    }

    /// The least box that has a point beside those of this box.
    pub fn with(self, point: GridPoint) -> Extent
        ensures { result ≡ extent_with self point }
    {
        Extent {
            min_x: lesser(self.min_x, point.x()),
            min_y: lesser(self.min_y, point.y()),
            max_x: greater(self.max_x, point.x()),
            max_y: greater(self.max_y, point.y()),
        }
    }

    /// Whether the two closed boxes share a point.
    pub fn meets(self, other: Extent) -> bool
        ensures { result ≡ extents_meet self other }
    {
        self.meets_in_x(other) && self.meets_in_y(other)
    }

    /// The box that both have in common. Where they share no point, no other box shares one with it.
    pub fn common(self, other: Extent) -> Extent
        ensures { result ≡ common_extent self other }
    {
        Extent {
            min_x: greater(self.min_x, other.min_x),
            min_y: greater(self.min_y, other.min_y),
            max_x: lesser(self.max_x, other.max_x),
            max_y: lesser(self.max_y, other.max_y),
        }
    }

    /// Whether some x is in both.
    fn meets_in_x(self, other: Extent) -> bool
        ensures { result ≡ int_le (int_max self.min_x other.min_x) (int_min self.max_x other.max_x) }
    {
        do_ranges_meet(self.min_x, self.max_x, other.min_x, other.max_x)
    }

    /// Whether some y is in both.
    fn meets_in_y(self, other: Extent) -> bool
        ensures { result ≡ int_le (int_max self.min_y other.min_y) (int_min self.max_y other.max_y) }
    {
        do_ranges_meet(self.min_y, self.max_y, other.min_y, other.max_y)
    }
}

/// Whether a number is both from `a` to `b` and from `c` to `d`.
fn do_ranges_meet(a: i32, b: i32, c: i32, d: i32) -> bool
    ensures { result ≡ int_le (int_max a c) (int_min b d) }
{
    a.max(c) <= b.min(d)
}

fn lesser(a: i32, b: i32) -> i32
    ensures { result ≡ int_min a b }
{
    a.min(b)
}

fn greater(a: i32, b: i32) -> i32
    ensures { result ≡ int_max a b }
{
    a.max(b)
}
