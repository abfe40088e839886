//! The faults that are found in a walk, cell by cell.

ghost use Rattle.std.specs.Prelude.{◌≡◌, ◌&&◌, ◌||◌, drop, false, length, nat_le, not, slice_index, sum};
ghost use Rattle.std.specs.List.{count_by, list_any, zip};
ghost use Rattle.sf_polygons.specs.Tests.{is_inside as is_inside_by, is_within as is_within_by};

use sf_pieces::CellSink;

/// What is wrong with how the rings of single polygons lie. In a walk the shell is group 0, and
/// each other group is of holes of which at most one has a point. Rings that share a piece are the
/// first fault of all, so once it is found the others are not looked for any more.
#[derive(Clone, Copy)]
pub(crate) struct RingFaults {
    /// Two rings share a piece.
    pub meet: bool,
    /// A point of a hole is outside the shell.
    pub outside: bool,
    /// A point is inside two holes.
    pub nested: bool,
}

/// What is wrong with how polygons lie to one another. In a walk each group is of polygons of
/// which at most one has a point. Once a shared piece is found, an overlap is not looked for any more.
#[derive(Clone, Copy)]
pub(crate) struct PolygonFaults {
    /// Two rings share a piece.
    pub meet: bool,
    /// A point is inside two polygons.
    pub overlap: bool,
}

impl CellSink for RingFaults {
    ghost use Rattle.sf_polygons.specs.declared.found.RingFaults.{RingFaults};
    ghost use Rattle.sf_polygons.specs.Found.{with_ring_cell};

    ghost Content = { RingFaults };

    ghost content = { λ found. found };

    ghost after = { with_ring_cell };

    fn cell(&mut self, dim: u8, on: &[u32], above: &[u32]) {
        if !self.meet {
            self.meet = is_shared(dim, on);
            self.outside = self.outside || is_outside(on, above);
            self.nested = self.nested || count_inside(on, above, 1) >= 2;
        }
    }

    fn is_full(&self) -> bool {
        self.meet
    }
}

impl CellSink for PolygonFaults {
    ghost use Rattle.sf_polygons.specs.declared.found.PolygonFaults.{PolygonFaults};
    ghost use Rattle.sf_polygons.specs.Found.{with_polygon_cell};

    ghost Content = { PolygonFaults };

    ghost content = { λ found. found };

    ghost after = { with_polygon_cell };

    fn cell(&mut self, dim: u8, on: &[u32], above: &[u32]) {
        if !self.meet {
            self.meet = is_shared(dim, on);
            self.overlap = self.overlap || count_inside(on, above, 0) >= 2;
        }
    }

    fn is_full(&self) -> bool {
        self.meet
    }
}

/// Whether a cell is more than a point, and two edges are on it.
fn is_shared(dim: u8, on: &[u32]) -> bool
    ensures { result ≡ (nat_le 1 dim && nat_le 2 (sum on.now)) }
{
    dim >= 1 && has_two(on)
}

/// Whether the counts are two or more together.
fn has_two(counts: &[u32]) -> bool
    ensures { result ≡ nat_le 2 (sum counts.now) }
{
    let mut total: u32 = 0;
    for count in counts {
        total = total.saturating_add(*count);
    }
    total >= 2
}

/// Whether a cell is on or inside a hole, and neither on nor inside the shell.
fn is_outside(on: &[u32], above: &[u32]) -> bool
    ensures { result ≡ (list_any is_within_by (drop 1 (zip on.now above.now))
        && not (is_within_by (slice_index on.now 0, slice_index above.now 0))) }
{
    is_within_hole(on, above) && !is_within(shell_count(on), shell_count(above))
}

/// Whether a cell is on or inside a hole.
fn is_within_hole(on: &[u32], above: &[u32]) -> bool
    ensures { result ≡ list_any is_within_by (drop 1 (zip on.now above.now)) }
{
    on.iter()
        .zip(above)
        .skip(1)
        .any(|(on, above)| is_within(*on, *above))
}

/// The count of the shell.
fn shell_count(counts: &[u32]) -> u32
    ensures { result ≡ slice_index counts.now 0 }
{
    counts.first().copied().unwrap_or(0)
}

/// Of how many groups from one on a cell is inside something.
fn count_inside(on: &[u32], above: &[u32], first: usize) -> usize
    ensures { result ≡ count_by is_inside_by (drop first (zip on.now above.now)) }
{
    on.iter()
        .zip(above)
        .skip(first)
        .filter(|(on, above)| is_inside(**on, **above))
        .count()
}

/// Whether a cell with these counts is inside something of their group.
fn is_inside(on: u32, above: u32) -> bool
    ensures { result ≡ is_inside_by (on, above) }
{
    on == 0 && above % 2 == 1
}

/// Whether a cell with these counts is on or inside something of their group.
fn is_within(on: u32, above: u32) -> bool
    ensures { result ≡ is_within_by (on, above) }
{
    on > 0 || above % 2 == 1
}
