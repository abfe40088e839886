//! What is known of the matrix of two geometries, from the cells of their pieces.

ghost use Rattle.std.specs.Prelude.{◌≡◌, ◌<◌, slice_index};
ghost use Rattle.sf_plane.specs.Unions.{dim_of as dim_of_number};
ghost use Rattle.sf_relate.specs.Places.{begun, entry_place, found_by, gathered_by, place_by};

use super::grouping::{FIRST, FIRST_ENDS, SECOND, SECOND_ENDS};
use super::place::Place;
use super::shape::Shape;
use sf_known::{Aim, Known};
use sf_pieces::CellSink;
use sf_plane::Dim;

/// What is known of the matrix of geometries of two shapes, raised by each cell until it is enough.
#[derive(Drop)]
pub struct KnownSink {
    pub(crate) first: Shape,
    pub(crate) second: Shape,
    /// What is to be found out.
    pub(crate) aim: Aim,
    /// What is known so far.
    pub(crate) known: Known,
    /// Whether that is enough, so that no further cell is looked at.
    pub(crate) full: bool,
}

impl KnownSink {
    /// One that was handed no cell yet.
    pub fn new(first: Shape, second: Shape, aim: Aim, known: Known) -> KnownSink
        ensures { gathered_by result ≡ begun first second aim known }
    {
        KnownSink {
            first,
            second,
            aim,
            known,
            full: false,
        }
    }

    /// What is known once all cells were handed out, or as many as were enough.
    pub fn found(&self) -> Known
        ensures { result ≡ found_by (gathered_by self.now) }
    {
        if self.full {
            self.known
        } else {
            self.known.settled()
        }
    }
}

impl CellSink for KnownSink {
    ghost use Rattle.sf_relate.specs.Places.{Gathered, with_cell};

    ghost Content = { Gathered };

    ghost content = { gathered_by };

    ghost after = { with_cell };

    fn cell(&mut self, dim: u8, on: &[u32], above: &[u32]) {
        if self.full {
            return;
        }
        let entry = entry_of_cell(self.first, self.second, on, above);
        let rose = self.known.raise(entry, dim_of(dim));
        self.full = rose && self.known.is_enough(&self.aim);
    }

    fn is_full(&self) -> bool {
        self.full
    }
}

/// Which of the nine entries is that of a cell, by the counts on it and above it.
fn entry_of_cell(first: Shape, second: Shape, on: &[u32], above: &[u32]) -> usize
    ensures value { result ≡ entry_place
        (place_by first (slice_index on.now 0) (slice_index on.now 2) (slice_index above.now 0))
        (place_by second (slice_index on.now 1) (slice_index on.now 3) (slice_index above.now 1)) }
    ensures bound { result < 9 }
{
    let first = Place::by_counts(
        first,
        count_in(on, FIRST),
        count_in(on, FIRST_ENDS),
        count_in(above, FIRST),
    );
    let second = Place::by_counts(
        second,
        count_in(on, SECOND),
        count_in(on, SECOND_ENDS),
        count_in(above, SECOND),
    );
    3 * first.row() + second.row()
}

/// The count of a group, 0 where no piece is of the group.
fn count_in(counts: &[u32], group: u32) -> u32
    ensures { result ≡ slice_index counts.now group }
{
    counts.get(group as usize).copied().unwrap_or(0)
}

/// A number as a dimension.
fn dim_of(dim: u8) -> Dim
    ensures { result ≡ dim_of_number dim }
{
    match dim {
        0 => Dim::Zero,
        1 => Dim::One,
        _ => Dim::Two,
    }
}
