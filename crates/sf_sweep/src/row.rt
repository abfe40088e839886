//! Rows of parities: of each group, whether an odd number of its edges is above.

ghost use Rattle.std.specs.Prelude.{◌≡◌, ◌<◌, IfOk, length, replicate, false, slice_index_or, slice_set, take, []};

use std::alloc::{AllocError, Global};
use std::marker::Model;

/// A bit for each of some groups.
pub trait Row: Copy + Drop {
    ghost use Rattle.std.specs.Prelude.{◌≡◌, ◌↔◌, ◌<◌, ◌-◌, ◌++◌, ℕ, Bool, List, IsTrue, false, length, not, replicate, slice_index_or, slice_set, take};

    /// For how many groups it has a bit.
    ghost width: { ℕ };

    /// Its bits, by groups.
    ghost bits: { Self → List Bool };

    /// The first marks, as many as it has room for; the bits behind them are not set.
    fn of(marks: &[bool]) -> Self
        ensures { bits result ≡ take width marks.now ++ replicate (width - length marks.now) false };

    /// Its bits.
    fn as_slice(&self) -> &[bool]
        ensures bits { result.now ≡ bits self.now }
        ensures width { length (bits self.now) ≡ width };

    /// Turns the bit of a group.
    fn turn(&mut self, group: usize)
        requires { group < width }
        ensures { bits self.new ≡ slice_set (bits self.old) group (not (slice_index_or (bits self.old) group false)) };

    /// Whether two rows have the same bits.
    fn is_same(&self, other: &Self) -> bool
        ensures { IsTrue result ↔ (bits self.now ≡ bits other.now) };
}

/// A row of so many groups.
#[derive(Clone, Copy, Drop)]
pub struct Bits<const N: usize> {
    bits: [bool; N],
}

impl<const N: usize> Row for Bits<N> {
    ghost width = { N };

    ghost bits = { λ row. row.bits };

    fn of(marks: &[bool]) -> Bits<N> {
        let first = first_marks(marks, N);
        let mut bits = [false; N];
        bits.split_at_mut(first.len()).0.copy_from_slice(first);
        Bits { bits }
    }

    fn as_slice(&self) -> &[bool] {
        &self.bits
    }

    fn turn(&mut self, group: usize) {
        self.bits[group] = !self.bits[group];
    }

    fn is_same(&self, other: &Bits<N>) -> bool {
        self.bits == other.bits
    }
}

/// A row for each piece. Contracts see their bits.
#[derive(Drop)]
pub struct Rows<R: Row> {
    rows: Vec<R>,
}

impl<R: Row> Model for Rows<R> {
    ghost use Rattle.std.specs.Prelude.{Bool, List, map};

    ghost Value = { List (List Bool) };

    ghost view = { λ table. map R.bits table.rows.items };
}

impl<R: Row> Rows<R> {
    /// A row for each of so many pieces, with no bit set.
    pub fn new(alloc: Global, pieces: usize) -> Result<Rows<R>, AllocError>
        ensures len { IfOk result (λ table. length table ≡ pieces) }
        ensures unset { IfOk result (λ table. table ≡ replicate pieces (replicate R.width false)) }
    {
        let unset = R::of(&[]);
        let mut rows = Vec::with_capacity(alloc, pieces)?;
        for _ in 0..pieces {
            rows.push_reserved(unset);
        }
        Ok(Rows { rows })
    }

    /// The row of a piece.
    pub fn at(&self, piece: u32) -> &R
        requires { piece < length self.now }
        ensures { R.bits result.now ≡ slice_index_or self.now piece [] }
    {
        &self.rows[piece as usize]
    }

    /// Puts down the row of a piece.
    pub fn put(&mut self, piece: u32, row: R)
        requires { piece < length self.old }
        ensures table { self.new ≡ slice_set self.old piece (R.bits row) }
        ensures len { length self.new ≡ length self.old }
    {
        self.rows[piece as usize] = row;
    }
}

/// The first marks, at most so many.
fn first_marks(marks: &[bool], most: usize) -> &[bool]
    ensures { result.now ≡ take most marks.now }
{
    marks.get(..most).unwrap_or(marks)
}
