//! The cells as they are handed out, put down where there is room for all of them.

ghost use Rattle.std.specs.Prelude.{◌≡◌, ◌≤◌, [], length, vec_capacity, IfOk};
ghost use Rattle.std.specs.List.{count_by, fold};
ghost use Rattle.sf_cells.specs.Listing.{Listing, Measured, counted, is_counted, listing_of, measure, measured_by, record_item, recorded_cells, total, with_head, with_number};

use crate::cell::{Cell, PieceNumbers};
use crate::sink::CellSink;
use std::alloc::{AllocError, Global};

/// How many cells there are, and how many numbers are on or above them in all; the greatest number
/// where that is passed.
#[derive(Drop)]
pub struct Measure {
    pub cells: usize,
    pub numbers: usize,
}

impl CellSink for Measure {
    ghost Content = { Measured };

    ghost content = { measured_by };

    ghost after = { measure };

    fn cell(&mut self, dim: u8, on: &[u32], above: &[u32]) {
        self.cells = self.cells.saturating_add(1);
        self.numbers = self
            .numbers
            .saturating_add(counted_len(on))
            .saturating_add(counted_len(above));
    }

    fn is_full(&self) -> bool {
        false
    }
}

/// How many groups have a count.
fn counted_len(counts: &[u32]) -> usize
    ensures { result ≡ count_by is_counted counts.now }
{
    counts.iter().filter(|count| **count > 0).count()
}

/// A cell without its numbers: its dimension, and how many are on and above it.
#[derive(Clone, Copy)]
pub struct Head {
    pub dim: u8,
    pub on: usize,
    pub above: usize,
}

/// The heads of the cells, and the numbers of all of them one after another: of each cell those on
/// it and then those above it. What there is no room for isn't put down, so whoever makes a recorder
/// measures the room first.
#[derive(Drop)]
pub struct Recorder {
    pub heads: Vec<Head>,
    pub numbers: Vec<u32>,
}

impl Recorder {
    /// Room for so many cells and numbers.
    pub fn new(alloc: Global, cells: usize, numbers: usize) -> Result<Recorder, AllocError>
        ensures heads { IfOk result (λ r. r.heads.items ≡ []) }
        ensures numbers { IfOk result (λ r. r.numbers.items ≡ []) }
        ensures head_room { IfOk result (λ r. vec_capacity r.heads ≡ cells) }
        ensures number_room { IfOk result (λ r. vec_capacity r.numbers ≡ numbers) }
    {
        Ok(Recorder {
            heads: Vec::with_capacity(alloc, cells)?,
            numbers: Vec::with_capacity(alloc, numbers)?,
        })
    }

    /// Puts down the groups that have a count.
    fn push_counted(&mut self, counts: &[u32])
        ensures { listing_of self.new ≡ fold with_number (listing_of self.old) (counted counts.now) }
    {
        for (number, count) in counts.iter().enumerate() {
            if *count > 0 {
                self.push_number(number);
            }
        }
    }

    /// Puts down a number, where there is room for it.
    fn push_number(&mut self, number: usize)
        ensures { listing_of self.new ≡ with_number (listing_of self.old) number }
    {
        if number <= u32::MAX as usize && self.numbers.len() < self.numbers.capacity() {
            self.numbers.push_reserved(number as u32);
        }
    }

    /// Puts down a head, where there is room for it.
    fn push_head(&mut self, head: Head)
        ensures { listing_of self.new ≡ with_head (listing_of self.old) head }
    {
        if self.heads.len() < self.heads.capacity() {
            self.heads.push_reserved(head);
        }
    }
}

impl CellSink for Recorder {
    ghost Content = { Listing };

    ghost content = { listing_of };

    ghost after = { record_item };

    fn cell(&mut self, dim: u8, on: &[u32], above: &[u32]) {
        self.push_counted(on);
        self.push_counted(above);
        self.push_head(Head {
            dim,
            on: counted_len(on),
            above: counted_len(above),
        });
    }

    fn is_full(&self) -> bool {
        false
    }
}

/// The cells of the heads and their numbers.
pub fn recorded(alloc: Global, heads: &[Head], numbers: &[u32]) -> Result<Vec<Cell>, AllocError>
    requires { total heads.now ≤ length numbers.now }
    ensures { IfOk result (λ found. found.items ≡ recorded_cells heads.now numbers.now) }
{
    let mut cells = Vec::with_capacity(alloc, heads.len())?;
    let mut left = numbers;
    for head in heads {
        let (on, later) = left.split_at(head.on);
        let (above, rest) = later.split_at(head.above);
        cells.push_reserved(Cell {
            dim: head.dim,
            on: PieceNumbers::from_vec(on.to_vec(alloc)?),
            above: PieceNumbers::from_vec(above.to_vec(alloc)?),
        });
        left = rest;
    }
    Ok(cells)
}
