//! Whether each edge of one geometry lies in an edge of another, found by sorting the edges of both.

ghost use Rattle.std.specs.Prelude.{◌≡◌, ◌⊎◌, [], IfOk, Some};
ghost use Rattle.std.specs.List.{AllByRecursion};
ghost use Rattle.sf_along.specs.Covers.{AreCovered, IsEnd, IsLeft, LieAlong, is_in};

use crate::run::{Run, all_runs};
use sf_geometry::Geometry;
use sf_grid::GridPoint;
use std::alloc::{AllocError, Global};

/// An end of each edge of `a` along which no edge of `b` was found that has all of it. Where there is none, each edge of `a` lies
/// in an edge of `b`.
///
/// # Errors
///
/// Out of memory alone.
pub fn uncovered_ends(
    alloc: Global,
    a: &Geometry,
    b: &Geometry,
) -> Result<Vec<GridPoint>, AllocError>
    ensures covered { IfOk result (λ ends. ends.items ≡ [] → LieAlong a.now b.now) }
    ensures ends { IfOk result (λ ends. AllByRecursion (IsEnd a.now) ends.items) }
{
    let first = a.edges(alloc)?;
    let second = b.edges(alloc)?;
    let mut runs = all_runs(alloc, first.as_slice(), second.as_slice())?;
    runs.sort_unstable_by_key(Run::key_behind_second);
    uncovered_lefts(alloc, runs.as_slice())
}

/// The earlier end of each run of the first geometry that isn't in that run of the second one which, of all that began before it on its
/// line, ends last.
fn uncovered_lefts(alloc: Global, runs: &[Run]) -> Result<Vec<GridPoint>, AllocError>
    ensures covered { IfOk result (λ ends. ends.items ≡ [] → AreCovered runs.now runs.now) }
    ensures ends { IfOk result (λ ends. AllByRecursion (IsLeft runs.now) ends.items) }
{
    let mut ends = Vec::new(alloc);
    let mut last: Option<Run> = None;
    for run in runs {
        if !run.is_first {
            last = Some(ending_last(&last, run));
        } else if !is_in(run, &last) {
            ends.push(run.left)?;
        }
    }
    Ok(ends)
}

/// The one of two runs that ends last, where both have one line; else the second one.
fn ending_last(last: &Option<Run>, run: &Run) -> Run
    ensures { (result ≡ run.now) ⊎ (last.now ≡ Some result) }
{
    match last {
        Some(other) if other.ends_behind(run) => *other,
        _ => *run,
    }
}

/// Whether there is another run that has all of this one.
fn is_in(run: &Run, other: &Option<Run>) -> bool
    ensures { result ≡ is_in other.now run.now }
{
    match other {
        Some(other) => other.has(run),
        None => false,
    }
}
