//! Runs are left out along whose lines the other geometry has no run, as far as a table of marks shows it.

ghost use Rattle.std.specs.Prelude.{◌≡◌, IfOk};
ghost use Rattle.std.specs.List.{filter};
ghost use Rattle.sf_along.specs.Marks.{AreMarks, KeepPairs, is_marked, may_go as may_go_of, worth_sorting};

use crate::run::{PLACES, Run};
use std::alloc::{AllocError, Global};

/// How many runs are worth a table: fewer are sorted sooner than it is made.
const MANY_RUNS: usize = 256;

/// The runs but those whose lines have no mark of a run of the other geometry: none of that one goes along them. Of few
/// runs it is all.
pub(crate) fn without_lone(alloc: Global, runs: Vec<Run>) -> Result<Vec<Run>, AllocError>
    ensures kept { IfOk result (λ kept. kept.items ≡ worth_sorting runs.items) }
    ensures pairs { IfOk result (λ kept. KeepPairs runs.items kept.items) }
{
    if runs.len() < MANY_RUNS {
        return Ok(runs);
    }
    let of_first = marks(alloc, runs.as_slice(), true)?;
    let of_second = marks(alloc, runs.as_slice(), false)?;
    kept(
        alloc,
        runs.as_slice(),
        of_first.as_slice(),
        of_second.as_slice(),
    )
}

/// A table with a mark for each line of the runs of one geometry.
fn marks(alloc: Global, runs: &[Run], is_first: bool) -> Result<Vec<bool>, AllocError>
    ensures { IfOk result (λ marks. AreMarks marks.items is_first runs.now) }
{
    let mut marks = Vec::from_elem(alloc, false, PLACES)?;
    for run in runs {
        if run.is_first == is_first {
            marks[run.place()] = true;
        }
    }
    Ok(marks)
}

/// The runs whose lines have a mark of the other geometry's runs.
fn kept(
    alloc: Global,
    runs: &[Run],
    of_first: &[bool],
    of_second: &[bool],
) -> Result<Vec<Run>, AllocError>
    ensures { IfOk result (λ kept. kept.items ≡ filter (may_go_of of_first.now of_second.now) runs.now) }
{
    runs.iter()
        .filter(|run| may_go(run, of_first, of_second))
        .copied()
        .collect(alloc)
}

/// Whether the line of a run has a mark of the other geometry's runs.
fn may_go(run: &Run, of_first: &[bool], of_second: &[bool]) -> bool
    ensures { result ≡ may_go_of of_first.now of_second.now run.now }
{
    is_marked(if run.is_first { of_second } else { of_first }, run)
}

/// Whether the line of a run has a mark.
fn is_marked(marks: &[bool], run: &Run) -> bool
    ensures { result ≡ is_marked marks.now run.now }
{
    marks.get(run.place()).copied().unwrap_or(false)
}
