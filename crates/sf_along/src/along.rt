//! Whether two geometries have edges of which one runs along the other.

ghost use Rattle.std.specs.Prelude.{◌≡◌, ◌↔◌, IfOk, IsTrue};
ghost use Rattle.sf_along.specs.Along.{RunAlong};
ghost use Rattle.sf_along.specs.Near.{near_edges as near_edges_of};
ghost use Rattle.sf_along.specs.Runs.{AreInOrder, HavePair};

use crate::marks::without_lone;
use crate::run::{Run, all_runs};
use sf_edge_tree::edges_meeting;
use sf_geometry::Geometry;
use sf_grid::GridPoint;
use std::alloc::{AllocError, Global};

/// Whether an edge of one geometry runs along an edge of the other: whether they have two points in common.
///
/// # Errors
///
/// Out of memory alone.
pub fn run_along(alloc: Global, a: &Geometry, b: &Geometry) -> Result<bool, AllocError>
    ensures { IfOk result (λ told. IsTrue told ↔ RunAlong a.now b.now) }
{
    let first = near_edges(alloc, a, b)?;
    let second = near_edges(alloc, b, a)?;
    let near = all_runs(alloc, first.as_slice(), second.as_slice())?;
    let mut runs = without_lone(alloc, near)?;
    runs.sort_unstable_by_key(Run::key);
    Ok(have_pair(runs.as_slice()))
}

/// The edges of a geometry whose boxes share a point with the other one's box. None of the others runs along an edge of that one,
/// and of large geometries these are often nearly all.
fn near_edges(
    alloc: Global,
    geometry: &Geometry,
    other: &Geometry,
) -> Result<Vec<(GridPoint, GridPoint)>, AllocError>
    ensures { IfOk result (λ near. near.items ≡ near_edges_of geometry.now other.now) }
{
    match other.extent() {
        Some(extent) => edges_meeting(alloc, geometry, &extent),
        None => Ok(Vec::new(alloc)),
    }
}

/// Whether two of the runs, which are in order, go together.
fn have_pair(runs: &[Run]) -> bool
    requires { AreInOrder runs.now }
    ensures { IsTrue result ↔ HavePair runs.now }
{
    let mut left = runs;
    while let Some((run, behind)) = left.split_first() {
        if run.goes_with_one(behind) {
            return true;
        }
        left = behind;
    }
    false
}
