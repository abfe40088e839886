//! The vertices of a line or ring in order by x and then y.

ghost use Rattle.std.specs.Prelude.{IfOk, IsTrue, List};
ghost use Rattle.std.specs.List.Sorted.{IsPermutation};
ghost use Rattle.sf_first_meeting.specs.declared.vertices.Vertex.{Vertex};
ghost use Rattle.sf_first_meeting.specs.Tables.{Ascend, IsCount, IsNumbering, LieOnGrid};

use sf_grid::GridPoint;
use sf_grid::edges::comes_before;
use std::alloc::{AllocError, Global};
use std::cmp::Ordering;

/// A point of a list, and its number.
#[derive(Clone, Copy)]
pub(crate) struct Vertex {
    pub at: GridPoint,
    pub number: usize,
}

impl Vertex {
    /// By x and then y.
    fn order(&self, other: &Vertex) -> Ordering {
        self.at
            .x()
            .cmp(&other.at.x())
            .then(self.at.y().cmp(&other.at.y()))
    }
}

/// The vertices of a line or ring; of a closed list the last point is the first one.
pub(crate) fn vertices(alloc: Global, points: &[GridPoint]) -> Result<Vec<Vertex>, AllocError>
    ensures { IfOk result (λ found. (all : List Vertex) × IsNumbering points.now all × IsPermutation all found.items) }
{
    let mut found = numbered(alloc, points, own_len(points))?;
    found.sort_unstable_by(|vertex, other| vertex.order(other));
    Ok(found)
}

/// How many vertices there are.
fn own_len(points: &[GridPoint]) -> usize
    ensures { IsCount points.now result }
{
    let count = points.len();
    if count < 2 {
        return count;
    }
    if points[0] == points[count - 1] {
        count - 1
    } else {
        count
    }
}

/// So many points from the first one on, each with its number.
fn numbered(alloc: Global, points: &[GridPoint], count: usize) -> Result<Vec<Vertex>, AllocError>
    requires { IsCount points.now count }
    ensures { IfOk result (λ found. IsNumbering points.now found.items) }
{
    let mut found = Vec::with_capacity(alloc, count)?;
    for number in 0..count {
        found.push(Vertex {
            at: points[number],
            number,
        })?;
    }
    Ok(found)
}

/// Whether each vertex comes before the next one, so that no two are at one point.
pub(crate) fn do_ascend(vertices: &[Vertex]) -> bool
    ensures { IsTrue result → Ascend vertices.now }
{
    for next in 1..vertices.len() {
        if !comes_before(vertices[next - 1].at, vertices[next].at) {
            return false;
        }
    }
    true
}

/// Shows a proof that each point is on the grid. It reads the points and does nothing with them, so a
/// compiler may leave it out.
pub(crate) fn lie_on_grid(points: &[GridPoint])
    ensures { LieOnGrid points.now }
{
    for number in 0..points.len() {
        points[number].x();
    }
}
