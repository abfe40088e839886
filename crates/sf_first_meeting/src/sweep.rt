//! The sweep over the vertices.

ghost use Rattle.std.specs.Prelude.{◌≡◌, ◌+◌, ◌<◌, IfOk, None, length};
ghost use Rattle.std.specs.List.{All};
ghost use Rattle.sf_first_meeting.specs.Numbered.{AllAreApart, HasLengths};
ghost use Rattle.sf_first_meeting.specs.Tables.{IsTable, Moves};

use crate::doubt::Doubt;
use crate::doubts::doubt_of_repeated;
use crate::passing::{found_at, replace};
use crate::vertices::{Vertex, do_ascend, lie_on_grid, vertices};
use sf_grid::GridPoint;
use std::alloc::{AllocError, Global};

/// Looks for the first meeting of two edges of a line or ring, of which no two neighbouring points are
/// equal. None: any two of its edges share no point but their common vertex as neighbours. Else it
/// says what it met with, and the caller has to look. It fails only where memory is wanting.
pub fn first_meeting(alloc: Global, points: &[GridPoint]) -> Result<Option<Doubt>, AllocError>
    requires { HasLengths points.now }
    ensures { IfOk result (λ doubt. doubt ≡ None → AllAreApart points.now) }
{
    lie_on_grid(points);
    let vertices = vertices(alloc, points)?;
    if do_ascend(vertices.as_slice()) {
        sweep(alloc, points, vertices.as_slice())
    } else {
        Ok(Some(doubt_of_repeated(vertices.as_slice())))
    }
}

/// The sweep over the vertices in order.
fn sweep(
    alloc: Global,
    points: &[GridPoint],
    vertices: &[Vertex],
) -> Result<Option<Doubt>, AllocError>
    requires { IsTable points.now vertices.now }
    ensures { IfOk result (λ doubt. doubt ≡ None → AllAreApart points.now) }
{
    let mut active = Vec::with_capacity(alloc, points.len())?;
    for vertex in vertices {
        if let Some(doubt) = pass(points, &mut active, vertex.number)? {
            return Ok(Some(doubt));
        }
    }
    Ok(None)
}

/// Passes one vertex; None where nothing stands against it.
fn pass(
    points: &[GridPoint],
    active: &mut Vec<usize>,
    vertex: usize,
) -> Result<Option<Doubt>, AllocError>
    requires lengths { HasLengths points.now }
    requires in_range { vertex < length points.now }
    requires edges { All (λ e. e + 1 < length points.now) active.old.items }
    ensures { IfOk result (λ doubt. doubt ≡ None → Moves points.now active.old.items vertex active.new.items) }
{
    match found_at(points, active.as_slice(), vertex) {
        Ok((from, spot)) => {
            replace(active, from, &spot)?;
            Ok(None)
        }
        Err(doubt) => Ok(Some(doubt)),
    }
}
