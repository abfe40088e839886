//! The edges of lines and rings with the numbers at which they are written.

ghost use Rattle.std.specs.Prelude.{◌≡◌, IfOk, map};
ghost use Rattle.sf_faults.specs.Orders.{written_edges};
ghost use Rattle.sf_faults.specs.Written.{written};

use crate::written_edge::WrittenEdge;
use sf_grid::GridPoint;
use std::alloc::{AllocError, Global};

/// The edges of a line or ring, in order. A point that is repeated at once has none.
pub(crate) fn edges_of(alloc: Global, points: &[GridPoint]) -> Result<Vec<WrittenEdge>, AllocError>
    ensures { IfOk result (λ edges. map written edges.items ≡ written_edges points.now) }
{
    let mut edges = Vec::new(alloc);
    let Some((first, others)) = points.split_first() else {
        return Ok(edges);
    };
    let mut from = *first;
    for (number, to) in others.iter().enumerate() {
        if from != *to {
            edges.push(WrittenEdge {
                number,
                from,
                to: *to,
            })?;
        }
        from = *to;
    }
    Ok(edges)
}
