//! The edges that go on to the right from a level of a column.

ghost use Rattle.std.specs.Prelude.{◌≡◌, ◌+◌, ◌≤◌, ◌++◌, length, vec_capacity, vec_len};
ghost use Rattle.sf_strips.specs.Levels.{HasStarts, IsOnward, going_past, most_onward};
ghost use Rattle.sf_strips.specs.Vertices.{begins, pieces_with};

use crate::active::Active;
use crate::vertex::{Role, Vertex};

/// Puts in place of what `found` has the edges that go on from a level: of those that come to it
/// the ones that don't end there, and those that begin there, by falling slope.
pub(crate) fn onward(edges: &[Active], vertices: &[Vertex], found: &mut Vec<Active>)
    requires { most_onward edges.now vertices.now ≤ vec_capacity found.old }
    ensures onward { IsOnward edges.now vertices.now found.new.items }
    ensures few { vec_len found.new ≤ most_onward edges.now vertices.now }
    ensures capacity { vec_capacity found.new ≡ vec_capacity found.old }
{
    found.clear();
    push_going(edges, vertices, found);
    push_starts(vertices, found);
    if found.len() > 1 {
        found.sort_unstable_by(|a, b| b.edge.slope_order(&a.edge));
    }
}

/// Pushes the edges that go on past the column of the vertices.
fn push_going(edges: &[Active], vertices: &[Vertex], found: &mut Vec<Active>)
    requires room { vec_len found.old + length edges.now ≤ vec_capacity found.old }
    ensures items { found.new.items ≡ found.old.items ++ going_past vertices.now edges.now }
    ensures few { vec_len found.new ≤ vec_len found.old + length edges.now }
    ensures capacity { vec_capacity found.new ≡ vec_capacity found.old }
{
    for edge in edges {
        if edge.goes_past(vertices) {
            found.push_reserved(*edge);
        }
    }
}

/// Pushes the edges that begin at vertices.
fn push_starts(vertices: &[Vertex], found: &mut Vec<Active>)
    requires { vec_len found.old + length (pieces_with begins vertices.now) ≤ vec_capacity found.old }
    ensures starts { HasStarts vertices.now found.old.items found.new.items }
    ensures few { vec_len found.new ≤ vec_len found.old + length (pieces_with begins vertices.now) }
    ensures capacity { vec_capacity found.new ≡ vec_capacity found.old }
{
    for vertex in vertices {
        if let Role::Begin(edge) = vertex.role {
            found.push_reserved(Active {
                edge,
                piece: vertex.piece,
            });
        }
    }
}
