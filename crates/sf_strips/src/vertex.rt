//! The grid points of the pieces, at which things begin and end.

ghost use Rattle.sf_strips.specs.Pieces.{pieces_max};
ghost use Rattle.std.specs.Prelude.{◌≡◌, ◌+◌, ◌*◌, ◌≤◌, [], ◌∷◌, ◌++◌, IfOk, length, vec_capacity, vec_len};
ghost use Rattle.std.specs.List.Sorted.{IsPermutation, IsSortedBy};
ghost use Rattle.std.specs.Ordering.{is_lt};
ghost use Rattle.sf_strips.specs.declared.piece.Piece.TheVariants.{Edge};
ghost use Rattle.sf_strips.specs.Vertices.{all_vertices, enters as enters_of, in_column, leaves as leaves_of, vertex_before, vertices_of};

use crate::Piece;
use crate::slanted::Slanted;
use sf_grid::{Frac, FracPoint, GridPoint};
use std::alloc::{AllocError, Global};
use std::cmp::Ordering;

/// What is at a vertex.
#[derive(Clone, Copy)]
pub enum Role {
    /// The left end of this edge.
    Begin(Slanted),
    /// The right end of an edge that isn't vertical.
    End,
    /// The upper end of a vertical edge.
    Top,
    /// The lower end of a vertical edge.
    Bottom,
    /// A dot.
    Dot,
}

/// An end of an edge, or a dot.
#[derive(Clone, Copy)]
pub struct Vertex {
    pub at: GridPoint,
    pub role: Role,
    pub piece: u32,
}

impl Role {
    /// Whether the piece is on a level from here on: it wasn't on the gap above.
    pub fn enters(&self) -> bool
        ensures { result ≡ enters_of self.now }
    {
        matches!(self, Role::Begin(_) | Role::Top | Role::Dot)
    }

    /// Whether the piece is on a level and not on the gap below.
    pub fn leaves(&self) -> bool
        ensures { result ≡ leaves_of self.now }
    {
        matches!(self, Role::Begin(_) | Role::Bottom | Role::Dot)
    }
}

impl Vertex {
    /// Whether it is in the column `x`.
    pub fn is_in(&self, x: &Frac) -> bool
        ensures { result ≡ in_column x.now self.now }
    {
        FracPoint::of(self.at).x().is_same(x)
    }

    /// Columns from the left, each from the top.
    fn order(&self, other: &Vertex) -> Ordering
        ensures { is_lt result ≡ vertex_before self.now other.now }
    {
        self.at
            .x()
            .cmp(&other.at.x())
            .then(other.at.y().cmp(&self.at.y()))
    }
}

/// The vertices of the pieces, columns from the left, each from the top.
pub fn vertices(alloc: Global, pieces: &[Piece]) -> Result<Vec<Vertex>, AllocError>
    requires few { length pieces.now ≤ pieces_max }
    ensures all { IfOk result (λ found. IsPermutation (all_vertices 0 pieces.now) found.items) }
    ensures in_order { IfOk result (λ found. IsSortedBy vertex_before found.items) }
{
    let mut found = Vec::with_capacity(alloc, 2 * pieces.len())?;
    push_all(&mut found, pieces);
    found.sort_unstable_by(|u, v| u.order(v));
    Ok(found)
}

/// The vertices of the pieces, in the order of the pieces.
fn push_all(found: &mut Vec<Vertex>, pieces: &[Piece])
    requires few { length pieces.now ≤ pieces_max }
    requires room { vec_len found.old + 2 * length pieces.now ≤ vec_capacity found.old }
    ensures { found.new.items ≡ found.old.items ++ all_vertices 0 pieces.now }
{
    let mut number = 0;
    for piece in pieces {
        push_ends(found, number, piece);
        number += 1;
    }
}

/// The vertices of one piece.
fn push_ends(found: &mut Vec<Vertex>, number: u32, piece: &Piece)
    requires room { vec_len found.old + 2 ≤ vec_capacity found.old }
    ensures items { found.new.items ≡ found.old.items ++ vertices_of number piece.now }
    ensures len { vec_len found.new ≤ vec_len found.old + 2 }
    ensures capacity { vec_capacity found.new ≡ vec_capacity found.old }
{
    match *piece {
        Piece::Edge(a, b) => {
            let (first, second) = ends(number, a, b);
            found.push_reserved(first);
            found.push_reserved(second);
        }
        Piece::Dot(at) => found.push_reserved(Vertex {
            at,
            role: Role::Dot,
            piece: number,
        }),
    }
}

/// The two ends of an edge.
fn ends(piece: u32, a: GridPoint, b: GridPoint) -> (Vertex, Vertex)
    ensures { result.0 ∷ result.1 ∷ [] ≡ vertices_of piece (Edge a b) }
{
    let vertex = |at, role| Vertex { at, role, piece };
    match Slanted::between(a, b) {
        Some(edge) => (
            vertex(edge.left(), Role::Begin(edge)),
            vertex(edge.right(), Role::End),
        ),
        None if a.y() < b.y() => (vertex(b, Role::Top), vertex(a, Role::Bottom)),
        None => (vertex(a, Role::Top), vertex(b, Role::Bottom)),
    }
}
