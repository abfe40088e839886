//! Counts of pieces by groups.

ghost use Rattle.std.specs.Prelude.{◌≡◌, ◌<◌, ◌+◌, ◌-◌, ◌^◌, ◌++◌, [], ◌∷◌, length, slice_index};
ghost use Rattle.std.specs.List.{All};
ghost use Rattle.sf_strips.specs.Fronts.{pieces_of};
ghost use Rattle.sf_cells.specs.Groups.{counts, group_count};
ghost use Rattle.sf_cells.specs.Hands.{AtMost, minus, plus};
ghost use Rattle.sf_strips.specs.Vertices.{enters as enters_of, leaves as leaves_of, pieces_with};

use sf_strips::{Active, Vertex};

/// Adds the pieces that a level has and the gap above it hasn't.
pub(crate) fn enter_level(tally: &mut [u32], groups: &[u32], edges: &[Active], vertices: &[Vertex])
    requires edges { All (λ e. e.piece < length groups.now) edges.now }
    requires vertices { All (λ v. v.piece < length groups.now) vertices.now }
    requires counted { length tally.old ≡ group_count groups.now }
    requires room { All (λ n. n + (length edges.now + length vertices.now) < 2 ^ 32) tally.old }
    ensures { tally.new ≡ plus tally.old
        (counts groups.now (pieces_of edges.now ++ pieces_with enters_of vertices.now)) }
{
    add_edges(tally, groups, edges);
    add_entering(tally, groups, vertices);
}

/// Takes off the pieces that a level has and the gap below it hasn't.
pub(crate) fn leave_level(tally: &mut [u32], groups: &[u32], edges: &[Active], vertices: &[Vertex])
    requires edges { All (λ e. e.piece < length groups.now) edges.now }
    requires vertices { All (λ v. v.piece < length groups.now) vertices.now }
    requires counted { length tally.old ≡ group_count groups.now }
    requires there { AtMost (counts groups.now (pieces_of edges.now ++ pieces_with leaves_of vertices.now))
        tally.old }
    ensures { tally.new ≡ minus tally.old
        (counts groups.now (pieces_of edges.now ++ pieces_with leaves_of vertices.now)) }
{
    take_edges(tally, groups, edges);
    take_leaving(tally, groups, vertices);
}

/// Adds the edges' pieces.
pub fn add_edges(tally: &mut [u32], groups: &[u32], edges: &[Active])
    requires edges { All (λ e. e.piece < length groups.now) edges.now }
    requires counted { length tally.old ≡ group_count groups.now }
    requires room { All (λ n. n + length edges.now < 2 ^ 32) tally.old }
    ensures { tally.new ≡ plus tally.old (counts groups.now (pieces_of edges.now)) }
{
    for edge in edges {
        add_piece(tally, groups, edge.piece);
    }
}

/// Takes off the edges' pieces.
pub fn take_edges(tally: &mut [u32], groups: &[u32], edges: &[Active])
    requires edges { All (λ e. e.piece < length groups.now) edges.now }
    requires counted { length tally.old ≡ group_count groups.now }
    requires there { AtMost (counts groups.now (pieces_of edges.now)) tally.old }
    ensures { tally.new ≡ minus tally.old (counts groups.now (pieces_of edges.now)) }
{
    for edge in edges {
        take_piece(tally, groups, edge.piece);
    }
}

/// Takes off the edges' pieces where the tally has no others: in as many steps as there are edges or
/// groups, whichever are fewer.
pub(crate) fn clear_edges(tally: &mut Vec<u32>, groups: &[u32], edges: &[Active])
    requires edges { All (λ e. e.piece < length groups.now) edges.now }
    requires counted { tally.old.items ≡ counts groups.now (pieces_of edges.now) }
    ensures { tally.new.items ≡ counts groups.now [] }
{
    if tally.len() <= edges.len() {
        tally.fill(0);
    } else {
        take_edges(tally, groups, edges);
    }
}

/// Adds the pieces of the vertices that bring their piece to the level.
fn add_entering(tally: &mut [u32], groups: &[u32], vertices: &[Vertex])
    requires vertices { All (λ v. v.piece < length groups.now) vertices.now }
    requires counted { length tally.old ≡ group_count groups.now }
    requires room { All (λ n. n + length vertices.now < 2 ^ 32) tally.old }
    ensures { tally.new ≡ plus tally.old (counts groups.now (pieces_with enters_of vertices.now)) }
{
    for vertex in vertices {
        if vertex.role.enters() {
            add_piece(tally, groups, vertex.piece);
        }
    }
}

/// Takes off the pieces of the vertices that end their piece at the level.
fn take_leaving(tally: &mut [u32], groups: &[u32], vertices: &[Vertex])
    requires vertices { All (λ v. v.piece < length groups.now) vertices.now }
    requires counted { length tally.old ≡ group_count groups.now }
    requires there { AtMost (counts groups.now (pieces_with leaves_of vertices.now)) tally.old }
    ensures { tally.new ≡ minus tally.old (counts groups.now (pieces_with leaves_of vertices.now)) }
{
    for vertex in vertices {
        if vertex.role.leaves() {
            take_piece(tally, groups, vertex.piece);
        }
    }
}

/// How many pieces a piece's group has.
pub(crate) fn count_of(tally: &[u32], groups: &[u32], piece: u32) -> u32
    requires grouped { piece < length groups.now }
    requires counted { length tally.now ≡ group_count groups.now }
    ensures { result ≡ slice_index tally.now (slice_index groups.now piece) }
{
    tally[groups[piece as usize] as usize]
}

/// One piece less of its group, which has `left` of them then. Nothing waits for the count that the
/// tally has.
pub(crate) fn put_back(tally: &mut [u32], groups: &[u32], piece: u32, left: u32)
    requires grouped { piece < length groups.now }
    requires counted { length tally.old ≡ group_count groups.now }
    requires left { slice_index tally.old (slice_index groups.now piece) ≡ left + 1 }
    ensures { tally.new ≡ minus tally.old (counts groups.now (piece ∷ [])) }
{
    let group = groups[piece as usize] as usize;
    tally[group] = left;
}

/// One more piece of its group.
pub(crate) fn add_piece(tally: &mut [u32], groups: &[u32], piece: u32)
    requires grouped { piece < length groups.now }
    requires counted { length tally.old ≡ group_count groups.now }
    requires room { All (λ n. n + 1 < 2 ^ 32) tally.old }
    ensures { tally.new ≡ plus tally.old (counts groups.now (piece ∷ [])) }
{
    let group = groups[piece as usize] as usize;
    tally[group] += 1;
}

/// One piece less of its group.
fn take_piece(tally: &mut [u32], groups: &[u32], piece: u32)
    requires grouped { piece < length groups.now }
    requires counted { length tally.old ≡ group_count groups.now }
    requires there { AtMost (counts groups.now (piece ∷ [])) tally.old }
    ensures { tally.new ≡ minus tally.old (counts groups.now (piece ∷ [])) }
{
    let group = groups[piece as usize] as usize;
    tally[group] -= 1;
}
