//! The sweep over the columns of a list of pieces, from the left.

ghost use Rattle.sf_strips.specs.Pieces.{pieces_max, vertices_max};
ghost use Rattle.std.specs.Prelude.{◌≡◌, ℕ, ◌≤◌, ◌<◌, List, [], None, Some, length, map, IfOk, OnErr, OnOk};
ghost use Rattle.std.specs.List.{All, fold, prefix_len};
ghost use Rattle.std.specs.List.Sorted.{IsPermutation, IsSortedBy};
ghost use Rattle.sf_grid.specs.Fraction.{Fraction};
ghost use Rattle.sf_strips.specs.declared.piece.Piece.{Piece};
ghost use Rattle.sf_cells.specs.Cells.{cells};
ghost use Rattle.sf_strips.specs.Fronts.{AreApart};
ghost use Rattle.sf_cells.specs.Groups.{group_count as group_count_of, item_of};
ghost use Rattle.sf_strips.specs.Next.{first_place as first_place_of};
ghost use Rattle.sf_cells.specs.Pieces.{HasLength};
ghost use Rattle.sf_cells.specs.Samples.{listed, unlisted};
ghost use Rattle.sf_slabs.specs.Sweeps.{IsColumnOf, IsComing, IsFront, cells_in};
ghost use Rattle.sf_strips.specs.Vertices.{all_vertices, in_column, vertex_before};
ghost use Rattle.sf_slabs.specs.Walks.{IsReady, IsSlabOf};

use sf_cells::{CellSink, Column, Tallies, hand_out};
use sf_grid::{Frac, GridPoint};
use sf_strips::{Active, Contact, Cut, Piece, Strip, Vertex, next_column, vertices};
use std::alloc::{AllocError, Global};
use std::mem::swap;

/// The edges right of the last column, from the top, what each does with the next one, and the room
/// that the sweep works in.
#[derive(Drop)]
pub(crate) struct Sweep {
    pub order: Vec<Active>,
    pub contacts: Vec<Contact>,
    pub cut: Cut,
    pub tallies: Tallies,
}

impl Sweep {
    /// Hands out the cells of the column `x`, and goes on to the edges right of it.
    fn column<S: CellSink>(
        &mut self,
        x: &Frac,
        pieces: &[Piece],
        groups: &[u32],
        vertices: &[Vertex],
        sink: &mut S,
    )
        requires ready { IsReady pieces.now groups.now (length vertices.now) self.old }
        requires few { length pieces.now ≤ pieces_max }
        requires few_vertices { length vertices.now ≤ vertices_max }
        requires one_group_each { length groups.now ≡ length pieces.now }
        requires coming { IsComing pieces.now x.now (Some x.now)
            self.old.order.items self.old.contacts.items }
        requires apart { AreApart x.now self.old.order.items self.old.contacts.items }
        requires vertices { IsColumnOf pieces.now x.now vertices.now }
        ensures ready { (n : ℕ) → IsReady pieces.now groups.now n self.old
            → IsReady pieces.now groups.now n self.new }
        ensures front { IsFront pieces.now x.now self.new.order.items self.new.contacts.items }
        ensures handed { S.content sink.new ≡ fold S.after (S.content sink.old)
            (map (item_of groups.now) (cells_in pieces.now (listed x.now))) }
    {
        self.cut.column(x, self.order.as_slice(), self.contacts.as_slice(), vertices);
        let column = Column {
            edges: self.order.as_slice(),
            vertices,
            onward: self.cut.order.as_slice(),
            parts: self.cut.parts.as_slice(),
        };
        hand_out(sink, &Strip::Column(*x), groups, &mut self.tallies, &column);
        swap(&mut self.order, &mut self.cut.order);
        swap(&mut self.contacts, &mut self.cut.contacts);
    }

    /// Hands out the cells of the slab right of the last column.
    fn slab<S: CellSink>(&mut self, pieces: &[Piece], groups: &[u32], sink: &mut S)
        requires ready { IsReady pieces.now groups.now 0 self.old }
        requires few { length pieces.now ≤ pieces_max }
        requires one_group_each { length groups.now ≡ length pieces.now }
        requires slab { IsSlabOf pieces.now self.old.order.items self.old.contacts.items }
        ensures ready { (n : ℕ) → IsReady pieces.now groups.now n self.old
            → IsReady pieces.now groups.now n self.new }
        ensures order { self.new.order ≡ self.old.order }
        ensures contacts { self.new.contacts ≡ self.old.contacts }
        ensures handed { (z : Fraction) → IsComing pieces.now z None
            self.old.order.items self.old.contacts.items → IsColumnOf pieces.now z []
            → S.content sink.new ≡ fold S.after (S.content sink.old)
            (map (item_of groups.now) (cells_in pieces.now (unlisted z))) }
    {
        self.cut
            .slab(self.order.as_slice(), self.contacts.as_slice());
        let slab = Column {
            edges: self.order.as_slice(),
            vertices: &[],
            onward: self.order.as_slice(),
            parts: self.cut.parts.as_slice(),
        };
        hand_out(sink, &Strip::Slab, groups, &mut self.tallies, &slab);
    }

    /// Room for a sweep over so many pieces, with so many vertices and groups.
    fn new(
        alloc: Global,
        pieces: usize,
        vertices: usize,
        groups: usize,
    ) -> Result<Sweep, AllocError>
        requires few { pieces ≤ pieces_max }
        requires few_vertices { vertices ≤ vertices_max }
        ensures ready { IfOk result (λ s. (ps : List Piece) → length ps ≡ pieces
            → (gs : List ℕ) → group_count_of gs ≡ groups → IsReady ps gs vertices s) }
        ensures order { IfOk result (λ s. s.order.items ≡ []) }
        ensures contacts { IfOk result (λ s. s.contacts.items ≡ []) }
    {
        Ok(Sweep {
            order: Vec::with_capacity(alloc, pieces)?,
            contacts: Vec::with_capacity(alloc, pieces)?,
            cut: Cut {
                parts: Vec::with_capacity(alloc, pieces + vertices)?,
                order: Vec::with_capacity(alloc, pieces)?,
                contacts: Vec::with_capacity(alloc, pieces)?,
                segment: Vec::with_capacity(alloc, pieces)?,
            },
            tallies: Tallies {
                on: Vec::from_elem(alloc, 0, groups)?,
                above: Vec::from_elem(alloc, 0, groups)?,
            },
        })
    }

    /// Hands out all cells: the slab left of everything, and then each column with the slab right
    /// of it. A sink that is full ends it, since what is left would change nothing in it.
    fn run<S: CellSink>(
        &mut self,
        pieces: &[Piece],
        groups: &[u32],
        vertices: &[Vertex],
        sink: &mut S,
    )
        requires ready { IsReady pieces.now groups.now (length vertices.now) self.old }
        requires few { length pieces.now ≤ pieces_max }
        requires few_vertices { length vertices.now ≤ vertices_max }
        requires one_group_each { length groups.now ≡ length pieces.now }
        requires no_edge { self.old.order.items ≡ [] }
        requires no_contact { self.old.contacts.items ≡ [] }
        requires all { IsPermutation (all_vertices 0 pieces.now) vertices.now }
        requires in_order { IsSortedBy vertex_before vertices.now }
        ensures { S.content sink.new ≡ fold S.after (S.content sink.old)
            (map (item_of groups.now) (cells pieces.now)) }
    {
        let mut ahead = vertices;
        let mut next = next_column(first_place(ahead), self.contacts.as_slice());
        self.slab(pieces, groups, sink);
        while let Some(x) = next {
            if sink.is_full() {
                return;
            }
            let (here, later) = ahead.split_at(column_len(&x, ahead));
            self.column(&x, pieces, groups, here, sink);
            ahead = later;
            next = next_column(first_place(ahead), self.contacts.as_slice());
            self.slab(pieces, groups, sink);
        }
    }
}

/// Where the first vertex is.
fn first_place(vertices: &[Vertex]) -> Option<GridPoint>
    ensures { result ≡ first_place_of vertices.now }
{
    vertices.first().map(|v| v.at)
}

/// How many vertices from the first one on are in the column `x`.
fn column_len(x: &Frac, vertices: &[Vertex]) -> usize
    ensures value { result ≡ prefix_len (in_column x.now) vertices.now }
    ensures bound { result ≤ length vertices.now }
{
    vertices.iter().take_while(|v| v.is_in(x)).count()
}

/// Hands the cells of the pieces to the sink, each with its dimension and, of every group, how many
/// of its pieces are on the cell and how many of its edges are above it: columns from the left,
/// each from the top. The groups are those of the pieces, one for each; there are as many as the
/// greatest number says, plus one. Where memory is wanting the sink is left as it was. Once the sink is
/// full, no further column is handed out.
pub fn walk<S: CellSink>(
    alloc: Global,
    pieces: &[Piece],
    groups: &[u32],
    sink: &mut S,
) -> Result<(), AllocError>
    requires have_length { All HasLength pieces.now }
    requires few { length pieces.now ≤ pieces_max }
    requires one_group_each { length groups.now ≡ length pieces.now }
    requires groups_in_range { All (λ g. g < length pieces.now) groups.now }
    ensures ok { OnOk result (S.content sink.new ≡ fold S.after (S.content sink.old)
        (map (item_of groups.now) (cells pieces.now))) }
    ensures err { OnErr result (sink.new ≡ sink.old) }
{
    let vertices = vertices(alloc, pieces)?;
    walk_sorted(alloc, pieces, groups, vertices.as_slice(), sink)
}

/// The same over all vertices of the pieces, in their order, for those who have them at hand.
pub fn walk_sorted<S: CellSink>(
    alloc: Global,
    pieces: &[Piece],
    groups: &[u32],
    vertices: &[Vertex],
    sink: &mut S,
) -> Result<(), AllocError>
    requires few { length pieces.now ≤ pieces_max }
    requires few_vertices { length vertices.now ≤ vertices_max }
    requires one_group_each { length groups.now ≡ length pieces.now }
    requires all { IsPermutation (all_vertices 0 pieces.now) vertices.now }
    requires in_order { IsSortedBy vertex_before vertices.now }
    ensures ok { OnOk result (S.content sink.new ≡ fold S.after (S.content sink.old)
        (map (item_of groups.now) (cells pieces.now))) }
    ensures err { OnErr result (sink.new ≡ sink.old) }
{
    let mut sweep = Sweep::new(alloc, pieces.len(), vertices.len(), group_count(groups))?;
    sweep.run(pieces, groups, vertices, sink);
    Ok(())
}

/// How many groups there are: the greatest number plus one, or 0.
fn group_count(groups: &[u32]) -> usize
    ensures { result ≡ group_count_of groups.now }
{
    let mut count = 0;
    for group in groups {
        count = count.max(*group as usize + 1);
    }
    count
}
