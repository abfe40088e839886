//! The sweep over a column, window by window, and from column to column.

ghost use Rattle.sf_strips.specs.Pieces.{pieces_max, vertices_max};
ghost use Rattle.std.specs.Prelude.{◌≡◌, ◌+◌, ◌≤◌, ◌<◌, ◌^◌, [], length, replicate, IfNone as OnNone, IfSome};
ghost use Rattle.std.specs.List.{prefix_len};
ghost use Rattle.std.specs.List.Sorted.{IsPermutation, IsSortedBy};
ghost use Rattle.sf_strips.specs.declared.contact.Contact.TheVariants.{Never};
ghost use Rattle.sf_strips.specs.Next.{IsLeastOf, candidates, first_place as first_place_of};
ghost use Rattle.sf_strips.specs.Vertices.{all_vertices, in_column, vertex_before};
ghost use Rattle.sf_cells.specs.Groups.{counts};
ghost use Rattle.sf_classes.specs.Classes.{WereHanded};
ghost use Rattle.sf_sweep.specs.Nearest.{meeting_of};
ghost use Rattle.sf_sweep.specs.Ready.{HasPlaces, IsReady, KeepsPlaces};
ghost use Rattle.sf_sweep.specs.Within.{IsAt, IsBehindColumn};

use crate::class_sweep::ClassSweep;
use crate::row::Row;
use crate::window::next_window;
use sf_cells::CellSink;
use sf_grid::{Frac, FracPoint, GridPoint};
use sf_strips::{Contact, Piece, Vertex, next_column};

impl<R: Row> ClassSweep<R> {
    /// Hands out what changes in the column `x`, in which these vertices lie, and right of it; and goes
    /// on to the edges right of it.
    pub fn column<S: CellSink>(
        &mut self,
        sink: &mut S,
        x: &Frac,
        groups: &[u32],
        areal: &[bool],
        vertices: &[Vertex],
    )
        requires at { IsAt x.now groups.now areal.now self.old.front.order.items self.old.front.meetings
            self.old.odd 0 vertices.now }
        requires few { length groups.now + length vertices.now < 2 ^ 30 }
        requires ready { IsReady R.width areal.now groups.now self.old.odd self.old.tallies }
        requires places { HasPlaces groups.now (length groups.now + length vertices.now) (length groups.now) (length groups.now) self.old }
        ensures behind { (s : IsAt x.now groups.now areal.now self.old.front.order.items self.old.front.meetings
            self.old.odd 0 vertices.now)
            → IsBehindColumn s self.new.front.order.items self.new.front.meetings self.new.odd
            S.after (S.content sink.old) (S.content sink.new) }
        ensures ready { IsReady R.width areal.now groups.now self.new.odd self.new.tallies }
        ensures places { KeepsPlaces self.old self.new }
    {
        let mut from = 0;
        let mut left = vertices;
        while let Some(window) = next_window(self.front.meetings.first(), x, left) {
            let (here, later) = left.split_at(window.vertices);
            from = self.advance(sink, x, groups, areal, from, &window, here);
            left = later;
        }
        let end = self.front.order.len();
        self.pass(sink, groups, areal, from, end);
    }

    /// Hands out items that represent all cells: first the slab left of everything, then what changes
    /// in each column and right of it. A sink that is full ends it, since what is left would change
    /// nothing in it.
    pub fn run<S: CellSink>(
        &mut self,
        sink: &mut S,
        pieces: &[Piece],
        groups: &[u32],
        areal: &[bool],
        vertices: &[Vertex],
    )
        requires few { length pieces.now ≤ pieces_max }
        requires few_vertices { length vertices.now ≤ vertices_max }
        requires one_group_each { length groups.now ≡ length pieces.now }
        requires ready { IsReady R.width areal.now groups.now self.old.odd self.old.tallies }
        requires all { IsPermutation (all_vertices 0 pieces.now) vertices.now }
        requires in_order { IsSortedBy vertex_before vertices.now }
        requires no_edge { self.old.front.order.items ≡ [] }
        requires no_meeting { self.old.front.meetings ≡ replicate (length groups.now) Never }
        requires places { HasPlaces groups.now (length groups.now + length vertices.now) (length groups.now) (length groups.now) self.old }
        requires none_above { self.old.tallies.above.items ≡ counts groups.now [] }
        ensures { WereHanded pieces.now groups.now areal.now S.after (S.content sink.old) (S.content sink.new) }
    {
        sink.cell(2, &self.tallies.on, &self.tallies.above);
        let mut ahead = vertices;
        let mut next = next_place(self.front.meetings.first(), ahead);
        while let Some(x) = next {
            if sink.is_full() {
                return;
            }
            let (here, later) = ahead.split_at(column_len(&x, ahead));
            self.column(sink, &x, groups, areal, here);
            ahead = later;
            next = next_place(self.front.meetings.first(), ahead);
        }
    }
}

/// The leftmost of the columns of the first vertex and of the first point at which edges meet, or None
/// where there is none of either.
fn next_place(near: Option<FracPoint>, ahead: &[Vertex]) -> Option<Frac>
    ensures some { IfSome result (λ y. IsLeastOf (candidates (first_place_of ahead.now) (meeting_of near)) y) }
    ensures none { OnNone result (candidates (first_place_of ahead.now) (meeting_of near) ≡ []) }
{
    let place = first_place(ahead);
    match near {
        Some(point) => next_column(place, &[Contact::Ahead(point)]),
        None => next_column(place, &[]),
    }
}

/// Where the first vertex is.
fn first_place(vertices: &[Vertex]) -> Option<GridPoint>
    ensures { result ≡ first_place_of vertices.now }
{
    vertices.first().map(|v| v.at)
}

/// How many vertices from the first one on are in the column `x`.
fn column_len(x: &Frac, vertices: &[Vertex]) -> usize
    ensures value { result ≡ prefix_len (in_column x.now) vertices.now }
    ensures bound { result ≤ length vertices.now }
{
    vertices.iter().take_while(|v| v.is_in(x)).count()
}
