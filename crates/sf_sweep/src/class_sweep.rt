//! A sweep over columns that looks only at those places of a column at which something happens.

ghost use Rattle.sf_strips.specs.Pieces.{pieces_max, vertices_max};
ghost use Rattle.std.specs.Prelude.{◌≡◌, ◌+◌, ◌≤◌, ◌<◌, ◌++◌, ◌^◌, [], None, take, drop, length, map, vec_len, IfOk};
ghost use Rattle.std.specs.List.{All};
ghost use Rattle.sf_strips.specs.Fronts.{AreApart, AreContacts, pieces_of};
ghost use Rattle.sf_strips.specs.Levels.{most_onward};
ghost use Rattle.sf_strips.specs.Vertices.{begins, pieces_with};
ghost use Rattle.sf_cells.specs.Groups.{counts, group_count};
ghost use Rattle.sf_sweep.specs.Cuts.{IsBalancedWindow, WasWindowHanded};
ghost use Rattle.sf_sweep.specs.Fresh.{IsFresh};
ghost use Rattle.sf_sweep.specs.Parities.{AreParities, as_count, parities, stored};
ghost use Rattle.sf_sweep.specs.Passing.{IsLastApart};
ghost use Rattle.sf_sweep.specs.Ready.{HasPlaces, IsReady, KeepsPlaces};
ghost use Rattle.sf_sweep.specs.Repairs.{IsRepaired};
ghost use Rattle.sf_sweep.specs.Settled.{WereSettled, forgotten};
ghost use Rattle.sf_sweep.specs.Tables.{contacts_of};
ghost use Rattle.sf_sweep.specs.Within.{IsAtWindow, IsBehindWindow};

use crate::cutting::{Bench, hand_window};
use crate::front::{Front, gather};
use crate::parities::{last_row, put_counts, store};
use crate::repair::repair;
use crate::row::{Row, Rows};
use crate::sides::{above_len, reached_len};
use crate::window::Window;
use sf_cells::{CellSink, Tallies};
use sf_grid::Frac;
use sf_strips::Vertex;
use std::alloc::{AllocError, Global};

/// The edges right of the last point of the sweep; by pieces, the parities of what is above each; and
/// the room that the sweep works in.
#[derive(Drop)]
pub struct ClassSweep<R: Row> {
    pub front: Front,
    pub odd: Rows<R>,
    pub bench: Bench,
    pub tallies: Tallies,
}

impl<R: Row> ClassSweep<R> {
    /// No edge, and room for so many pieces, vertices and groups.
    pub fn new(
        alloc: Global,
        pieces: usize,
        vertices: usize,
        groups: usize,
    ) -> Result<ClassSweep<R>, AllocError>
        requires few { pieces ≤ pieces_max }
        requires few_vertices { vertices ≤ vertices_max }
        ensures { IfOk result (λ q. IsFresh pieces vertices groups q) }
    {
        let front = Front::new(alloc, pieces)?;
        let odd = Rows::new(alloc, pieces)?;
        let bench = Bench::new(alloc, pieces + vertices, pieces)?;
        let on = Vec::from_elem(alloc, 0, groups)?;
        let above = Vec::from_elem(alloc, 0, groups)?;
        Ok(ClassSweep {
            front,
            odd,
            bench,
            tallies: Tallies { on, above },
        })
    }

    /// Cuts a window of the column `x`: the edges from one place of the order to another, and vertices.
    /// Hands out its cells and those right of it, puts what goes on in the place of what came, and
    /// stores the parities above that. The place behind it.
    pub fn cut<S: CellSink>(
        &mut self,
        sink: &mut S,
        x: &Frac,
        groups: &[u32],
        areal: &[bool],
        from: usize,
        to: usize,
        here: &[Vertex],
    ) -> usize
        requires in_turn { from ≤ to }
        requires within { to ≤ vec_len self.old.front.order }
        requires order { All (λ e. e.piece < length groups.now) self.old.front.order.items }
        requires here { All (λ v. v.piece < length groups.now) here.now }
        requires few { vec_len self.old.front.order + length here.now < 2 ^ 30 }
        requires ready { IsReady R.width areal.now groups.now self.old.odd self.old.tallies }
        requires apart { AreApart x.now (drop from (take to self.old.front.order.items))
            (contacts_of self.old.front.meetings (drop from (take to self.old.front.order.items))) }
        requires balanced { IsBalancedWindow groups.now x.now (drop from (take to self.old.front.order.items))
            (contacts_of self.old.front.meetings (drop from (take to self.old.front.order.items))) here.now }
        requires stored { AreParities areal.now groups.now self.old.odd (counts groups.now []) (take from self.old.front.order.items) }
        requires places { HasPlaces groups.now (vec_len self.old.front.order + length here.now)
            (vec_len self.old.front.order + length (pieces_with begins here.now)) (vec_len self.old.front.order) self.old }
        ensures handed { WasWindowHanded x.now groups.now
            (map as_count (take (group_count groups.now) (parities areal.now (counts groups.now (pieces_of (take from self.old.front.order.items))))))
            (drop from (take to self.old.front.order.items))
            (contacts_of self.old.front.meetings (drop from (take to self.old.front.order.items))) here.now
            self.new.bench.order.items self.new.bench.contacts.items S.after (S.content sink.old) (S.content sink.new) }
        ensures contacts { AreContacts x.now self.new.bench.order.items self.new.bench.contacts.items }
        ensures order { self.new.front.order.items
            ≡ take from self.old.front.order.items ++ self.new.bench.order.items ++ drop to self.old.front.order.items }
        ensures settled { WereSettled x.now (take from self.old.front.order.items) self.new.bench.order.items
            (drop to self.old.front.order.items) self.new.bench.contacts.items
            (forgotten self.old.front.meetings (drop from (take to self.old.front.order.items))) self.new.front.meetings }
        ensures stored { self.new.odd ≡ stored areal.now groups.now self.old.odd
            (parities areal.now (counts groups.now (pieces_of (take from self.old.front.order.items)))) self.new.bench.order.items }
        ensures end { result ≡ from + length self.new.bench.order.items }
        ensures ready { IsReady R.width areal.now groups.now self.new.odd self.new.tallies }
        ensures places { KeepsPlaces self.old self.new }
    {
        let (above, came) = self.front.order.as_slice().split_at(to).0.split_at(from);
        let row = last_row(areal, groups, &self.odd, above);
        put_counts(&mut self.tallies.above, row.as_slice());
        gather(
            self.front.meetings.as_slice(),
            came,
            &mut self.bench.contacts,
        );
        hand_window(
            sink,
            x,
            groups,
            &mut self.tallies,
            came,
            here,
            &mut self.bench,
        );
        let went = self.bench.order.as_slice();
        self.front
            .exchange(x, from, to, went, self.bench.contacts.as_slice());
        store(areal, groups, &mut self.odd, &row, went);
        from + went.len()
    }

    /// Hands out, of the edges from one place of the order to another, which pass a column, the bundles
    /// from the top below which the parities have changed, each with the gap below it; and stores
    /// those parities.
    pub fn pass<S: CellSink>(
        &mut self,
        sink: &mut S,
        groups: &[u32],
        areal: &[bool],
        from: usize,
        to: usize,
    )
        requires in_turn { from ≤ to }
        requires within { to ≤ vec_len self.old.front.order }
        requires order { All (λ e. e.piece < length groups.now) self.old.front.order.items }
        requires few { vec_len self.old.front.order < 2 ^ 30 }
        requires ready { IsReady R.width areal.now groups.now self.old.odd self.old.tallies }
        requires apart { IsLastApart None self.old.front.meetings (drop from (take to self.old.front.order.items)) }
        requires stored { AreParities areal.now groups.now self.old.odd (counts groups.now []) (take from self.old.front.order.items) }
        ensures repaired { IsRepaired areal.now groups.now self.old.front.meetings (drop from (take to self.old.front.order.items))
            (parities areal.now (counts groups.now (pieces_of (take from self.old.front.order.items))))
            self.old.odd self.new.odd S.after (S.content sink.old) (S.content sink.new) }
        ensures front { self.new.front ≡ self.old.front }
        ensures bench { self.new.bench ≡ self.old.bench }
        ensures ready { IsReady R.width areal.now groups.now self.new.odd self.new.tallies }
    {
        let (above, passing) = self.front.order.as_slice().split_at(to).0.split_at(from);
        let row = last_row(areal, groups, &self.odd, above);
        repair(
            sink,
            groups,
            areal,
            self.front.meetings.as_slice(),
            passing,
            &row,
            &mut self.odd,
            &mut self.tallies,
        );
    }

    /// Deals with the edges from a place of the order down to the next window of the column `x`, which
    /// pass it, and with the window and its vertices. The place behind it.
    pub fn advance<S: CellSink>(
        &mut self,
        sink: &mut S,
        x: &Frac,
        groups: &[u32],
        areal: &[bool],
        from: usize,
        window: &Window,
        here: &[Vertex],
    ) -> usize
        requires at { IsAtWindow x.now groups.now areal.now self.old.front.order.items self.old.front.meetings
            self.old.odd from here.now window.now }
        requires few { vec_len self.old.front.order + length here.now < 2 ^ 30 }
        requires ready { IsReady R.width areal.now groups.now self.old.odd self.old.tallies }
        requires places { HasPlaces groups.now (vec_len self.old.front.order + length here.now)
            (vec_len self.old.front.order + length (pieces_with begins here.now)) (vec_len self.old.front.order) self.old }
        ensures behind { (s : IsAtWindow x.now groups.now areal.now self.old.front.order.items self.old.front.meetings
            self.old.odd from here.now window.now)
            → IsBehindWindow s self.new.front.order.items self.new.front.meetings self.new.odd result
            S.after (S.content sink.old) (S.content sink.new) }
        ensures ready { IsReady R.width areal.now groups.now self.new.odd self.new.tallies }
        ensures places { KeepsPlaces self.old self.new }
    {
        let rest = self.front.order.as_slice().split_at(from).1;
        let lo = from + above_len(rest, &window.top);
        let lower = self.front.order.as_slice().split_at(lo).1;
        let hi = lo + reached_len(lower, &window.bottom);
        self.pass(sink, groups, areal, from, lo);
        self.cut(sink, x, groups, areal, lo, hi, here)
    }
}
