//! The order of the edges right of the last point of the sweep, changed at one place.

ghost use Rattle.sf_strips.specs.Pieces.{pieces_max};
ghost use Rattle.std.specs.Prelude.{◌≡◌, ◌+◌, ◌-◌, ◌≤◌, ◌<◌, ◌++◌, [], take, drop, length, replicate, vec_capacity, vec_len, IfOk};
ghost use Rattle.sf_strips.specs.declared.contact.Contact.TheVariants.{Never};
ghost use Rattle.std.specs.List.{All};
ghost use Rattle.sf_sweep.specs.Settled.{WereSettled, forgotten};
ghost use Rattle.sf_sweep.specs.Tables.{contacts_of};

use crate::meetings::Meetings;
use crate::settle::{forget, settle};
use sf_grid::Frac;
use sf_strips::{Active, Contact};
use std::alloc::{AllocError, Global};

/// The edges from the top, and by pieces what each does with the next one; and room for those below a
/// place at which they change.
#[derive(Drop)]
pub struct Front {
    pub order: Vec<Active>,
    pub meetings: Meetings,
    pub tail: Vec<Active>,
}

impl Front {
    /// No edge, and room for one of each of so many pieces.
    pub fn new(alloc: Global, pieces: usize) -> Result<Front, AllocError>
        requires few { pieces ≤ pieces_max }
        ensures no_edge { IfOk result (λ f. f.order.items ≡ []) }
        ensures no_meeting { IfOk result (λ f. f.meetings ≡ replicate pieces Never) }
        ensures room { IfOk result (λ f. pieces ≤ vec_capacity f.order) }
        ensures tail_room { IfOk result (λ f. pieces ≤ vec_capacity f.tail) }
    {
        let order = Vec::with_capacity(alloc, pieces)?;
        let meetings = Meetings::new(alloc, pieces)?;
        let tail = Vec::with_capacity(alloc, pieces)?;
        Ok(Front {
            order,
            meetings,
            tail,
        })
    }

    /// Puts edges that go on from the column `x`, with the contacts between them, in the place of those
    /// from one place to another.
    pub fn exchange(
        &mut self,
        x: &Frac,
        from: usize,
        to: usize,
        went: &[Active],
        contacts: &[Contact],
    )
        requires in_turn { from ≤ to }
        requires within { to ≤ vec_len self.old.order }
        requires room { from + length went.now + (vec_len self.old.order - to) ≤ vec_capacity self.old.order }
        requires tail_room { vec_len self.old.order ≤ vec_capacity self.old.tail }
        requires order { All (λ e. e.piece < length self.old.meetings) self.old.order.items }
        requires went { All (λ e. e.piece < length self.old.meetings) went.now }
        ensures order { self.new.order.items ≡ take from self.old.order.items ++ went.now ++ drop to self.old.order.items }
        ensures settled { WereSettled x.now (take from self.old.order.items) went.now (drop to self.old.order.items) contacts.now
            (forgotten self.old.meetings (drop from (take to self.old.order.items))) self.new.meetings }
        ensures len { length self.new.meetings ≡ length self.old.meetings }
        ensures room { vec_capacity self.old.order ≤ vec_capacity self.new.order }
        ensures tail_room { vec_capacity self.old.tail ≤ vec_capacity self.new.tail }
    {
        let (_, came) = self.order.as_slice().split_at(to).0.split_at(from);
        forget(&mut self.meetings, came);
        replace(&mut self.order, from, to, went, &mut self.tail);
        let (above, lower) = self.order.as_slice().split_at(from + went.len());
        let (upper, _) = above.split_at(from);
        settle(&mut self.meetings, x, upper, went, contacts, lower);
    }
}

/// Puts down, in place of what `found` has, what each of some edges of an order does with the next one
/// of them; by pieces it stands in a table.
pub fn gather(table: &[Contact], edges: &[Active], found: &mut Vec<Contact>)
    requires edges { All (λ e. e.piece < length table.now) edges.now }
    requires room { length edges.now ≤ vec_capacity found.old }
    ensures items { found.new.items ≡ contacts_of table.now edges.now }
    ensures room { vec_capacity found.new ≡ vec_capacity found.old }
{
    found.clear();
    if let Some((_, uppers)) = edges.split_last() {
        for edge in uppers {
            found.push_reserved(table[edge.piece as usize]);
        }
    }
}

/// Puts a segment in the place of the edges from one place to another.
fn replace(
    order: &mut Vec<Active>,
    from: usize,
    to: usize,
    segment: &[Active],
    tail: &mut Vec<Active>,
)
    requires in_turn { from ≤ to }
    requires within { to ≤ vec_len order.old }
    requires room { from + length segment.now + (vec_len order.old - to) ≤ vec_capacity order.old }
    requires tail_room { vec_len order.old ≤ vec_capacity tail.old }
    ensures items { order.new.items ≡ take from order.old.items ++ segment.now ++ drop to order.old.items }
    ensures room { vec_capacity order.old ≤ vec_capacity order.new }
    ensures tail_room { vec_capacity tail.old ≤ vec_capacity tail.new }
{
    if segment.len() == to - from {
        overwrite(order, from, segment);
        return;
    }
    tail.clear();
    extend(tail, order.as_slice().split_at(to).1);
    order.truncate(from);
    extend(order, segment);
    extend(order, tail.as_slice());
}

/// Puts a segment over as many edges from a place on.
fn overwrite(order: &mut [Active], from: usize, segment: &[Active])
    requires within { from + length segment.now ≤ length order.old }
    ensures { order.new ≡ take from order.old ++ segment.now ++ drop (from + length segment.now) order.old }
{
    let (_, lower) = order.split_at_mut(from);
    lower.split_at_mut(segment.len()).0.copy_from_slice(segment);
}

/// Puts all of `others` behind what there is; there is room for them.
fn extend<T: Copy>(found: &mut Vec<T>, others: &[T])
    requires room { vec_len found.old + length others.now ≤ vec_capacity found.old }
    ensures items { found.new.items ≡ found.old.items ++ others.now }
    ensures len { vec_len found.new ≡ vec_len found.old + length others.now }
    ensures capacity { vec_capacity found.old ≤ vec_capacity found.new }
{
    let Ok(()) = found.extend_from_slice(others) else {
        unreachable!()
    };
}
