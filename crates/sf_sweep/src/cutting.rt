//! A window of a column, cut into its levels and handed out with the slab right of it.

ghost use Rattle.std.specs.Prelude.{◌≡◌, ◌<◌, ◌≤◌, ◌+◌, ◌-◌, ◌^◌, [], length, vec_capacity, IfOk};
ghost use Rattle.std.specs.List.{All, fold};
ghost use Rattle.sf_strips.specs.Fronts.{AreApart, AreContacts};
ghost use Rattle.sf_strips.specs.Levels.{most_onward};
ghost use Rattle.sf_cells.specs.Groups.{counts, group_count};
ghost use Rattle.sf_sweep.specs.Cuts.{HasBenchRoom, IsBalancedWindow, KeepsBenchRoom, WasWindowHanded, WereLevelsHanded, going_items};

use sf_cells::{CellSink, Column, Tallies, hand_part};
use sf_grid::Frac;
use sf_strips::{Active, Contact, Cut, Strip, Vertex};
use std::alloc::{AllocError, Global};
use std::mem::swap;

/// The room in which a window is cut: before that it has the contacts between the edges that come to
/// the window, and then the edges that go on from it and the contacts between those.
#[derive(Drop)]
pub struct Bench {
    pub cut: Cut,
    pub order: Vec<Active>,
    pub contacts: Vec<Contact>,
}

impl Bench {
    /// Room for so many levels and edges.
    pub fn new(alloc: Global, levels: usize, edges: usize) -> Result<Bench, AllocError>
        ensures { IfOk result (λ b. HasBenchRoom levels edges b) }
    {
        let cut = Cut {
            parts: Vec::with_capacity(alloc, levels)?,
            order: Vec::with_capacity(alloc, edges)?,
            contacts: Vec::with_capacity(alloc, edges)?,
            segment: Vec::with_capacity(alloc, edges)?,
        };
        let order = Vec::with_capacity(alloc, edges)?;
        let contacts = Vec::with_capacity(alloc, edges)?;
        Ok(Bench {
            cut,
            order,
            contacts,
        })
    }
}

/// Cuts a window of the column `x`, and hands out its cells and those of the slab right of it.
pub fn hand_window<S: CellSink>(
    sink: &mut S,
    x: &Frac,
    groups: &[u32],
    tallies: &mut Tallies,
    came: &[Active],
    here: &[Vertex],
    bench: &mut Bench,
)
    requires apart { AreApart x.now came.now bench.old.contacts.items }
    requires came { All (λ e. e.piece < length groups.now) came.now }
    requires here { All (λ v. v.piece < length groups.now) here.now }
    requires few { length came.now + length here.now < 2 ^ 30 }
    requires room { HasBenchRoom (length came.now + length here.now) (most_onward came.now here.now) bench.old }
    requires balanced { IsBalancedWindow groups.now x.now came.now bench.old.contacts.items here.now }
    requires none_on { tallies.old.on.items ≡ counts groups.now [] }
    requires counted_above { length tallies.old.above.items ≡ group_count groups.now }
    requires few_above { All (λ n. n < 2 ^ 31) tallies.old.above.items }
    ensures handed { WasWindowHanded x.now groups.now tallies.old.above.items came.now bench.old.contacts.items here.now
        bench.new.order.items bench.new.contacts.items S.after (S.content sink.old) (S.content sink.new) }
    ensures contacts { AreContacts x.now bench.new.order.items bench.new.contacts.items }
    ensures none_on { tallies.new.on.items ≡ counts groups.now [] }
    ensures above { tallies.new.above.items ≡ tallies.old.above.items }
    ensures room { KeepsBenchRoom bench.old bench.new }
{
    hand_levels(sink, x, groups, tallies, came, here, bench);
    hand_going(sink, x, groups, tallies, bench);
}

/// Cuts a window of the column `x`, and hands out its cells.
fn hand_levels<S: CellSink>(
    sink: &mut S,
    x: &Frac,
    groups: &[u32],
    tallies: &mut Tallies,
    came: &[Active],
    here: &[Vertex],
    bench: &mut Bench,
)
    requires apart { AreApart x.now came.now bench.old.contacts.items }
    requires came { All (λ e. e.piece < length groups.now) came.now }
    requires here { All (λ v. v.piece < length groups.now) here.now }
    requires few { length came.now + length here.now < 2 ^ 30 }
    requires room { HasBenchRoom (length came.now + length here.now) (most_onward came.now here.now) bench.old }
    requires balanced { IsBalancedWindow groups.now x.now came.now bench.old.contacts.items here.now }
    requires none_on { tallies.old.on.items ≡ counts groups.now [] }
    requires counted_above { length tallies.old.above.items ≡ group_count groups.now }
    requires few_above { All (λ n. n < 2 ^ 31) tallies.old.above.items }
    ensures handed { WereLevelsHanded x.now groups.now tallies.old.above.items came.now bench.old.contacts.items here.now
        bench.new.order.items S.after (S.content sink.old) (S.content sink.new) }
    ensures contacts { AreContacts x.now bench.new.order.items bench.new.contacts.items }
    ensures none_on { tallies.new.on.items ≡ counts groups.now [] }
    ensures above { tallies.new.above.items ≡ tallies.old.above.items }
    ensures room { KeepsBenchRoom bench.old bench.new }
{
    bench.cut.column(x, came, bench.contacts.as_slice(), here);
    let column = Column {
        edges: came,
        vertices: here,
        onward: bench.cut.order.as_slice(),
        parts: bench.cut.parts.as_slice(),
    };
    hand_part(sink, &Strip::Column(*x), groups, tallies, &column);
    swap(&mut bench.order, &mut bench.cut.order);
    swap(&mut bench.contacts, &mut bench.cut.contacts);
}

/// Hands out the cells of the slab right of a window that was cut.
fn hand_going<S: CellSink>(
    sink: &mut S,
    x: &Frac,
    groups: &[u32],
    tallies: &mut Tallies,
    bench: &mut Bench,
)
    requires contacts { AreContacts x.now bench.old.order.items bench.old.contacts.items }
    requires order { All (λ e. e.piece < length groups.now) bench.old.order.items }
    requires few { length bench.old.order.items < 2 ^ 30 }
    requires room { length bench.old.order.items ≤ vec_capacity bench.old.cut.parts }
    requires none_on { tallies.old.on.items ≡ counts groups.now [] }
    requires counted_above { length tallies.old.above.items ≡ group_count groups.now }
    requires few_above { All (λ n. n < 2 ^ 31) tallies.old.above.items }
    ensures handed { S.content sink.new ≡ fold S.after (S.content sink.old)
        (going_items groups.now tallies.old.above.items bench.old.contacts.items bench.old.order.items) }
    ensures order { bench.new.order ≡ bench.old.order }
    ensures contacts { bench.new.contacts ≡ bench.old.contacts }
    ensures none_on { tallies.new.on.items ≡ counts groups.now [] }
    ensures above { tallies.new.above.items ≡ tallies.old.above.items }
    ensures room { KeepsBenchRoom bench.old bench.new }
{
    bench
        .cut
        .slab(bench.order.as_slice(), bench.contacts.as_slice());
    let slab = Column {
        edges: bench.order.as_slice(),
        vertices: &[],
        onward: bench.order.as_slice(),
        parts: bench.cut.parts.as_slice(),
    };
    hand_part(sink, &Strip::Slab, groups, tallies, &slab);
}
