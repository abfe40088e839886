//! Edges that pass a column below other parities than before.

ghost use Rattle.std.specs.Prelude.{◌≡◌, ◌<◌, ◌≤◌, ◌^◌, [], None, length, map, take};
ghost use Rattle.std.specs.List.{All};
ghost use Rattle.sf_strips.specs.Fronts.{pieces_of};
ghost use Rattle.sf_cells.specs.Groups.{counts};
ghost use Rattle.sf_cells.specs.Hands.{item};
ghost use Rattle.sf_sweep.specs.Parities.{as_count};
ghost use Rattle.sf_sweep.specs.Passing.{IsLastApart};
ghost use Rattle.sf_sweep.specs.Ready.{IsReady};
ghost use Rattle.sf_sweep.specs.Repairs.{IsRepaired};

use crate::bundle::bundle_len;
use crate::parities::{put_counts, store};
use crate::row::{Row, Rows};
use sf_cells::{CellSink, Tallies, add_edges, take_edges};
use sf_strips::{Active, Contact};

/// Hands out the bundles of a slab from the top, each with the gap below it, until what is stored of
/// the parities above one is right; and stores those of the ones that were handed out.
pub fn repair<R: Row, S: CellSink>(
    sink: &mut S,
    groups: &[u32],
    areal: &[bool],
    contacts: &[Contact],
    order: &[Active],
    above: &R,
    table: &mut Rows<R>,
    tallies: &mut Tallies,
)
    requires ready { IsReady R.width areal.now groups.now table.old tallies.old }
    requires grouped { All (λ e. e.piece < length groups.now) order.now }
    requires few { length order.now < 2 ^ 32 }
    requires apart { IsLastApart None contacts.now order.now }
    ensures repaired { IsRepaired areal.now groups.now contacts.now order.now (R.bits above.now)
        table.old table.new S.after (S.content sink.old) (S.content sink.new) }
    ensures ready { IsReady R.width areal.now groups.now table.new tallies.new }
{
    let mut rest = order;
    let mut odd = *above;
    while let Some(first) = rest.first() {
        if table.at(first.piece).is_same(&odd) {
            return;
        }
        let (bundle, lower) = rest.split_at(bundle_len(contacts, rest));
        hand_bundle(sink, groups, tallies, odd.as_slice(), bundle);
        odd = store(areal, groups, table, &odd, bundle);
        hand_gap(sink, tallies, odd.as_slice());
        rest = lower;
    }
}

/// Hands out a bundle below these parities.
fn hand_bundle<S: CellSink>(
    sink: &mut S,
    groups: &[u32],
    tallies: &mut Tallies,
    odd: &[bool],
    bundle: &[Active],
)
    requires grouped { All (λ e. e.piece < length groups.now) bundle.now }
    requires few { length bundle.now < 2 ^ 32 }
    requires none_on { tallies.old.on.items ≡ counts groups.now [] }
    requires few_groups { length tallies.old.above.items ≤ length odd.now }
    ensures handed { S.content sink.new ≡ S.after (S.content sink.old)
        (item 1 (counts groups.now (pieces_of bundle.now)) (map as_count (take (length tallies.old.above.items) odd.now))) }
    ensures none_on { tallies.new.on.items ≡ counts groups.now [] }
    ensures counted { length tallies.new.above.items ≡ length tallies.old.above.items }
{
    put_counts(&mut tallies.above, odd);
    add_edges(&mut tallies.on, groups, bundle);
    sink.cell(1, &tallies.on, &tallies.above);
    take_edges(&mut tallies.on, groups, bundle);
}

/// Hands out a gap of a slab below these parities.
fn hand_gap<S: CellSink>(sink: &mut S, tallies: &mut Tallies, odd: &[bool])
    requires few_groups { length tallies.old.above.items ≤ length odd.now }
    ensures handed { S.content sink.new ≡ S.after (S.content sink.old)
        (item 2 tallies.old.on.items (map as_count (take (length tallies.old.above.items) odd.now))) }
    ensures on { tallies.new.on ≡ tallies.old.on }
    ensures counted { length tallies.new.above.items ≡ length tallies.old.above.items }
{
    put_counts(&mut tallies.above, odd);
    sink.cell(2, &tallies.on, &tallies.above);
}
