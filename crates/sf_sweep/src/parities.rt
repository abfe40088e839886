//! Parities of what is above an edge, by groups.

ghost use Rattle.std.specs.Prelude.{◌≡◌, ◌<◌, ◌≤◌, [], length, map, take, slice_index};
ghost use Rattle.std.specs.List.{All};
ghost use Rattle.sf_strips.specs.Fronts.{pieces_of};
ghost use Rattle.sf_cells.specs.Groups.{counts};
ghost use Rattle.sf_sweep.specs.Parities.{AreParities, as_count, parities, row_below, stored, turned};

use crate::row::{Row, Rows};
use sf_strips::Active;

/// The parities below an edge of a piece, from those above it; of each group, whether it is asked for.
pub fn below<R: Row>(areal: &[bool], groups: &[u32], odd: &R, piece: u32) -> R
    requires wide { length areal.now ≡ R.width }
    requires grouped { piece < length groups.now }
    requires few { slice_index groups.now piece < R.width }
    ensures { R.bits result ≡ turned areal.now (R.bits odd.now) (slice_index groups.now piece) }
{
    let group = groups[piece as usize] as usize;
    let mut below = *odd;
    if areal[group] {
        below.turn(group);
    }
    below
}

/// Puts parities in place of counts.
pub fn put_counts(counts: &mut [u32], odd: &[bool])
    requires few { length counts.old ≤ length odd.now }
    ensures { counts.new ≡ map as_count (take (length counts.old) odd.now) }
{
    for place in 0..counts.len() {
        counts[place] = u32::from(odd[place]);
    }
}

/// Puts down the parities above each of some edges, by pieces, from those above the first one; the
/// parities below the last one.
pub fn store<R: Row>(
    areal: &[bool],
    groups: &[u32],
    table: &mut Rows<R>,
    above: &R,
    edges: &[Active],
) -> R
    requires wide { length areal.now ≡ R.width }
    requires grouped { All (λ e. e.piece < length groups.now) edges.now }
    requires few { All (λ g. g < R.width) groups.now }
    requires room { length table.old ≡ length groups.now }
    ensures table { table.new ≡ stored areal.now groups.now table.old (R.bits above.now) edges.now }
    ensures len { length table.new ≡ length table.old }
    ensures below { R.bits result ≡ row_below areal.now groups.now (R.bits above.now) edges.now }
{
    let mut odd = *above;
    for edge in edges {
        table.put(edge.piece, odd);
        odd = below(areal, groups, &odd, edge.piece);
    }
    odd
}

/// The parities below the last of the edges from the top of an order, from those stored above it.
pub fn last_row<R: Row>(areal: &[bool], groups: &[u32], table: &Rows<R>, edges: &[Active]) -> R
    requires wide { length areal.now ≡ R.width }
    requires grouped { All (λ e. e.piece < length groups.now) edges.now }
    requires few { All (λ g. g < R.width) groups.now }
    requires room { length table.now ≡ length groups.now }
    requires stored { AreParities areal.now groups.now table.now (counts groups.now []) edges.now }
    ensures { R.bits result ≡ parities areal.now (counts groups.now (pieces_of edges.now)) }
{
    match edges.split_last() {
        Some((last, _)) => below(areal, groups, table.at(last.piece), last.piece),
        None => R::of(&[]),
    }
}
