//! The order of the edges at a vertex: where those stand that end there, whether all is as it has to be
//! where no edges meet, and the order behind it.

ghost use Rattle.std.specs.Prelude.{◌≡◌, ◌≤◌, ◌+◌, ◌<◌, ◌++◌, [], ◌∷◌, IfOk, IsTrue, OnOk, drop, length, take, vec_len};
ghost use Rattle.std.specs.List.{All};
ghost use Rattle.sf_first_meeting.specs.Numbered.{HasLengths};
ghost use Rattle.sf_first_meeting.specs.Orders.{AtFirst, AtLast};
ghost use Rattle.sf_first_meeting.specs.Spots.{Along, Between, IsFound, IsTested, beginning_of, ending_of};
ghost use Rattle.sf_first_meeting.specs.Sweeps.{ArePlain, IsOver, IsUnder};

use crate::apart::share_ends;
use crate::doubt::Doubt;
use crate::doubts::{doubt_at, doubt_near};
use crate::sides::{is_over, is_under};
use crate::spot::{Spot, spot_at};
use sf_grid::GridPoint;
use std::alloc::AllocError;

/// The edges at a vertex, and from which place of the order on those stand that end there. An error
/// is what was met with instead.
pub(crate) fn found_at(
    points: &[GridPoint],
    active: &[usize],
    vertex: usize,
) -> Result<(usize, Spot), Doubt>
    requires lengths { HasLengths points.now }
    requires in_range { vertex < length points.now }
    requires edges { All (λ e. e + 1 < length points.now) active.now }
    ensures { IfOk result (λ found. IsFound points.now active.now vertex found.0 found.1) }
{
    let Some(spot) = spot_at(points, vertex) else {
        return Err(doubt_at(points, vertex));
    };
    let from = below_len(points, active, points[vertex]);
    let (below, rest) = active.split_at(from);
    if rest.len() < spot.ending_len() {
        return Err(doubt_near(points, active, from, &spot));
    }
    let (ending, above) = rest.split_at(spot.ending_len());
    if !is_tested(points, points[vertex], below, ending, above, &spot) {
        return Err(doubt_near(points, active, from, &spot));
    }
    Ok((from, spot))
}

/// How many edges of an order are below a point, as a search by halves finds it.
fn below_len(points: &[GridPoint], active: &[usize], at: GridPoint) -> usize
    requires { All (λ e. e + 1 < length points.now) active.now }
    ensures { result ≤ length active.now }
{
    let mut low = 0;
    let mut high = active.len();
    while low < high {
        let middle = low + (high - low) / 2;
        if is_under(points, active[middle], at) {
            low = middle + 1;
        } else {
            high = middle;
        }
    }
    low
}

/// Whether the edges below a vertex, those that end there and those above it are as they have to be.
fn is_tested(
    points: &[GridPoint],
    at: GridPoint,
    below: &[usize],
    ending: &[usize],
    above: &[usize],
    spot: &Spot,
) -> bool
    requires lengths { HasLengths points.now }
    requires below_in { All (λ e. e + 1 < length points.now) below.now }
    requires above_in { All (λ e. e + 1 < length points.now) above.now }
    ensures { IsTrue result → IsTested points.now at below.now ending.now above.now spot.now }
{
    if !spot.are_ending(ending) {
        return false;
    }
    if !is_last_under(points, below, at) {
        return false;
    }
    if !is_first_over(points, above, at) {
        return false;
    }
    are_plain_along(points, below.last().copied(), spot, above.first().copied())
}

/// Whether the last edge, if there is one, is below a point.
fn is_last_under(points: &[GridPoint], edges: &[usize], at: GridPoint) -> bool
    requires { All (λ e. e + 1 < length points.now) edges.now }
    ensures { IsTrue result → AtLast (IsUnder points.now at) edges.now }
{
    if edges.is_empty() {
        return true;
    }
    is_under(points, edges[edges.len() - 1], at)
}

/// Whether the first edge, if there is one, is above a point.
fn is_first_over(points: &[GridPoint], edges: &[usize], at: GridPoint) -> bool
    requires { All (λ e. e + 1 < length points.now) edges.now }
    ensures { IsTrue result → AtFirst (IsOver points.now at) edges.now }
{
    if edges.is_empty() {
        return true;
    }
    is_over(points, edges[0], at)
}

/// Whether neighbours share ends alone, from the last edge below a vertex over those that begin
/// there to the first one above it.
fn are_plain_along(
    points: &[GridPoint],
    below: Option<usize>,
    spot: &Spot,
    above: Option<usize>,
) -> bool
    requires { HasLengths points.now }
    ensures { IsTrue result → Along (ArePlain points.now) below (beginning_of spot.now) above }
{
    match *spot {
        Spot::Opens(lower, upper) => are_plain_over_two(points, below, lower, upper, above),
        Spot::Passes(_, edge) => are_plain_over(points, below, edge, above),
        Spot::Begins(edge) => are_plain_over(points, below, edge, above),
        Spot::Closes(_, _) => are_plain(points, below, above),
        Spot::Ends(_) => are_plain(points, below, above),
    }
}

/// The same over two edges.
fn are_plain_over_two(
    points: &[GridPoint],
    below: Option<usize>,
    lower: usize,
    upper: usize,
    above: Option<usize>,
) -> bool
    requires { HasLengths points.now }
    ensures { IsTrue result → Along (ArePlain points.now) below (lower ∷ upper ∷ []) above }
{
    are_plain(points, below, Some(lower)) && are_plain_over(points, Some(lower), upper, above)
}

/// The same over one edge.
fn are_plain_over(
    points: &[GridPoint],
    below: Option<usize>,
    edge: usize,
    above: Option<usize>,
) -> bool
    requires { HasLengths points.now }
    ensures { IsTrue result → Along (ArePlain points.now) below (edge ∷ []) above }
{
    are_plain(points, below, Some(edge)) && are_plain(points, Some(edge), above)
}

/// Whether two edges, where both are there, share ends alone.
fn are_plain(points: &[GridPoint], lower: Option<usize>, upper: Option<usize>) -> bool
    requires { HasLengths points.now }
    ensures { IsTrue result → Between (ArePlain points.now) lower upper }
{
    let Some(lower) = lower else {
        return true;
    };
    let Some(upper) = upper else {
        return true;
    };
    share_ends(points, lower, upper)
}

/// Puts the edges that begin at a vertex in the place of those that end there.
pub(crate) fn replace(active: &mut Vec<usize>, from: usize, spot: &Spot) -> Result<(), AllocError>
    requires { from + length (ending_of spot.now) ≤ vec_len active.old }
    ensures { OnOk result (active.new.items
        ≡ take from active.old.items
        ++ (beginning_of spot.now ++ drop (length (ending_of spot.now)) (drop from active.old.items))) }
{
    match *spot {
        Spot::Opens(lower, upper) => insert_two(active, from, lower, upper),
        Spot::Passes(_, edge) => {
            active[from] = edge;
            Ok(())
        }
        Spot::Closes(_, _) => {
            active.remove(from);
            active.remove(from);
            Ok(())
        }
        Spot::Begins(edge) => insert_one(active, from, edge),
        Spot::Ends(_) => {
            active.remove(from);
            Ok(())
        }
    }
}

/// Puts an edge at a place.
fn insert_one(active: &mut Vec<usize>, from: usize, edge: usize) -> Result<(), AllocError>
    requires { from ≤ vec_len active.old }
    ensures { OnOk result (active.new.items ≡ take from active.old.items ++ (edge ∷ drop from active.old.items)) }
{
    active.insert(from, edge)?;
    Ok(())
}

/// Puts two edges at a place.
fn insert_two(
    active: &mut Vec<usize>,
    from: usize,
    lower: usize,
    upper: usize,
) -> Result<(), AllocError>
    requires { from ≤ vec_len active.old }
    ensures { OnOk result (active.new.items ≡ take from active.old.items ++ (lower ∷ upper ∷ drop from active.old.items)) }
{
    active.insert(from, upper)?;
    active.insert(from, lower)?;
    Ok(())
}
