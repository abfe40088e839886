//! The edges at a vertex.

ghost use Rattle.std.specs.Prelude.{◌≡◌, ℕ, ◌+◌, ◌<◌, [], ◌∷◌, false, IfSome, IsTrue, MatchOption, length};
ghost use Rattle.sf_first_meeting.specs.Numbered.{HasLengths};
ghost use Rattle.sf_first_meeting.specs.Spots.{AreAtVertex, BeginsAt, EndsAt, HasSame, IsAtVertex, IsSpot, LeadsTo, ending_of};

use crate::apart::closes_ring;
use crate::sides::{ends, is_left_of};
use sf_grid::GridPoint;

/// The edges at a vertex, each by its number: those that end there come from the left, those that begin go to the right.
#[derive(Clone, Copy)]
pub(crate) enum Spot {
    /// Two begin, the lower one first.
    Opens(usize, usize),
    /// One ends and another one begins.
    Passes(usize, usize),
    /// Two end.
    Closes(usize, usize),
    /// One begins.
    Begins(usize),
    /// One ends.
    Ends(usize),
}

impl Spot {
    /// How many edges end.
    pub fn ending_len(&self) -> usize
        ensures { result ≡ length (ending_of self.now) }
    {
        match self {
            Spot::Opens(..) | Spot::Begins(_) => 0,
            Spot::Passes(..) | Spot::Ends(_) => 1,
            Spot::Closes(..) => 2,
        }
    }

    /// Its edges, of which one alone stands twice.
    pub fn edges(&self) -> (usize, usize) {
        match *self {
            Spot::Opens(first, second) => (first, second),
            Spot::Passes(first, second) => (first, second),
            Spot::Closes(first, second) => (first, second),
            Spot::Begins(edge) => (edge, edge),
            Spot::Ends(edge) => (edge, edge),
        }
    }

    /// Whether these are the edges that end, in whichever order.
    pub fn are_ending(&self, edges: &[usize]) -> bool
        ensures { IsTrue result → HasSame edges.now (ending_of self.now) }
    {
        match *self {
            Spot::Opens(_, _) => edges.is_empty(),
            Spot::Begins(_) => edges.is_empty(),
            Spot::Passes(edge, _) => is_single(edges, edge),
            Spot::Ends(edge) => is_single(edges, edge),
            Spot::Closes(first, second) => are_two(edges, first, second),
        }
    }
}

/// Whether a list has these two numbers, in whichever order, and no more.
fn are_two(numbers: &[usize], first: usize, second: usize) -> bool
    ensures { IsTrue result → HasSame numbers.now (first ∷ second ∷ []) }
{
    is_pair(numbers, first, second) || is_pair(numbers, second, first)
}

/// Whether a list has this number alone.
fn is_single(numbers: &[usize], number: usize) -> bool
    ensures { IsTrue result → numbers.now ≡ number ∷ [] }
{
    numbers.len() == 1 && numbers[0] == number
}

/// Whether a list has these two numbers in order, and no more.
fn is_pair(numbers: &[usize], first: usize, second: usize) -> bool
    ensures { IsTrue result → numbers.now ≡ first ∷ second ∷ [] }
{
    if numbers.len() != 2 {
        return false;
    }
    numbers[0] == first && numbers[1] == second
}

/// What is at a vertex; None where no edge is there, or two that begin are on one line.
pub(crate) fn spot_at(points: &[GridPoint], vertex: usize) -> Option<Spot>
    requires lengths { HasLengths points.now }
    requires in_range { vertex < length points.now }
    ensures { IfSome result (IsSpot points.now vertex) }
{
    let Some(before) = edge_to(points, vertex) else {
        let after = edge_from(points, vertex)?;
        return Some(spot_of_one(points, vertex, after));
    };
    let Some(after) = edge_from(points, vertex) else {
        return Some(spot_of_one(points, vertex, before));
    };
    spot_of_two(points, vertex, before, after)
}

/// The edge that leads to a vertex.
fn edge_to(points: &[GridPoint], vertex: usize) -> Option<usize>
    requires { vertex < length points.now }
    ensures { MatchOption result
        ((i : ℕ) → i + 1 < length points.now → ¬ (LeadsTo points.now vertex i))
        (λ edge. (edge + 1 < length points.now) × LeadsTo points.now vertex edge
        × ((i : ℕ) → i + 1 < length points.now → LeadsTo points.now vertex i → i ≡ edge)) }
{
    if vertex > 0 {
        return Some(vertex - 1);
    }
    if points.len() < 2 {
        return None;
    }
    let last = points.len() - 2;
    if closes_ring(points, last) {
        Some(last)
    } else {
        None
    }
}

/// The edge that leads from a vertex.
fn edge_from(points: &[GridPoint], vertex: usize) -> Option<usize>
    requires { vertex < length points.now }
    ensures { MatchOption result (¬ (vertex + 1 < length points.now)) (λ edge. (edge ≡ vertex) × (vertex + 1 < length points.now)) }
{
    if vertex + 1 < points.len() {
        Some(vertex)
    } else {
        None
    }
}

/// Two edges at a vertex; None where both begin and are on one line.
fn spot_of_two(points: &[GridPoint], vertex: usize, first: usize, second: usize) -> Option<Spot>
    requires lengths { HasLengths points.now }
    requires in_range { vertex < length points.now }
    requires edges { AreAtVertex points.now vertex (first ∷ second ∷ []) }
    ensures { IfSome result (IsSpot points.now vertex) }
{
    match (
        ends_at(points, first, vertex),
        ends_at(points, second, vertex),
    ) {
        (true, true) => Some(Spot::Closes(first, second)),
        (true, false) => Some(Spot::Passes(first, second)),
        (false, true) => Some(Spot::Passes(second, first)),
        (false, false) => fan_of(points, vertex, first, second),
    }
}

/// Two edges that begin at a vertex; None where they are on one line.
fn fan_of(points: &[GridPoint], vertex: usize, first: usize, second: usize) -> Option<Spot>
    requires in_range { vertex < length points.now }
    requires edges { AreAtVertex points.now vertex (first ∷ second ∷ []) }
    requires first_begins { BeginsAt points.now vertex first }
    requires second_begins { BeginsAt points.now vertex second }
    ensures { IfSome result (IsSpot points.now vertex) }
{
    if is_left_of(points, second, first) {
        Some(Spot::Opens(first, second))
    } else if is_left_of(points, first, second) {
        Some(Spot::Opens(second, first))
    } else {
        None
    }
}

/// One edge at a vertex.
fn spot_of_one(points: &[GridPoint], vertex: usize, edge: usize) -> Spot
    requires lengths { HasLengths points.now }
    requires in_range { vertex < length points.now }
    requires edges { AreAtVertex points.now vertex (edge ∷ []) }
    ensures { IsSpot points.now vertex result }
{
    if ends_at(points, edge, vertex) {
        Spot::Ends(edge)
    } else {
        Spot::Begins(edge)
    }
}

/// Whether an edge at a vertex ends there, or else begins there.
fn ends_at(points: &[GridPoint], edge: usize, vertex: usize) -> bool
    requires in_range { vertex < length points.now }
    requires edge_in { edge + 1 < length points.now }
    requires there { IsAtVertex points.now vertex edge }
    ensures ends { IsTrue result → EndsAt points.now vertex edge }
    ensures begins { result ≡ false → BeginsAt points.now vertex edge }
{
    let (_, right) = ends(points, edge);
    right == points[vertex]
}
