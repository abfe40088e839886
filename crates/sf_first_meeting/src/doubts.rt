//! Which two edges seem to meet, where a sweep can't go on. The caller looks, so nothing is promised.

ghost use Rattle.std.specs.Prelude.{◌≤◌, length};
ghost use Rattle.sf_first_meeting.specs.Numbered.{HasLengths};

use crate::apart::share_ends;
use crate::doubt::Doubt;
use crate::spot::Spot;
use crate::vertices::Vertex;
use sf_grid::GridPoint;

/// The two edges at a vertex.
pub(crate) fn doubt_at(points: &[GridPoint], vertex: usize) -> Doubt {
    if vertex > 0 {
        Doubt::Pair(vertex - 1, vertex)
    } else {
        Doubt::Pair(0, points.len().saturating_sub(2))
    }
}

/// Two of the edges at a vertex and of those about its place in the order.
pub(crate) fn doubt_near(points: &[GridPoint], active: &[usize], from: usize, spot: &Spot) -> Doubt
    requires lengths { HasLengths points.now }
    requires within { from ≤ length active.now }
{
    let (_, behind) = active.split_at(from.saturating_sub(1));
    let near = behind.split_at(behind.len().min(4)).0;
    let (first, second) = spot.edges();
    if let Some(doubt) = doubt_between(points, first, &[second]) {
        return doubt;
    }
    if let Some(doubt) = doubt_between(points, first, near) {
        return doubt;
    }
    if let Some(doubt) = doubt_between(points, second, near) {
        return doubt;
    }
    for edge in near {
        if let Some(doubt) = doubt_between(points, *edge, near) {
            return doubt;
        }
    }
    Doubt::Open
}

/// An edge and the first of some others with which it shares more than ends.
fn doubt_between(points: &[GridPoint], edge: usize, others: &[usize]) -> Option<Doubt>
    requires { HasLengths points.now }
{
    for other in others {
        if edge != *other && !share_ends(points, edge, *other) {
            return Some(Doubt::Pair(edge.min(*other), edge.max(*other)));
        }
    }
    None
}

/// An edge from a point that stands twice, and the one that leads to it again.
pub(crate) fn doubt_of_repeated(vertices: &[Vertex]) -> Doubt {
    for next in 1..vertices.len() {
        let before = vertices[next - 1];
        let after = vertices[next];
        if before.at == after.at {
            let first = before.number.min(after.number);
            let second = before.number.max(after.number);
            return Doubt::Pair(first, second.saturating_sub(1));
        }
    }
    Doubt::Open
}
