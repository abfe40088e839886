//! Searches among edges, which pass over those below a box that is apart.

ghost use Rattle.std.specs.Prelude.{◌≡◌, ◌↔◌, ◌≤◌, ◌<◌, ℕ, IsTrue, length};
ghost use Rattle.sf_edge_tree.specs.Boxes.{extent_at_edge};
ghost use Rattle.sf_edge_tree.specs.Nodes.{AreNodes, end_of};
ghost use Rattle.sf_edge_tree.specs.Searches.{Answers, HasNear};

use crate::boxes::{Edge, box_of};
use crate::node::Node;
use crate::nodes::front;
use crate::outcome::Outcome;
use crate::tests::EdgeTest;
use sf_geometry::Extent;

/// Whether an edge with a number in a range, whose box shares a point with a box, passes a test. Each edge takes one of
/// the looks.
pub(crate) fn has_near<T: EdgeTest>(
    edges: &[Edge],
    start: usize,
    end: usize,
    extent: Extent,
    test: &T,
    looks: &mut usize,
) -> bool
    requires within { end ≤ length edges.now }
    requires can_test { (i : ℕ) → start ≤ i → i < end → T.CanTest test.now i }
    ensures { IsTrue result ↔ HasNear edges.now extent start end (T.Passes test.now) }
{
    *looks = looks.saturating_sub(end.saturating_sub(start));
    for edge in start..end {
        if box_of(&edges[edge]).meets(extent) && test.test(edge, looks) {
            return true;
        }
    }
    false
}

/// Whether an edge below some nodes, whose box shares a point with a box, passes a test. Each node takes one of the looks,
/// and each edge of a run whose box shares a point with the box.
pub(crate) fn find_near<T: EdgeTest>(
    edges: &[Edge],
    nodes: &[Node],
    extent: Extent,
    test: &T,
    looks: &mut usize,
) -> Outcome
    requires tree { AreNodes edges.now nodes.now }
    requires can_test { (i : ℕ) → i < end_of nodes.now → T.CanTest test.now i }
    ensures { Answers (HasNear edges.now extent 0 (end_of nodes.now) (T.Passes test.now)) result }
{
    let mut left = nodes;
    while let Some((node, before)) = left.split_last() {
        if *looks == 0 {
            return Outcome::GaveUp;
        }
        *looks -= 1;
        if !node.extent.meets(extent) {
            left = front(before, node.begin);
            continue;
        }
        if node.begin == before.len() {
            if has_near(edges, node.start, node.end, extent, test, looks) {
                return Outcome::Found;
            }
        }
        left = before;
    }
    Outcome::Absent
}
