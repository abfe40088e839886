//! Searches for two edges whose boxes meet.

ghost use Rattle.std.specs.Prelude.{◌≡◌, ◌↔◌, ◌≤◌, ◌<◌, ℕ, IsTrue, length};
ghost use Rattle.sf_edge_tree.specs.Nodes.{AreNodes, HasBoxes, IsTree, end_of};
ghost use Rattle.sf_edge_tree.specs.Ranges.{AreWithin, InRange, IsBelow, IsEarlier};
ghost use Rattle.sf_edge_tree.specs.Searches.{Answers, AreOneOfEach, AreTwoOf, HasPair};

use crate::against::AgainstRun;
use crate::boxes::{Edge, box_of};
use crate::budget::Budget;
use crate::node::Node;
use crate::outcome::Outcome;
use crate::search::{find_near, has_near};
use crate::tests::{PairTest, WithFirst};

/// Whether two edges pass a test whose boxes share a point.
pub(crate) fn find_pair<P: PairTest>(
    edges: &[Edge],
    nodes: &[Node],
    test: &P,
    budget: &Budget,
) -> Outcome
    requires tree { IsTree edges.now nodes.now }
    requires can_test { (i j : ℕ) → i < j → j < length edges.now → P.CanTest test.now i j }
    ensures { Answers (HasPair edges.now edges.now (AreTwoOf edges.now) (P.Passes test.now)) result }
{
    let mut looks = budget.at_first;
    let mut left = nodes;
    while let Some((node, before)) = left.split_last() {
        if node.begin == before.len() {
            looks = looks.saturating_add(budget.for_each_run);
            let outcome = find_pair_at_run(edges, before, node, test, &mut looks);
            if !outcome.is_absent() {
                return outcome;
            }
        }
        left = before;
    }
    Outcome::Absent
}

/// Whether an edge of the one list and one of the other pass a test whose boxes share a point.
pub(crate) fn find_pair_between<P: PairTest>(
    edges: &[Edge],
    nodes: &[Node],
    others: &[Edge],
    other_nodes: &[Node],
    test: &P,
    budget: &Budget,
) -> Outcome
    requires tree { IsTree edges.now nodes.now }
    requires other_tree { IsTree others.now other_nodes.now }
    requires can_test { (i j : ℕ) → i < length edges.now → j < length others.now → P.CanTest test.now i j }
    ensures { Answers (HasPair edges.now others.now (AreOneOfEach edges.now others.now) (P.Passes test.now)) result }
{
    let mut looks = budget.at_first;
    let mut left = other_nodes;
    while let Some((node, before)) = left.split_last() {
        if node.begin == before.len() {
            looks = looks.saturating_add(budget.for_each_run);
            let outcome = find_pair_with_run(edges, nodes, others, node, test, &mut looks);
            if !outcome.is_absent() {
                return outcome;
            }
        }
        left = before;
    }
    Outcome::Absent
}

/// Whether an edge of a run, and one before it, pass a test whose boxes share a point. `before` are the nodes of all
/// edges before the run.
fn find_pair_at_run<P: PairTest>(
    edges: &[Edge],
    before: &[Node],
    run: &Node,
    test: &P,
    looks: &mut usize,
) -> Outcome
    requires tree { AreNodes edges.now before.now }
    requires next { end_of before.now ≡ run.now.start }
    requires run { HasBoxes edges.now run.now }
    requires can_test { (i j : ℕ) → i < j → j < run.now.end → P.CanTest test.now i j }
    ensures { Answers (HasPair edges.now edges.now (InRange IsEarlier run.now.start run.now.end) (P.Passes test.now)) result }
{
    if has_pair_within(edges, run.start, run.end, test, looks) {
        Outcome::Found
    } else {
        find_pair_with_run(edges, before, edges, run, test, looks)
    }
}

/// Whether two edges of a range pass a test whose boxes share a point.
fn has_pair_within<P: PairTest>(
    edges: &[Edge],
    start: usize,
    end: usize,
    test: &P,
    looks: &mut usize,
) -> bool
    requires within { end ≤ length edges.now }
    requires can_test { (i j : ℕ) → start ≤ i → i < j → j < end → P.CanTest test.now i j }
    ensures { IsTrue result ↔ HasPair edges.now edges.now (AreWithin start end) (P.Passes test.now) }
{
    for first in start..end {
        if has_near(
            edges,
            first + 1,
            end,
            box_of(&edges[first]),
            &WithFirst { first, test },
            looks,
        ) {
            return true;
        }
    }
    false
}

/// Whether an edge below some nodes, and one of a run of others, pass a test whose boxes share a point.
fn find_pair_with_run<P: PairTest>(
    edges: &[Edge],
    nodes: &[Node],
    others: &[Edge],
    run: &Node,
    test: &P,
    looks: &mut usize,
) -> Outcome
    requires tree { AreNodes edges.now nodes.now }
    requires few { end_of nodes.now ≤ length edges.now }
    requires run { HasBoxes others.now run.now }
    requires can_test { (i j : ℕ) → i < end_of nodes.now → run.now.start ≤ j → j < run.now.end → P.CanTest test.now i j }
    ensures { Answers (HasPair edges.now others.now (InRange (IsBelow (end_of nodes.now)) run.now.start run.now.end)
        (P.Passes test.now)) result }
{
    let against = AgainstRun {
        edges,
        others,
        start: run.start,
        end: run.end,
        test,
    };
    find_near(edges, nodes, run.extent, &against, looks)
}
