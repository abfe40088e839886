//! The edges near a box, without a look at those below a box that is apart.

ghost use Rattle.std.specs.Prelude.{◌≡◌, ◌≤◌, ◌-◌, ◌++◌, [], IfNone, IfOk, IfSome, OnOk, drop, length, reverse, take};
ghost use Rattle.std.specs.List.{list_any};
ghost use Rattle.sf_geometry.specs.Envelope.{extents_meet};
ghost use Rattle.sf_edge_tree.specs.Boxes.{extent_of_edge};
ghost use Rattle.sf_edge_tree.specs.Near.{IsLastRun, near as near_of, near_below};
ghost use Rattle.sf_edge_tree.specs.Nodes.{AreNodes, IsTree};

use crate::boxes::{Edge, box_of};
use crate::node::Node;
use crate::nodes::front;
use sf_geometry::Extent;
use std::alloc::{AllocError, Global};

/// The edges whose boxes share a point with a box, in order. The nodes are gone through from the last one on, so the edges
/// are gathered from the last one on, and reversed once.
pub(crate) fn near(
    alloc: Global,
    edges: &[Edge],
    nodes: &[Node],
    extent: Extent,
) -> Result<Vec<Edge>, AllocError>
    requires { IsTree edges.now nodes.now }
    ensures { IfOk result (λ near. near.items ≡ near_of extent edges.now) }
{
    let mut found = Vec::new(alloc);
    let mut left = nodes;
    while let Some((run, before)) = last_run_near(edges, left, extent) {
        push_near(&mut found, run, extent)?;
        left = before;
    }
    found.as_mut_slice().reverse();
    Ok(found)
}

/// Whether the box of an edge shares a point with a box.
pub(crate) fn has_any_near(edges: &[Edge], nodes: &[Node], extent: Extent) -> bool
    requires { IsTree edges.now nodes.now }
    ensures { result ≡ list_any (λ edge. extents_meet (extent_of_edge edge) extent) edges.now }
{
    let mut left = nodes;
    while let Some((run, before)) = last_run_near(edges, left, extent) {
        if is_any_near(run, extent) {
            return true;
        }
        left = before;
    }
    false
}

/// The last run of edges below some nodes whose box shares a point with a box, and the nodes before it.
fn last_run_near<'a>(
    edges: &'a [Edge],
    nodes: &'a [Node],
    extent: Extent,
) -> Option<(&'a [Edge], &'a [Node])>
    requires { AreNodes edges.now nodes.now }
    ensures some { IfSome result (λ found. IsLastRun edges.now nodes.now extent found.0.now found.1.now) }
    ensures none { IfNone result (near_below edges.now extent nodes.now ≡ []) }
{
    let mut left = nodes;
    while let Some((node, before)) = left.split_last() {
        if !node.extent.meets(extent) {
            left = front(before, node.begin);
            continue;
        }
        if node.begin == before.len() {
            return Some((range(edges, node.start, node.end), before));
        }
        left = before;
    }
    None
}

/// The edges with a number from `start` on and below `end`.
fn range(edges: &[Edge], start: usize, end: usize) -> &[Edge]
    requires in_order { start ≤ end }
    requires within { end ≤ length edges.now }
    ensures { result.now ≡ take (end - start) (drop start edges.now) }
{
    &edges[start..end]
}

/// Pushes the edges of a run that are near a box, from the last one on.
fn push_near(found: &mut Vec<Edge>, run: &[Edge], extent: Extent) -> Result<(), AllocError>
    ensures { OnOk result (found.new.items ≡ found.old.items ++ reverse (near_of extent run.now)) }
{
    let mut left = run;
    while let Some((edge, before)) = left.split_last() {
        if box_of(edge).meets(extent) {
            found.push(*edge)?;
        }
        left = before;
    }
    Ok(())
}

/// Whether the box of an edge of a run shares a point with a box.
fn is_any_near(run: &[Edge], extent: Extent) -> bool
    ensures { result ≡ list_any (λ edge. extents_meet (extent_of_edge edge) extent) run.now }
{
    run.iter().any(|edge| box_of(edge).meets(extent))
}
