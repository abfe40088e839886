//! Nodes over edges, made in one pass.

ghost use Rattle.std.specs.Prelude.{◌≡◌, ◌≤◌, ◌<◌, ℕ, List, IfOk, IfSome, IsTrue, OnOk, length, take};
ghost use Rattle.sf_grid.specs.Plane.{Coordinates};
ghost use Rattle.sf_edge_tree.specs.Boxes.{covers, extent_at_edge};
ghost use Rattle.sf_edge_tree.specs.Nodes.{AreNodes, IsOver, IsRun, IsTree, end_of};

use crate::boxes::{Edge, box_of, joined};
use crate::node::Node;
use sf_geometry::Extent;
use std::alloc::{AllocError, Global};

/// How many edges, and how many nodes of one height, have a box together.
pub(crate) const RUN: usize = 8;

/// How many levels there are at most. Of more edges the highest nodes stay side by side.
const LEVELS: usize = 16;

/// The nodes of edges: a run of edges each, and a node over each `RUN` nodes of one height.
pub(crate) fn nodes_of(alloc: Global, edges: &[Edge]) -> Result<Vec<Node>, AllocError>
    ensures { IfOk result (λ nodes. IsTree edges.now nodes.items) }
{
    let mut nodes = Vec::with_capacity(alloc, edges.len() / (RUN - 1) + 1)?;
    let mut start = 0;
    while start < edges.len() {
        let run = run_of(edges, start, nodes.len());
        start = run.end;
        nodes.push(run)?;
        push_over(&mut nodes)?;
    }
    Ok(nodes)
}

/// The run of edges from one on, behind so many nodes.
fn run_of(edges: &[Edge], start: usize, begin: usize) -> Node
    requires { start < length edges.now }
    ensures { IsRun edges.now start begin result }
{
    let end = run_end(start, edges.len());
    let extent = extent_of(edges, start, end);
    Node {
        extent,
        begin,
        start,
        end,
        height: 0,
    }
}

/// Where the run of edges from one on ends.
fn run_end(start: usize, edge_count: usize) -> usize
    requires { start < edge_count }
    ensures behind { start < result }
    ensures within { result ≤ edge_count }
{
    if edge_count - start > RUN {
        start + RUN
    } else {
        edge_count
    }
}

/// A box that has the boxes of edges.
fn extent_of(edges: &[Edge], start: usize, end: usize) -> Extent
    requires some { start < end }
    requires within { end ≤ length edges.now }
    ensures { (i : ℕ) → start ≤ i → i < end → IsTrue (covers result (extent_at_edge edges.now i)) }
{
    let mut extent = box_of(&edges[start]);
    for edge in start + 1..end {
        extent = joined(extent, box_of(&edges[edge]));
    }
    extent
}

/// Pushes a node over the last ones, as long as `RUN` of one height are the last.
fn push_over(nodes: &mut Vec<Node>) -> Result<(), AllocError>
    ensures tree { OnOk result ((edges : List (Coordinates × Coordinates))
        → AreNodes edges nodes.old.items → AreNodes edges nodes.new.items) }
    ensures end { OnOk result ((edges : List (Coordinates × Coordinates))
        → AreNodes edges nodes.old.items → end_of nodes.new.items ≡ end_of nodes.old.items) }
{
    for _ in 0..LEVELS {
        let Some(node) = node_over(nodes.as_slice()) else {
            break;
        };
        nodes.push(node)?;
    }
    Ok(())
}

/// The node over the last ones, where `RUN` of one height are the last.
fn node_over(nodes: &[Node]) -> Option<Node>
    ensures { IfSome result (λ node. (edges : List (Coordinates × Coordinates))
        → AreNodes edges nodes.now → IsOver edges nodes.now node) }
{
    let (last, _) = nodes.split_last()?;
    let mut node = *last;
    for _ in 1..RUN {
        let (other, _) = front(nodes, node.begin).split_last()?;
        if other.height != last.height {
            return None;
        }
        node.extent = joined(other.extent, node.extent);
        node.begin = other.begin;
        node.start = other.start;
    }
    node.height = last.height.saturating_add(1);
    Some(node)
}

/// The first nodes, at most so many.
pub(crate) fn front(nodes: &[Node], count: usize) -> &[Node]
    ensures { result.now ≡ take count nodes.now }
{
    nodes.get(..count).unwrap_or(nodes)
}
