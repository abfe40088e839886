//! Whether one of a few edges of a geometry lies in an edge of another.

ghost use Rattle.std.specs.Prelude.{◌≡◌, IfOk, IsTrue};
ghost use Rattle.std.specs.List.{list_any};
ghost use Rattle.sf_along.specs.Along.{RunAlong};
ghost use Rattle.sf_along.specs.Covers.{has_edge};
ghost use Rattle.sf_geometry.specs.Parts.{edge_of};

use sf_geometry::Geometry;
use sf_grid::GridPoint;
use sf_grid::edges::on_edge;
use std::alloc::{AllocError, Global};

/// How many edges a geometry has at least for a few of them to be tried by themselves: fewer are sorted as soon.
const MANY_EDGES: usize = 256;

/// How many edges these are.
const FEW_EDGES: usize = 16;

/// Whether one of the first few of many edges of a geometry lies in an edge of another.
pub(crate) fn has_edge_within(alloc: Global, a: &Geometry, b: &Geometry) -> Result<bool, AllocError>
    ensures { IfOk result (λ told. IsTrue told → RunAlong a.now b.now) }
{
    let first = a.edges(alloc)?;
    if first.len() < MANY_EDGES {
        return Ok(false);
    }
    let second = b.edges(alloc)?;
    Ok(lies_one_in(&first.as_slice()[..FEW_EDGES], second.as_slice()))
}

/// Whether one of some edges lies in one of others.
fn lies_one_in(edges: &[(GridPoint, GridPoint)], others: &[(GridPoint, GridPoint)]) -> bool
    ensures { result ≡ list_any (λ edge. list_any (λ other. has_edge (edge_of other) (edge_of edge)) others.now) edges.now }
{
    edges.iter().any(|edge| lies_in_one(edge, others))
}

/// Whether an edge lies in one of others.
fn lies_in_one(edge: &(GridPoint, GridPoint), others: &[(GridPoint, GridPoint)]) -> bool
    ensures { result ≡ list_any (λ other. has_edge (edge_of other) (edge_of edge.now)) others.now }
{
    others.iter().any(|other| has_edge(other, edge))
}

/// Whether an edge has both ends of another, and so all of it.
fn has_edge(edge: &(GridPoint, GridPoint), other: &(GridPoint, GridPoint)) -> bool
    ensures { result ≡ has_edge (edge_of edge.now) (edge_of other.now) }
{
    on_edge(other.0, edge.0, edge.1) && on_edge(other.1, edge.0, edge.1)
}
