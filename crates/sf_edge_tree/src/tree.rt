ghost use Rattle.std.specs.Prelude.{◌≡◌, ◌<◌, ℕ, IfOk, length};
ghost use Rattle.std.specs.List.{filter, list_any};
ghost use Rattle.sf_geometry.specs.Envelope.{extents_meet};
ghost use Rattle.sf_edge_tree.specs.Boxes.{extent_of_edge};
ghost use Rattle.sf_edge_tree.specs.Searches.{Answers, AreOneOfEach, AreTwoOf, HasNear, HasPair};

use crate::boxes::Edge;
use crate::budget::Budget;
use crate::near::{has_any_near, near};
use crate::node::Node;
use crate::nodes::nodes_of;
use crate::outcome::Outcome;
use crate::pairs::{find_pair, find_pair_between};
use crate::search::find_near;
use crate::tests::{EdgeTest, PairTest};
use sf_geometry::Extent;
use sf_grid::GridPoint;
use std::alloc::{AllocError, Global};
use std::marker::Model;

/// Edges in the order in which they stand, with boxes over runs of them. Contracts see the edges.
#[derive(Debug, Drop)]
pub struct EdgeTree {
    edges: Vec<Edge>,
    nodes: Vec<Node>,
}

impl Model for EdgeTree {
    ghost use Rattle.std.specs.Prelude.{List};
    ghost use Rattle.sf_grid.specs.Plane.{Coordinates};
    ghost use Rattle.sf_edge_tree.specs.Nodes.{IsTree};

    ghost Value = { List (Coordinates × Coordinates) };

    ghost view = { λ t. t.edges.items };

    ghost invariant = { λ t. IsTree t.edges.items t.nodes.items };
}

impl EdgeTree {
    /// The tree of edges, each given by its ends. Those that are near one another should stand near one another, as
    /// along a line or ring.
    ///
    /// # Errors
    ///
    /// Out of memory alone.
    pub fn new(alloc: Global, edges: Vec<Edge>) -> Result<EdgeTree, AllocError>
        ensures { IfOk result (λ tree. tree ≡ edges.items) }
    {
        let nodes = nodes_of(alloc, edges.as_slice())?;
        Ok(EdgeTree { edges, nodes })
    }

    /// The edges, in the order in which they stand.
    pub fn edges(&self) -> &[(GridPoint, GridPoint)]
        ensures { result.now ≡ self.now }
    {
        self.edges.as_slice()
    }

    /// The edges whose boxes share a point with a box, in the order in which they stand.
    ///
    /// # Errors
    ///
    /// Out of memory alone.
    pub fn near(
        &self,
        alloc: Global,
        extent: Extent,
    ) -> Result<Vec<(GridPoint, GridPoint)>, AllocError>
        ensures { IfOk result (λ near.
            near.items ≡ filter (λ edge. extents_meet (extent_of_edge edge) extent) self.now) }
    {
        near(alloc, self.edges.as_slice(), self.nodes.as_slice(), extent)
    }

    /// Whether the box of an edge shares a point with a box.
    pub fn has_near(&self, extent: Extent) -> bool
        ensures { result ≡ list_any (λ edge. extents_meet (extent_of_edge edge) extent) self.now }
    {
        has_any_near(self.edges.as_slice(), self.nodes.as_slice(), extent)
    }

    /// Whether an edge passes a test whose box shares a point with a box. Each box that is looked at takes one of the looks;
    /// where they are used up the search gives up.
    pub fn find_near<T: EdgeTest>(&self, extent: Extent, test: &T, looks: &mut usize) -> Outcome
        requires { (i : ℕ) → i < length self.now → T.CanTest test.now i }
        ensures { Answers (HasNear self.now extent 0 (length self.now) (T.Passes test.now)) result }
    {
        find_near(
            self.edges.as_slice(),
            self.nodes.as_slice(),
            extent,
            test,
            looks,
        )
    }

    /// Whether two edges pass a test whose boxes share a point, the first of them standing before the second.
    pub fn find_pair<P: PairTest>(&self, test: &P, budget: &Budget) -> Outcome
        requires { (i j : ℕ) → i < j → j < length self.now → P.CanTest test.now i j }
        ensures { Answers (HasPair self.now self.now (AreTwoOf self.now) (P.Passes test.now)) result }
    {
        find_pair(self.edges.as_slice(), self.nodes.as_slice(), test, budget)
    }

    /// Whether an edge of this tree, and one of another, pass a test whose boxes share a point.
    pub fn find_pair_with<P: PairTest>(
        &self,
        other: &EdgeTree,
        test: &P,
        budget: &Budget,
    ) -> Outcome
        requires { (i j : ℕ) → i < length self.now → j < length other.now → P.CanTest test.now i j }
        ensures { Answers (HasPair self.now other.now (AreOneOfEach self.now other.now) (P.Passes test.now)) result }
    {
        find_pair_between(
            self.edges.as_slice(),
            self.nodes.as_slice(),
            other.edges.as_slice(),
            other.nodes.as_slice(),
            test,
            budget,
        )
    }
}
