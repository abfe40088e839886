ghost use Rattle.std.specs.Prelude.{◌≡◌, ◌≢◌, map, not, is_some, IfOk, IfSome, IsFalse, IsTrue, false, true};
ghost use Rattle.std.specs.List.{AllByRecursion, list_any};
ghost use Rattle.sf_grid.specs.Edge.{on_edge};
ghost use Rattle.sf_grid.specs.EvenOdd.{edges_above, is_odd};
ghost use Rattle.sf_grid.specs.Plane.{grid_point};
ghost use Rattle.sf_geometry.specs.Envelope.{envelope_of};
ghost use Rattle.sf_geometry.specs.Parts.{edge_of, edges_of};
ghost use Rattle.sf_valid_rules.specs.Validity.{IsValid};
ghost use Rattle.sf_validity.specs.Held.{IsHeld};
ghost use Rattle.sf_relate.specs.declared.place.Place.TheVariants.{Boundary};
ghost use Rattle.sf_relate.specs.declared.shape.Shape.TheVariants.{Areas, Lines, Points};
ghost use Rattle.sf_relate.specs.Locating.{area_place};
ghost use Rattle.sf_relate.specs.Matrices.{matrix_of};
ghost use Rattle.sf_relate.specs.Places.{IsPlaceOf, shape_of};
ghost use Rattle.sf_prepared.specs.Boxes.{AreEdgesOf, AreOnGrid, is_box_met};
ghost use Rattle.sf_prepared.specs.Nearby.{nearby};
ghost use Rattle.sf_prepared.specs.Places.{AreClear};

use crate::beside::all_miss;
use crate::nearby::{columns_over, has_odd_above, walked_nearby};
use sf_edge_tree::EdgeTree;
use sf_geometry::{Extent, Geometry};
use sf_grid::GridPoint;
use sf_relate::{Matrix, Place, locate, matrix_apart, matrix_within};
use sf_validity::Valid;
use std::alloc::{AllocError, Global};
use std::marker::Model;

/// How many edges there are at most where none are left out: to pick those nearby saves nothing.
const FEW_EDGES: usize = 16;

/// What is made once of a geometry that many others are asked about: its edges, with boxes over runs of them.
/// Contracts see it as the edges' ends.
#[derive(Drop)]
pub struct Prepared {
    edges: EdgeTree,
}

impl Model for Prepared {
    ghost use Rattle.std.specs.Prelude.{List};
    ghost use Rattle.sf_grid.specs.Plane.{Coordinates};

    ghost Value = { List (Coordinates × Coordinates) };

    ghost view = { λ a. a.edges };
}

impl Prepared {
    /// Prepares a geometry.
    pub fn new(alloc: Global, given: &Valid) -> Result<Prepared, AllocError>
        ensures { IfOk result (AreEdgesOf given.now) }
    {
        let edges = given.geometry().edges(alloc)?;
        let tree = EdgeTree::new(alloc, edges)?;
        Ok(Prepared { edges: tree })
    }

    /// The matrix of a geometry with the one that was prepared, where no edge of that one has a point of the geometry's box: its
    /// place shows it. None where an edge has one, or it takes more to see that none has, and where points were prepared; never
    /// where the boxes of all edges are off the box of the geometry, and there are edges.
    pub fn matrix_clear(&self, alloc: Global, geometry: &Valid, given: &Valid) -> Option<Matrix>
        requires { AreEdgesOf given.now self.now }
        ensures holds { IfSome result (λ matrix. matrix.0 ≡ matrix_of geometry.now given.now) }
        ensures answers { IsFalse (is_box_met (envelope_of geometry.now) self.now) → shape_of given.now ≢ Points →
            is_some result ≡ true }
    {
        let extent = geometry.geometry().envelope();
        if !self.is_clear(alloc, &extent) {
            return None;
        }
        self.matrix_by_place(alloc, geometry, given, extent)
    }

    /// Whether no edge has a point of the box, as boxes show, or else the edges whose boxes are in the way.
    fn is_clear(&self, alloc: Global, extent: &Extent) -> bool
        ensures clear { IsTrue result → AreClear extent.now (map edge_of self.now) }
        ensures boxes { IsFalse (is_box_met extent.now self.now) → result ≡ true }
    {
        self.has_no_box(extent) || self.is_missed(alloc, extent)
    }

    /// Whether no edge's box shares a point with the box.
    fn has_no_box(&self, extent: &Extent) -> bool
        ensures clear { IsTrue result → AreClear extent.now (map edge_of self.now) }
        ensures boxes { result ≡ not (is_box_met extent.now self.now) }
    {
        !self.edges.has_near(*extent)
    }

    /// Whether each edge whose box is in the way misses the box. Where no memory is found nothing is known.
    fn is_missed(&self, alloc: Global, extent: &Extent) -> bool
        ensures { IsTrue result → AreClear extent.now (map edge_of self.now) }
    {
        let edges = self.edges.edges();
        if edges.len() <= FEW_EDGES {
            return all_miss(edges, extent);
        }
        match self.edges.near(alloc, *extent) {
            Ok(near) => all_miss(near.as_slice(), extent),
            Err(_) => false,
        }
    }

    /// The matrix of a geometry with the one that was prepared, of which no edge has a point of the other
    /// one's box, `extent`, where that one has edges.
    fn matrix_by_place(
        &self,
        alloc: Global,
        geometry: &Valid,
        given: &Valid,
        extent: Extent,
    ) -> Option<Matrix>
        requires edges { AreEdgesOf given.now self.now }
        requires valid { IsValid geometry.now }
        requires extent { extent ≡ envelope_of geometry.now }
        requires clear { AreClear extent (map edge_of self.now) }
        ensures holds { IfSome result (λ matrix. matrix.0 ≡ matrix_of geometry.now given.now) }
        ensures answers { shape_of given.now ≢ Points → is_some result ≡ true }
    {
        match given.geometry() {
            Geometry::Point(_) | Geometry::MultiPoint(_) => None,
            Geometry::LineString(_) | Geometry::MultiLineString(_) => {
                Some(apart_from_lines(geometry, given, extent))
            }
            Geometry::Polygon(_) | Geometry::MultiPolygon(_) => {
                self.matrix_by_point(alloc, geometry, given, extent)
            }
        }
    }

    /// The matrix of a geometry with an area of which no edge has a point of its box, `extent`: the place of
    /// its first point is that of the whole box.
    fn matrix_by_point(
        &self,
        alloc: Global,
        geometry: &Valid,
        given: &Valid,
        extent: Extent,
    ) -> Option<Matrix>
        requires edges { AreEdgesOf given.now self.now }
        requires valid { IsValid geometry.now }
        requires held { IsHeld given.now }
        requires extent { extent ≡ envelope_of geometry.now }
        requires clear { AreClear extent (edges_of given.now) }
        requires area { shape_of given.now ≡ Areas }
        ensures holds { IfSome result (λ matrix. matrix.0 ≡ matrix_of geometry.now given.now) }
        ensures answers { is_some result ≡ true }
    {
        let Some(first) = geometry.geometry().vertex(0, 0, 0) else {
            return None;
        };
        match self.place_of(alloc, given, first) {
            Place::Interior => Some(matrix_within(geometry, given)),
            Place::Exterior => Some(matrix_apart(geometry, given)),
            // No edge has a point of the box.
            Place::Boundary => None,
        }
    }

    /// The place in an area of a point that no edge of it has: by the edges above, or by all of them where no
    /// memory is found.
    fn place_of(&self, alloc: Global, given: &Valid, point: GridPoint) -> Place
        requires edges { AreEdgesOf given.now self.now }
        requires held { IsHeld given.now }
        requires area { shape_of given.now ≡ Areas }
        requires off { IsFalse (list_any (λ e. on_edge e (grid_point point)) (edges_of given.now)) }
        ensures place { IsPlaceOf given.now (grid_point point) result }
        ensures off { result ≢ Boundary }
    {
        match self.is_odd_above(alloc, point) {
            Ok(odd) => place_by_parity(odd),
            Err(_) => locate(given, point),
        }
    }

    /// Whether an odd number of the edges is above the point. No other one than those nearby can be.
    fn is_odd_above(&self, alloc: Global, point: GridPoint) -> Result<bool, AllocError>
        requires { AllByRecursion AreOnGrid self.now }
        ensures { IfOk result (λ odd.
            odd ≡ is_odd (edges_above (grid_point point) (map edge_of self.now))) }
    {
        let edges = self.edges.edges();
        if edges.len() <= FEW_EDGES {
            return Ok(has_odd_above(edges, point));
        }
        let near = self.nearby(alloc, &Extent::at(point))?;
        Ok(has_odd_above(near.as_slice(), point))
    }

    /// The edges in the columns over a box, from its lower side up, in order.
    fn nearby(
        &self,
        alloc: Global,
        extent: &Extent,
    ) -> Result<Vec<(GridPoint, GridPoint)>, AllocError>
        ensures { IfOk result (λ near. near.items ≡ nearby extent.now self.now) }
    {
        self.edges.near(alloc, columns_over(extent))
    }

    /// The matrix of a geometry with the one that was prepared, by a walk over the edges that can be on a point of
    /// the geometry or above one. None where that one is no area or has few edges, where many edges are near or none of
    /// these leaves the geometry's box, and where no memory is found.
    pub fn matrix_nearby(&self, alloc: Global, geometry: &Valid, given: &Valid) -> Option<Matrix>
        requires { AreEdgesOf given.now self.now }
        ensures { IfSome result (λ matrix. matrix.0 ≡ matrix_of geometry.now given.now) }
    {
        if self.edges.edges().len() <= FEW_EDGES {
            return None;
        }
        match given.geometry() {
            Geometry::Polygon(_) | Geometry::MultiPolygon(_) => {
                let extent = geometry.geometry().envelope();
                let Ok(edges) = self.nearby(alloc, &extent) else {
                    return None;
                };
                walked_nearby(alloc, geometry, given, &extent, edges.as_slice())
            }
            _ => None,
        }
    }
}

/// The place in an area of a point that no edge of it has, by whether an odd number of them is above.
fn place_by_parity(odd: bool) -> Place
    ensures { result ≡ area_place false odd }
{
    if odd {
        Place::Interior
    } else {
        Place::Exterior
    }
}

/// The matrix of a geometry with lines that have no point of its box, `extent`.
fn apart_from_lines(geometry: &Valid, given: &Valid, extent: Extent) -> Matrix
    requires valid { IsValid geometry.now }
    requires valid_given { IsValid given.now }
    requires extent { extent ≡ envelope_of geometry.now }
    requires clear { AreClear extent (edges_of given.now) }
    requires lines { shape_of given.now ≡ Lines }
    ensures { result.0 ≡ matrix_of geometry.now given.now }
{
    matrix_apart(geometry, given)
}
