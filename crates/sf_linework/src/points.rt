//! What the places of the points of a MultiPoint show of its matrix with lines.

ghost use Rattle.std.specs.Prelude.{◌≡◌, IfOk, IfSome, IsTrue, map};
ghost use Rattle.std.specs.List.{list_any};
ghost use Rattle.sf_geometry.specs.Lists.{ends_of as ends_of_line, is_same};
ghost use Rattle.sf_geometry.specs.Parts.{edge_of, edges_of, ends_of};
ghost use Rattle.sf_grid.specs.Edge.{on_edge as on_edge_of};
ghost use Rattle.sf_grid.specs.Plane.{grid_point};
ghost use Rattle.sf_known.specs.Known.{Holds};
ghost use Rattle.sf_linework.specs.Ends.{is_lines as is_lines_of};
ghost use Rattle.sf_linework.specs.Points.{interior_row, is_points, known_by_points, known_of_points, seen_points};
ghost use Rattle.sf_relate.specs.Matrices.{matrix_of};
ghost use Rattle.sf_relate.specs.Places.{IsPlaceOf};

use super::ends::{Seen, if_seen, is_lines};
use sf_edge_tree::EdgeTree;
use sf_geometry::{Extent, Geometry, Sequence, line_ends};
use sf_grid::GridPoint;
use sf_grid::edges::on_edge;
use sf_known::Known;
use sf_plane::Dim::{Nothing, Two};
use sf_relate::{Place, locate};
use sf_validity::Valid;
use std::alloc::{AllocError, Global};

/// What the places of the points of a MultiPoint show of its matrix with lines: where its interior is, which is all of it. None of
/// other geometries, and where no memory is found.
pub fn known_by_points(alloc: Global, a: &Valid, b: &Valid) -> Option<Known>
    ensures holds { IfSome result (λ known. Holds known (matrix_of a.now b.now)) }
    ensures value { IfSome result (λ known. known ≡ known_by_points a.now b.now) }
{
    if is_lines(b) {
        return known_by_own_points(alloc, a, b);
    }
    if is_lines(a) {
        let known = known_by_own_points(alloc, b, a)?;
        return Some(known.transposed());
    }
    None
}

/// What the places of the points of the first one in lines show of the row of its interior, where it is a MultiPoint.
fn known_by_own_points(alloc: Global, given: &Valid, lines: &Valid) -> Option<Known>
    requires { IsTrue (is_lines_of lines.now) }
    ensures points { IfSome result (λ known. IsTrue (is_points given.now)) }
    ensures value { IfSome result (λ known. known ≡ interior_row (matrix_of given.now lines.now)) }
{
    match given.geometry() {
        Geometry::MultiPoint(points) => known_of_places(alloc, points.as_slice(), lines),
        _ => None,
    }
}

/// What the places of points in lines show.
fn known_of_places(alloc: Global, points: &[GridPoint], lines: &Valid) -> Option<Known>
    requires { IsTrue (is_lines_of lines.now) }
    ensures { IfSome result (λ known. known ≡ known_of_points (seen_points lines.now points.now)) }
{
    let tree = tree_of(alloc, lines).ok()?;
    let seen = seen_by_points(alloc, &tree, lines, points).ok()?;
    Some(known_of_points(seen))
}

/// In which places of lines points are, by the tree of their edges. Where they are in all, no further point tells more.
fn seen_by_points(
    alloc: Global,
    tree: &EdgeTree,
    lines: &Valid,
    points: &[GridPoint],
) -> Result<Seen, AllocError>
    requires lines { IsTrue (is_lines_of lines.now) }
    requires tree { map edge_of tree.now ≡ edges_of lines.now }
    ensures { IfOk result (λ seen. seen ≡ seen_points lines.now points.now) }
{
    let mut seen = Seen::none();
    for point in points {
        seen = seen.or(Seen::at(place_by(alloc, tree, lines, *point)?));
        if seen.is_all() {
            return Ok(seen);
        }
    }
    Ok(seen)
}

/// The tree of the edges of lines.
fn tree_of(alloc: Global, lines: &Valid) -> Result<EdgeTree, AllocError>
    ensures { IfOk result (λ tree. map edge_of tree ≡ edges_of lines.now) }
{
    let edges = lines.geometry().edges(alloc)?;
    EdgeTree::new(alloc, edges)
}

/// The place of a point in lines. Where no edge near it has it, it is off them. Else it is inside of them, unless lines end there.
fn place_by(
    alloc: Global,
    tree: &EdgeTree,
    lines: &Valid,
    point: GridPoint,
) -> Result<Place, AllocError>
    requires lines { IsTrue (is_lines_of lines.now) }
    requires tree { map edge_of tree.now ≡ edges_of lines.now }
    ensures { IfOk result (λ place. IsPlaceOf lines.now (grid_point point) place) }
{
    let near = tree.near(alloc, Extent::at(point))?;
    if !is_on_one(near.as_slice(), point) {
        return Ok(Place::Exterior);
    }
    if is_end_of(lines, point) {
        return Ok(locate(lines, point));
    }
    Ok(Place::Interior)
}

/// Whether a point is on one of some edges.
fn is_on_one(edges: &[(GridPoint, GridPoint)], point: GridPoint) -> bool
    ensures { result ≡ list_any (λ edge. on_edge_of (edge_of edge) (grid_point point)) edges.now }
{
    edges.iter().any(|edge| is_on(edge, point))
}

/// Whether a point is on an edge.
fn is_on(edge: &(GridPoint, GridPoint), point: GridPoint) -> bool
    ensures { result ≡ on_edge_of (edge_of edge.now) (grid_point point) }
{
    on_edge(point, edge.0, edge.1)
}

/// Whether one of the lines ends at a point.
fn is_end_of(lines: &Valid, point: GridPoint) -> bool
    ensures { result ≡ list_any (λ end. is_same end point) (ends_of lines.now) }
{
    match lines.geometry() {
        Geometry::LineString(line) => is_end_of_line(line.as_slice(), point),
        Geometry::MultiLineString(parts) => is_end_of_one(parts.as_slice(), point),
        _ => false,
    }
}

/// Whether one of some lines ends at a point.
fn is_end_of_one(parts: &[Sequence<GridPoint>], point: GridPoint) -> bool
    ensures { result ≡ list_any (λ part. list_any (λ end. is_same end point) (ends_of_line part)) parts.now }
{
    parts
        .iter()
        .any(|part| is_end_of_line(part.as_slice(), point))
}

/// Whether a line ends at a point.
fn is_end_of_line(line: &[GridPoint], point: GridPoint) -> bool
    ensures { result ≡ list_any (λ end. is_same end point) (ends_of_line line.now) }
{
    match line_ends(line) {
        Some((first, last)) => first == point || last == point,
        None => false,
    }
}

/// What is known of points that are just in these places.
fn known_of_points(seen: Seen) -> Known
    ensures { result ≡ known_of_points seen }
{
    let interior = if_seen(seen.interior);
    let boundary = if_seen(seen.boundary);
    let exterior = if_seen(seen.exterior);
    Known {
        least: [
            interior, boundary, exterior, Nothing, Nothing, Nothing, Nothing, Nothing, Nothing,
        ],
        most: [
            interior, boundary, exterior, Nothing, Nothing, Nothing, Two, Two, Two,
        ],
        contact: false,
    }
}
