//! The edges of a geometry whose boxes share a point with a box, by one pass over its points: where one question alone is
//! asked, a tree takes longer to make than the pass.

ghost use Rattle.std.specs.Prelude.{◌≡◌, ◌↔◌, ◌++◌, ◌&&◌, not, IfOk, IsTrue, OnOk};
ghost use Rattle.std.specs.List.{flat_map};
ghost use Rattle.sf_geometry.specs.Envelope.{extents_meet};
ghost use Rattle.sf_geometry.specs.Lists.{edges_of as edges_of_list, is_same};
ghost use Rattle.sf_geometry.specs.Parts.{edges_of, joined};
ghost use Rattle.sf_geometry.specs.Walks.{HasEdge};
ghost use Rattle.sf_edge_tree.specs.Boxes.{extent_of_edge};
ghost use Rattle.sf_edge_tree.specs.Meeting.{Meets, ends_meeting};

use sf_geometry::{EdgeTest, Extent, Geometry, Sequence};
use sf_grid::GridPoint;
use std::alloc::{AllocError, Global};

/// How many edges there is room for at first.
const USUAL_EDGES: usize = 64;

/// The edges whose boxes share a point with a box, in order.
pub fn edges_meeting(
    alloc: Global,
    geometry: &Geometry,
    extent: &Extent,
) -> Result<Vec<(GridPoint, GridPoint)>, AllocError>
    ensures { IfOk result (λ found. found.items ≡ ends_meeting extent.now (edges_of geometry.now)) }
{
    let mut found = Vec::with_capacity(alloc, USUAL_EDGES)?;
    match geometry {
        Geometry::Point(_) | Geometry::MultiPoint(_) => {}
        Geometry::LineString(points) => push_meeting(&mut found, points.as_slice(), extent)?,
        Geometry::Polygon(lists) | Geometry::MultiLineString(lists) => {
            push_all_meeting(&mut found, lists.as_slice(), extent)?;
        }
        Geometry::MultiPolygon(polygons) => {
            push_polygons_meeting(&mut found, polygons.as_slice(), extent)?;
        }
    }
    Ok(found)
}

/// Whether an edge whose box shares a point with a box passes a test. They are tried in order, up to the first that
/// passes, and no memory is taken.
pub fn has_edge_meeting<T: EdgeTest>(geometry: &Geometry, extent: &Extent, test: &T) -> bool
    ensures { IsTrue result ↔ HasEdge (Meets extent.now (T.Passes test.now)) (edges_of geometry.now) }
{
    geometry.any_edge(&MeetingTest { extent, test })
}

/// Searches for edges that pass a test, and whose boxes share a point with a box.
#[derive(Drop)]
struct MeetingTest<'a, T> {
    extent: &'a Extent,
    test: &'a T,
}

impl<T: EdgeTest> EdgeTest for MeetingTest<'_, T> {
    ghost use Rattle.sf_edge_tree.specs.Meeting.{Meets};

    ghost Passes = { λ s edge. Meets s.extent.now (T.Passes s.test.now) edge };

    fn test(&self, from: GridPoint, to: GridPoint) -> bool {
        Extent::at(from).with(to).meets(*self.extent) && self.test.test(from, to)
    }
}

/// Pushes those of polygons.
fn push_polygons_meeting(
    found: &mut Vec<(GridPoint, GridPoint)>,
    polygons: &[Sequence<Sequence<GridPoint>>],
    extent: &Extent,
) -> Result<(), AllocError>
    ensures { OnOk result (found.new.items
        ≡ found.old.items ++ ends_meeting extent.now (flat_map edges_of_list (joined polygons.now))) }
{
    for rings in polygons {
        push_all_meeting(found, rings.as_slice(), extent)?;
    }
    Ok(())
}

/// Pushes those of lines or rings.
fn push_all_meeting(
    found: &mut Vec<(GridPoint, GridPoint)>,
    lists: &[Sequence<GridPoint>],
    extent: &Extent,
) -> Result<(), AllocError>
    ensures { OnOk result (found.new.items
        ≡ found.old.items ++ ends_meeting extent.now (flat_map edges_of_list lists.now)) }
{
    for points in lists {
        push_meeting(found, points.as_slice(), extent)?;
    }
    Ok(())
}

/// Pushes those of a line or ring.
fn push_meeting(
    found: &mut Vec<(GridPoint, GridPoint)>,
    points: &[GridPoint],
    extent: &Extent,
) -> Result<(), AllocError>
    ensures { OnOk result (found.new.items
        ≡ found.old.items ++ ends_meeting extent.now (edges_of_list points.now)) }
{
    let Some((first, others)) = points.split_first() else {
        return Ok(());
    };
    let mut from = *first;
    for to in others {
        if is_edge_meeting(from, *to, extent) {
            found.push((from, *to))?;
        }
        from = *to;
    }
    Ok(())
}

/// Whether two points differ, and the box of the edge between them shares a point with a box.
fn is_edge_meeting(a: GridPoint, b: GridPoint, extent: &Extent) -> bool
    ensures { result ≡ (extents_meet (extent_of_edge (a, b)) extent.now && not (is_same a b)) }
{
    Extent::at(a).with(b).meets(*extent) && a != b
}
