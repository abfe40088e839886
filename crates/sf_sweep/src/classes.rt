//! Items that represent the cells of pieces, by a sweep that hands out only what an event changes.

ghost use Rattle.sf_strips.specs.Pieces.{pieces_max, vertices_max};
ghost use Rattle.std.specs.Prelude.{◌≡◌, ◌-◌, ◌<◌, ◌≤◌, ◌↔◌, ◌++◌, false, length, replicate, take, IsTrue, OnErr, OnOk};
ghost use Rattle.std.specs.List.{All};
ghost use Rattle.sf_cells.specs.Groups.{group_count as group_count_of};
ghost use Rattle.sf_cells.specs.Pieces.{HasLength};
ghost use Rattle.sf_classes.specs.Classes.{WereHanded};

use crate::class_sweep::ClassSweep;
use crate::row::{Bits, Row};
use sf_cells::CellSink;
use sf_slabs::{walk, walk_sorted};
use sf_strips::{Piece, Role, Slanted, Vertex, vertices};
use std::alloc::{AllocError, Global};

/// How many groups a row of parities has: short rows where groups are few, since rows are copied for
/// each edge that is passed.
const SHORT: usize = 8;

const LONG: usize = 64;

/// More groups than that are rings whose boxes all meet: a walk over all cells takes less room than their rows.
const LONGEST: usize = 1025;

/// How many edges are over a vertex on the average, at most, where `walk` is quicker.
const FEW: usize = 4;

/// Hands items to the sink that represent the cells of the pieces: for each item there is a cell
/// of its class with at least its dimension, and for each cell such an item. Items are of one class
/// if they have the same counts on them and, of each group that `areal` marks, the same parity of
/// edges above; no more than that parity may be read from the counts above. A group should be
/// marked only if its edges are closed chains: else the answer is as right, but slow. Where groups are
/// more than 1,024, or cells few, as those of smooth rings and of squares side by side, it hands out all
/// cells. Where memory is wanting the sink is left as it was.
/// A sink that is full may be handed no further item: those that are left would change nothing in it.
pub fn walk_classes<S: CellSink>(
    alloc: Global,
    pieces: &[Piece],
    groups: &[u32],
    areal: &[bool],
    sink: &mut S,
) -> Result<(), AllocError>
    requires have_length { All HasLength pieces.now }
    requires few { length pieces.now ≤ pieces_max }
    requires one_group_each { length groups.now ≡ length pieces.now }
    requires groups_in_range { All (λ g. g < length pieces.now) groups.now }
    ensures ok { OnOk result (WereHanded pieces.now groups.now areal.now S.after
        (S.content sink.old) (S.content sink.new)) }
    ensures err { OnErr result (sink.new ≡ sink.old) }
{
    let count = group_count(groups);
    if count < SHORT {
        sweep_in_rows::<Bits<SHORT>, S>(alloc, pieces, groups, areal, sink)
    } else if count < LONG {
        sweep_in_rows::<Bits<LONG>, S>(alloc, pieces, groups, areal, sink)
    } else if count < LONGEST {
        sweep_in_rows::<Bits<LONGEST>, S>(alloc, pieces, groups, areal, sink)
    } else {
        walk(alloc, pieces, groups, sink)
    }
}

/// The same by rows of this kind, which have more groups than there are. All room is made before the
/// first item.
fn sweep_in_rows<R: Row, S: CellSink>(
    alloc: Global,
    pieces: &[Piece],
    groups: &[u32],
    areal: &[bool],
    sink: &mut S,
) -> Result<(), AllocError>
    requires have_length { All HasLength pieces.now }
    requires few { length pieces.now ≤ pieces_max }
    requires one_group_each { length groups.now ≡ length pieces.now }
    requires groups_in_range { All (λ g. g < length pieces.now) groups.now }
    requires fewer_groups { group_count_of groups.now < R.width }
    ensures ok { OnOk result (WereHanded pieces.now groups.now areal.now S.after
        (S.content sink.old) (S.content sink.new)) }
    ensures err { OnErr result (sink.new ≡ sink.old) }
{
    let vertices = vertices(alloc, pieces)?;
    if is_walk_quicker(vertices.as_slice()) {
        return walk_sorted(alloc, pieces, groups, vertices.as_slice(), sink);
    }
    let mut sweep = ClassSweep::<R>::new(alloc, pieces.len(), vertices.len(), group_count(groups))?;
    let marks = R::of(areal);
    sweep.run(sink, pieces, groups, marks.as_slice(), vertices.as_slice());
    Ok(())
}

/// How many edges are over vertices and over columns, by one pass over the vertices.
#[derive(Clone, Copy)]
struct Crowd {
    /// Over what is behind each vertex, all vertices together.
    over_vertices: usize,
    /// From each column of vertices to the next one, all columns together.
    over_columns: usize,
    /// Whether some edge is neither level nor upright.
    slants: bool,
}

/// Whether few edges are over the vertices, on the average, or over their columns where no crossing makes a further
/// column. Then there are hardly more cells than events, and `walk`, which searches nothing, is quicker.
///
/// Where few are over the vertices `walk` can't be far slower even if all edges cross: of edges that are over one place
/// each one counts those that began before it. Where all pieces are along the axes `walk` has the vertices' columns alone:
/// where level and upright edges cross, there is one already.
fn is_walk_quicker(vertices: &[Vertex]) -> bool
    requires few { length vertices.now ≤ vertices_max }
{
    let crowd = crowd_of(vertices);
    crowd.over_vertices <= FEW * vertices.len()
        || (!crowd.slants && crowd.over_columns <= vertices.len())
}

/// The crowd over the vertices of a set of pieces, in their order.
fn crowd_of(vertices: &[Vertex]) -> Crowd {
    let mut crowd = Crowd {
        over_vertices: 0,
        over_columns: 0,
        slants: false,
    };
    let mut over = 0usize;
    let mut column = i32::MIN;
    for vertex in vertices {
        if vertex.at.x() != column {
            column = vertex.at.x();
            crowd.over_columns = crowd.over_columns.saturating_add(over);
        }
        match &vertex.role {
            Role::Begin(edge) => {
                over = over.saturating_add(1);
                crowd.slants |= !is_level(edge);
            }
            Role::End => over = over.saturating_sub(1),
            _ => {}
        }
        crowd.over_vertices = crowd.over_vertices.saturating_add(over);
    }
    crowd
}

/// Whether both ends of an edge are at one height.
fn is_level(edge: &Slanted) -> bool
    ensures { IsTrue result ↔ (edge.now.left.y ≡ edge.now.right.y) }
{
    edge.left().y() == edge.right().y()
}

/// How many groups there are: the greatest number plus one, or 0.
fn group_count(groups: &[u32]) -> usize
    ensures { result ≡ group_count_of groups.now }
{
    let mut count = 0;
    for group in groups {
        count = count.max(*group as usize + 1);
    }
    count
}
