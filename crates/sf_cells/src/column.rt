//! The cells of one column or slab, handed to a sink.

ghost use Rattle.std.specs.Prelude.{◌≡◌, ◌<◌, ◌+◌, ◌^◌, ◌++◌, List, true, false, [], ◌∷◌, length};
ghost use Rattle.std.specs.List.{All, fold};
ghost use Rattle.sf_strips.specs.declared.active.Active.{Active};
ghost use Rattle.sf_strips.specs.declared.level.Level.{Level};
ghost use Rattle.sf_strips.specs.declared.vertex.Vertex.{Vertex};
ghost use Rattle.sf_strips.specs.Fronts.{pieces_of};
ghost use Rattle.sf_cells.specs.Groups.{counts, group_count};
ghost use Rattle.sf_cells.specs.Hands.{AtMost, Balanced, item, minus, plus, stop_items, stops};
ghost use Rattle.sf_strips.specs.Levels.{TakeAll};
ghost use Rattle.sf_strips.specs.Parts.{alone_levels, levels_of};
ghost use Rattle.sf_strips.specs.Strips.{is_column};
ghost use Rattle.sf_cells.specs.Samples.{dimension};
ghost use Rattle.sf_strips.specs.Vertices.{enters, leaves, pieces_with};

use crate::sink::CellSink;
use crate::tally::{
    add_edges, add_piece, clear_edges, count_of, enter_level, leave_level, put_back, take_edges,
};
use sf_strips::{Active, Part, Strip, Vertex};

/// Of each group, how many of its pieces are on the place that was reached, and how many of its
/// edges are above it.
#[derive(Drop)]
pub struct Tallies {
    pub on: Vec<u32>,
    pub above: Vec<u32>,
}

/// The parts of a column or slab from the top, with the edges that come to it, its vertices and the edges
/// that go on from it.
#[derive(Clone, Copy)]
pub struct Column<'a> {
    pub edges: &'a [Active],
    pub vertices: &'a [Vertex],
    pub onward: &'a [Active],
    pub parts: &'a [Part],
}

/// Hands out the cells of a column or slab: from the top, the gap above each level and the level,
/// and in the end the gap below the last one. The levels of a column are points.
pub fn hand_out<S: CellSink>(
    sink: &mut S,
    strip: &Strip,
    groups: &[u32],
    tallies: &mut Tallies,
    column: &Column,
)
    requires edges { All (λ e. e.piece < length groups.now) column.now.edges.now }
    requires vertices { All (λ v. v.piece < length groups.now) column.now.vertices.now }
    requires onward { All (λ e. e.piece < length groups.now) column.now.onward.now }
    requires few { length column.now.edges.now + length column.now.vertices.now
        + length column.now.onward.now < 2 ^ 32 }
    requires levels { TakeAll (length column.now.edges.now) (length column.now.vertices.now)
        (length column.now.onward.now) (levels_of column.now.parts.now) }
    requires balanced { Balanced groups.now (counts groups.now [])
        (stops column.now.edges.now column.now.vertices.now column.now.onward.now (levels_of column.now.parts.now)) }
    requires none_on { tallies.old.on.items ≡ counts groups.now [] }
    requires none_above { tallies.old.above.items ≡ counts groups.now [] }
    ensures handed { S.content sink.new ≡ fold S.after (S.content sink.old)
        (stop_items groups.now (is_column strip.now) (counts groups.now []) (counts groups.now [])
        (stops column.now.edges.now column.now.vertices.now column.now.onward.now (levels_of column.now.parts.now))) }
    ensures none_on { tallies.new.on.items ≡ counts groups.now [] }
    ensures none_above { tallies.new.above.items ≡ counts groups.now [] }
{
    hand_parts(sink, strip, groups, tallies, column);
    clear_edges(&mut tallies.above, groups, column.onward);
}

/// Hands out the cells of a part of a column or slab, with so many edges of each group above it: from
/// the top, the gap above each level and the level, and in the end the gap below the last one.
pub fn hand_part<S: CellSink>(
    sink: &mut S,
    strip: &Strip,
    groups: &[u32],
    tallies: &mut Tallies,
    column: &Column,
)
    requires edges { All (λ e. e.piece < length groups.now) column.now.edges.now }
    requires vertices { All (λ v. v.piece < length groups.now) column.now.vertices.now }
    requires onward { All (λ e. e.piece < length groups.now) column.now.onward.now }
    requires few { length column.now.edges.now + length column.now.vertices.now
        + length column.now.onward.now < 2 ^ 32 }
    requires levels { TakeAll (length column.now.edges.now) (length column.now.vertices.now)
        (length column.now.onward.now) (levels_of column.now.parts.now) }
    requires balanced { Balanced groups.now (counts groups.now [])
        (stops column.now.edges.now column.now.vertices.now column.now.onward.now (levels_of column.now.parts.now)) }
    requires none_on { tallies.old.on.items ≡ counts groups.now [] }
    requires counted_above { length tallies.old.above.items ≡ group_count groups.now }
    requires room_above { All (λ n. n + length column.now.onward.now < 2 ^ 32) tallies.old.above.items }
    ensures handed { S.content sink.new ≡ fold S.after (S.content sink.old)
        (stop_items groups.now (is_column strip.now) (counts groups.now []) tallies.old.above.items
        (stops column.now.edges.now column.now.vertices.now column.now.onward.now (levels_of column.now.parts.now))) }
    ensures none_on { tallies.new.on.items ≡ counts groups.now [] }
    ensures above { tallies.new.above.items ≡ tallies.old.above.items }
{
    hand_parts(sink, strip, groups, tallies, column);
    take_edges(&mut tallies.above, groups, column.onward);
}

/// Hands out the cells of the parts of a column or slab, and leaves the edges that go on from it counted
/// as above.
fn hand_parts<S: CellSink>(
    sink: &mut S,
    strip: &Strip,
    groups: &[u32],
    tallies: &mut Tallies,
    column: &Column,
)
    requires edges { All (λ e. e.piece < length groups.now) column.now.edges.now }
    requires vertices { All (λ v. v.piece < length groups.now) column.now.vertices.now }
    requires onward { All (λ e. e.piece < length groups.now) column.now.onward.now }
    requires few { length column.now.edges.now + length column.now.vertices.now
        + length column.now.onward.now < 2 ^ 32 }
    requires levels { TakeAll (length column.now.edges.now) (length column.now.vertices.now)
        (length column.now.onward.now) (levels_of column.now.parts.now) }
    requires balanced { Balanced groups.now (counts groups.now [])
        (stops column.now.edges.now column.now.vertices.now column.now.onward.now (levels_of column.now.parts.now)) }
    requires none_on { tallies.old.on.items ≡ counts groups.now [] }
    requires counted_above { length tallies.old.above.items ≡ group_count groups.now }
    requires room_above { All (λ n. n + length column.now.onward.now < 2 ^ 32) tallies.old.above.items }
    ensures handed { S.content sink.new ≡ fold S.after (S.content sink.old)
        (stop_items groups.now (is_column strip.now) (counts groups.now []) tallies.old.above.items
        (stops column.now.edges.now column.now.vertices.now column.now.onward.now (levels_of column.now.parts.now))) }
    ensures none_on { tallies.new.on.items ≡ counts groups.now [] }
    ensures above { tallies.new.above.items ≡ plus tallies.old.above.items (counts groups.now (pieces_of column.now.onward.now)) }
{
    let mut edges = column.edges;
    let mut vertices = column.vertices;
    let mut onward = column.onward;
    for part in column.parts {
        match *part {
            Part::Alone(count) => {
                let (alone, lower) = edges.split_at(count);
                let (alone_onward, lower_onward) = onward.split_at(count);
                hand_alone(sink, strip, groups, tallies, alone, alone_onward);
                edges = lower;
                onward = lower_onward;
            }
            Part::Together(level) => {
                let (level_edges, lower_edges) = edges.split_at(level.edges);
                let (level_vertices, lower_vertices) = vertices.split_at(level.vertices);
                let (level_onward, lower_onward) = onward.split_at(level.onward);
                hand_level(
                    sink,
                    strip,
                    groups,
                    tallies,
                    level_edges,
                    level_vertices,
                    level_onward,
                );
                edges = lower_edges;
                vertices = lower_vertices;
                onward = lower_onward;
            }
        }
    }
    hand_gap(sink, strip, tallies);
}

/// Hands out edges that go on and stand alone at their heights: from the top, the gap above each
/// edge and the edge, and counts the edge that goes on as above from there on. Whatever is handed
/// out below them, the sink has then gathered all.
fn hand_alone<S: CellSink>(
    sink: &mut S,
    strip: &Strip,
    groups: &[u32],
    tallies: &mut Tallies,
    edges: &[Active],
    onward: &[Active],
)
    requires edges { All (λ e. e.piece < length groups.now) edges.now }
    requires onward { All (λ e. e.piece < length groups.now) onward.now }
    requires pairs { length onward.now ≡ length edges.now }
    requires counted_on { length tallies.old.on.items ≡ group_count groups.now }
    requires counted_above { length tallies.old.above.items ≡ group_count groups.now }
    requires room_on { All (λ n. n + length edges.now < 2 ^ 32) tallies.old.on.items }
    requires room_above { All (λ n. n + length onward.now < 2 ^ 32) tallies.old.above.items }
    ensures handed { (es : List Active) (vs : List Vertex) (os : List Active) (ls : List Level) →
        fold S.after (S.content sink.new)
        (stop_items groups.now (is_column strip.now) tallies.new.on.items tallies.new.above.items (stops es vs os ls))
        ≡ fold S.after (S.content sink.old)
        (stop_items groups.now (is_column strip.now) tallies.old.on.items tallies.old.above.items
        (stops (edges.now ++ es) vs (onward.now ++ os) (alone_levels (length edges.now) ls))) }
    ensures on { tallies.new.on.items ≡ tallies.old.on.items }
    ensures above { tallies.new.above.items ≡ plus tallies.old.above.items (counts groups.now (pieces_of onward.now)) }
{
    let gap = gap_dimension(strip);
    let level = level_dimension(strip);
    for (edge, next) in edges.iter().zip(onward) {
        sink.cell(gap, &tallies.on, &tallies.above);
        let count = count_of(&tallies.on, groups, edge.piece);
        add_piece(&mut tallies.on, groups, edge.piece);
        sink.cell(level, &tallies.on, &tallies.above);
        put_back(&mut tallies.on, groups, edge.piece, count);
        add_piece(&mut tallies.above, groups, next.piece);
    }
}

/// Hands out the gap above a level and the level, and counts what is on the gap below it.
fn hand_level<S: CellSink>(
    sink: &mut S,
    strip: &Strip,
    groups: &[u32],
    tallies: &mut Tallies,
    edges: &[Active],
    vertices: &[Vertex],
    onward: &[Active],
)
    requires edges { All (λ e. e.piece < length groups.now) edges.now }
    requires vertices { All (λ v. v.piece < length groups.now) vertices.now }
    requires onward { All (λ e. e.piece < length groups.now) onward.now }
    requires counted_on { length tallies.old.on.items ≡ group_count groups.now }
    requires counted_above { length tallies.old.above.items ≡ group_count groups.now }
    requires room_on { All (λ n. n + (length edges.now + length vertices.now) < 2 ^ 32) tallies.old.on.items }
    requires room_above { All (λ n. n + length onward.now < 2 ^ 32) tallies.old.above.items }
    requires there { AtMost (counts groups.now (pieces_of edges.now ++ pieces_with leaves vertices.now))
        (plus tallies.old.on.items (counts groups.now (pieces_of edges.now ++ pieces_with enters vertices.now))) }
    ensures handed { S.content sink.new ≡ fold S.after (S.content sink.old)
        (item (dimension (is_column strip.now) false) tallies.old.on.items tallies.old.above.items
        ∷ item (dimension (is_column strip.now) true)
        (plus tallies.old.on.items (counts groups.now (pieces_of edges.now ++ pieces_with enters vertices.now)))
        tallies.old.above.items ∷ []) }
    ensures on { tallies.new.on.items ≡ minus
        (plus tallies.old.on.items (counts groups.now (pieces_of edges.now ++ pieces_with enters vertices.now)))
        (counts groups.now (pieces_of edges.now ++ pieces_with leaves vertices.now)) }
    ensures above { tallies.new.above.items ≡ plus tallies.old.above.items (counts groups.now (pieces_of onward.now)) }
{
    hand_gap(sink, strip, tallies);
    enter_level(&mut tallies.on, groups, edges, vertices);
    sink.cell(level_dimension(strip), &tallies.on, &tallies.above);
    leave_level(&mut tallies.on, groups, edges, vertices);
    add_edges(&mut tallies.above, groups, onward);
}

/// Hands out a gap, also where no piece is on it or above it.
fn hand_gap<S: CellSink>(sink: &mut S, strip: &Strip, tallies: &Tallies)
    ensures { S.content sink.new ≡ S.after (S.content sink.old)
        (item (dimension (is_column strip.now) false) tallies.now.on.items tallies.now.above.items) }
{
    sink.cell(gap_dimension(strip), &tallies.on, &tallies.above);
}

/// The dimension of a level.
fn level_dimension(strip: &Strip) -> u8
    ensures { result ≡ dimension (is_column strip.now) true }
{
    match strip {
        Strip::Column(_) => 0,
        Strip::Slab => 1,
    }
}

/// The dimension of a gap.
fn gap_dimension(strip: &Strip) -> u8
    ensures { result ≡ dimension (is_column strip.now) false }
{
    match strip {
        Strip::Column(_) => 1,
        Strip::Slab => 2,
    }
}
