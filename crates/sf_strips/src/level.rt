//! The levels of a column, from the top.

ghost use Rattle.std.specs.Prelude.{◌≡◌, ◌≤◌, length};
ghost use Rattle.std.specs.List.{prefix_len};
ghost use Rattle.std.specs.Ordering.{int_eq};
ghost use Rattle.sf_strips.specs.Fronts.{touches};
ghost use Rattle.sf_strips.specs.Levels.{group_length, run_length, top_level};
ghost use Rattle.sf_strips.specs.Strips.{column_of};

use crate::active::Active;
use crate::contact::Contact;
use crate::strip::Strip;
use crate::vertex::Vertex;
use sf_grid::GridPoint;
use std::cmp::Ordering;

/// How many edges, vertices and edges to the right belong to one height of a column.
#[derive(Clone, Copy, Debug)]
pub struct Level {
    pub edges: usize,
    pub vertices: usize,
    pub onward: usize,
}

impl Level {
    /// The highest level of what is left of a column, without its edges to the right.
    pub(crate) fn top(
        strip: &Strip,
        edges: &[Active],
        contacts: &[Contact],
        vertices: &[Vertex],
    ) -> Level
        requires few { length contacts.now ≤ length edges.now }
        ensures { result ≡ top_level (column_of strip.now) edges.now contacts.now vertices.now }
    {
        let (edges, vertices) = match (edges.first(), vertices.first()) {
            (None, _) => (0, group_len(vertices)),
            (Some(_), None) => (run_len(strip, edges, contacts), 0),
            (Some(first), Some(vertex)) => match first.edge.side(vertex.at) {
                Ordering::Less => (run_len(strip, edges, contacts), 0),
                Ordering::Equal => (run_len(strip, edges, contacts), group_len(vertices)),
                Ordering::Greater => (0, group_len(vertices)),
            },
        };
        Level {
            edges,
            vertices,
            onward: 0,
        }
    }
}

/// How many edges from the first one on are level with it.
pub(crate) fn run_len(strip: &Strip, edges: &[Active], contacts: &[Contact]) -> usize
    requires few { length contacts.now ≤ length edges.now }
    ensures { result ≡ run_length (column_of strip.now) edges.now contacts.now }
{
    if edges.is_empty() {
        0
    } else {
        1 + touching(strip, contacts)
    }
}

/// How many contacts from the first one on touch.
fn touching(strip: &Strip, contacts: &[Contact]) -> usize
    ensures value { result ≡ prefix_len (touches (column_of strip.now)) contacts.now }
    ensures bound { result ≤ length contacts.now }
{
    contacts.iter().take_while(|c| c.touches(strip)).count()
}

/// How many vertices from the first one on are at its height.
fn group_len(vertices: &[Vertex]) -> usize
    ensures { result ≡ group_length vertices.now }
{
    match vertices.split_first() {
        None => 0,
        Some((first, others)) => 1 + level_with(first.at, others),
    }
}

/// How many vertices from the first one on are level with a point.
fn level_with(point: GridPoint, vertices: &[Vertex]) -> usize
    ensures value { result ≡ prefix_len (λ v. int_eq v.at.y point.y) vertices.now }
    ensures bound { result ≤ length vertices.now }
{
    vertices
        .iter()
        .take_while(|v| v.at.y() == point.y())
        .count()
}
