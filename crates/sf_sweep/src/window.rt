//! The next place of a column at which something happens.

ghost use Rattle.std.specs.Prelude.{◌≡◌, ◌≤◌, ◌<◌, length};
ghost use Rattle.sf_strips.specs.Levels.{group_length};
ghost use Rattle.sf_sweep.specs.NextWindow.{crossing_window, is_top as is_top_of, next_window_of, precedes as precedes_of, vertex_window as vertex_window_of, window_length};
ghost use Rattle.std.specs.List.{list_any, prefix_len};
ghost use Rattle.std.specs.Ordering.{int_eq};

use crate::nearest::comes_before;
use sf_grid::{Frac, FracPoint};
use sf_strips::{Role, Vertex};

/// A part of a column in which something happens: its highest and its lowest point, and how many
/// vertices it has.
#[derive(Clone, Copy)]
pub struct Window {
    pub top: FracPoint,
    pub bottom: FracPoint,
    pub vertices: usize,
}

/// The next window of the column `x`, where there is one, by the first point at which edges meet and
/// the vertices that are left in the column.
pub fn next_window(near: Option<FracPoint>, x: &Frac, rest: &[Vertex]) -> Option<Window>
    ensures { result ≡ next_window_of near x.now rest.now }
{
    match near {
        Some(point) => {
            if point.x().is_same(x) && precedes(&point, rest) {
                Some(crossing(point))
            } else {
                vertex_window(rest)
            }
        }
        None => vertex_window(rest),
    }
}

/// The window of a point at which edges meet.
fn crossing(point: FracPoint) -> Window
    ensures { result ≡ crossing_window point }
{
    Window {
        top: point,
        bottom: point,
        vertices: 0,
    }
}

/// Whether a point comes before the vertices.
fn precedes(point: &FracPoint, rest: &[Vertex]) -> bool
    ensures { result ≡ precedes_of point.now rest.now }
{
    match rest.first() {
        Some(vertex) => comes_before(point, &FracPoint::of(vertex.at)),
        None => true,
    }
}

/// The window of the first vertices, where there are any.
fn vertex_window(rest: &[Vertex]) -> Option<Window>
    ensures { result ≡ vertex_window_of rest.now }
{
    match rest.first() {
        Some(first) => {
            let vertices = window_len(rest);
            let last = match rest.get(vertices - 1) {
                Some(last) => last,
                None => first,
            };
            Some(Window {
                top: FracPoint::of(first.at),
                bottom: FracPoint::of(last.at),
                vertices,
            })
        }
        None => None,
    }
}

/// How many of the vertices the first window has: those at the first one's place; or all, where an
/// upright edge begins there.
fn window_len(rest: &[Vertex]) -> usize
    ensures value { result ≡ window_length rest.now }
    ensures some { 0 < length rest.now → 0 < result }
    ensures bound { result ≤ length rest.now }
{
    let group = group_len(rest);
    if has_top(rest.split_at(group).0) {
        rest.len()
    } else {
        group
    }
}

/// How many vertices are at the first one's place.
fn group_len(rest: &[Vertex]) -> usize
    ensures value { result ≡ group_length rest.now }
    ensures some { 0 < length rest.now → 0 < result }
    ensures bound { result ≤ length rest.now }
{
    match rest.split_first() {
        Some((first, others)) => 1 + level_len(others, first.at.y()),
        None => 0,
    }
}

/// How many vertices from the first one on are at this height.
fn level_len(vertices: &[Vertex], y: i32) -> usize
    ensures value { result ≡ prefix_len (λ v. int_eq v.at.y y) vertices.now }
    ensures bound { result ≤ length vertices.now }
{
    vertices
        .iter()
        .take_while(|vertex| vertex.at.y() == y)
        .count()
}

/// Whether an upright edge begins at one of the vertices.
fn has_top(vertices: &[Vertex]) -> bool
    ensures { result ≡ list_any (λ v. is_top_of v.role) vertices.now }
{
    vertices.iter().any(|vertex| is_top(vertex))
}

/// Whether an upright edge begins at the vertex.
fn is_top(vertex: &Vertex) -> bool
    ensures { result ≡ is_top_of vertex.now.role }
{
    matches!(vertex.role, Role::Top)
}
