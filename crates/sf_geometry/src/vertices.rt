//! The vertices of a geometry, by part, ring and index.
//!
//! The part is the element of a MultiLineString or MultiPolygon, else 0; the ring is that of a
//! polygon, 0 the shell, else 0. A ring's closing point has no index and is kept equal to the
//! point at index 0.

ghost use Rattle.std.specs.Prelude.{◌≡◌, ◌⊎◌, Err, IsOk, IfErr, IfOk, IsFalse, Ok, OnErr, OnOk, Some, length, option_and_then, option_map, slice_get};
ghost use Rattle.sf_geometry.specs.Changes.{Refuses, change_of, filled_or_refused, removable_count as removable_count_of};
ghost use Rattle.sf_geometry.specs.Size.{IsSized, has_empty_list};
ghost use Rattle.sf_geometry.specs.Vertices.{changed, insert_vertex, move_vertex, only_at as only_at_place, remove_vertex, ring_vertices as ring_vertices_of, vertex_of, vertices_of};

use super::change::{Change, change_point};
use super::geometry::Geometry;
use super::refusal::Refusal;
use super::sequence::Sequence;
use super::size::POINTS_MAX;
use sf_grid::GridPoint;
use std::alloc::Global;

impl Geometry {
    /// The vertex at an index, or None where there is none.
    pub fn vertex(&self, part: u32, ring: u32, index: u32) -> Option<GridPoint>
        ensures { result ≡ vertex_of self.now part ring index }
    {
        match self {
            Geometry::Point(point) => only_at(part, only_at(ring, only_at(index, Some(*point)))),
            Geometry::LineString(points) | Geometry::MultiPoint(points) => {
                only_at(part, only_at(ring, point_at(points.as_slice(), index)))
            }
            Geometry::Polygon(rings) => only_at(part, ring_point(rings.as_slice(), ring, index)),
            Geometry::MultiLineString(lines) => {
                only_at(ring, line_point(lines.as_slice(), part, index))
            }
            Geometry::MultiPolygon(polygons) => match polygons.as_slice().get(part as usize) {
                Some(rings) => ring_point(rings.as_slice(), ring, index),
                None => None,
            },
        }
    }

    /// Puts a vertex before the one at an index, or at the end where the index is their count.
    ///
    /// # Errors
    ///
    /// `NoVertex` where there is no such place, `TooManyVertices` where the geometry has 65,536
    /// points already, else `Memory` where none is found. The geometry is then as it was.
    pub fn insert_vertex(
        &mut self,
        _alloc: Global,
        part: u32,
        ring: u32,
        index: u32,
        point: GridPoint,
    ) -> Result<(), Refusal>
        requires sized { IsSized self.old }
        ensures inserted { OnOk result
            (insert_vertex self.old part ring index point ≡ Ok self.new) }
        ensures refused { IfErr result (λ refusal.
            (insert_vertex self.old part ring index point ≡ Err refusal)
            ⊎ ((refusal ≡ Refusal.Memory) × IsOk (insert_vertex self.old part ring index point))) }
        ensures unchanged { OnErr result (self.new ≡ self.old) }
    {
        if self.point_count() < POINTS_MAX {
            return self.change(part, ring, index, &Change::Insert(point));
        }
        match self.vertex_count(part, ring) {
            Some(count) if index as usize <= count => Err(Refusal::TooManyVertices),
            _ => Err(Refusal::NoVertex),
        }
    }

    /// Moves the vertex at an index, and gives the point where it was.
    ///
    /// # Errors
    ///
    /// `NoVertex` where there is none. The geometry is then as it was.
    pub fn move_vertex(
        &mut self,
        part: u32,
        ring: u32,
        index: u32,
        point: GridPoint,
    ) -> Result<GridPoint, Refusal>
        requires sized { IsSized self.old }
        ensures moved { OnOk result (move_vertex self.old part ring index point ≡ Ok self.new) }
        ensures given { IfOk result (λ old. vertex_of self.old part ring index ≡ Some old) }
        ensures refused { IfErr result (λ refusal.
            move_vertex self.old part ring index point ≡ Err refusal) }
        ensures unchanged { OnErr result (self.new ≡ self.old) }
    {
        let Some(old) = self.vertex(part, ring, index) else {
            return Err(Refusal::NoVertex);
        };
        self.change(part, ring, index, &Change::Move(point))?;
        Ok(old)
    }

    /// Takes the vertex at an index out, and gives its point.
    ///
    /// # Errors
    ///
    /// `NoVertex` where there is none, `Empty` where it is the only one of its list. The geometry
    /// is then as it was.
    pub fn remove_vertex(&mut self, part: u32, ring: u32, index: u32) -> Result<GridPoint, Refusal>
        requires sized { IsSized self.old }
        ensures removed { OnOk result (remove_vertex self.old part ring index ≡ Ok self.new) }
        ensures given { IfOk result (λ old. vertex_of self.old part ring index ≡ Some old) }
        ensures refused { IfErr result (λ refusal.
            remove_vertex self.old part ring index ≡ Err refusal) }
        ensures unchanged { OnErr result (self.new ≡ self.old) }
    {
        let Some(old) = self.vertex(part, ring, index) else {
            return Err(Refusal::NoVertex);
        };
        self.change(part, ring, index, &Change::Remove)?;
        Ok(old)
    }

    /// A copy of the geometry with the vertex at an index removed.
    ///
    /// # Errors
    ///
    /// `NoVertex` where there is none, `Empty` where it is the only one of its list, else `Memory`
    /// where none is found.
    pub fn without_vertex(
        &self,
        alloc: Global,
        part: u32,
        ring: u32,
        index: u32,
    ) -> Result<Geometry, Refusal>
        requires sized { IsSized self.now }
        ensures removed { IfOk result (λ without.
            remove_vertex self.now part ring index ≡ Ok without) }
        ensures refused { IfErr result (λ refusal.
            (remove_vertex self.now part ring index ≡ Err refusal)
            ⊎ ((refusal ≡ Refusal.Memory) × IsOk (remove_vertex self.now part ring index))) }
    {
        let count = self.removable_count(part, ring);
        if index as usize >= count {
            return Err(Refusal::NoVertex);
        }
        if count == 1 {
            return Err(Refusal::Empty);
        }
        let Ok(mut without) = self.copy(alloc) else {
            return Err(Refusal::Memory);
        };
        without.remove_vertex(part, ring, index)?;
        Ok(without)
    }

    /// How many vertices of a part and ring could be removed: none of a Point, which stays one
    /// point.
    fn removable_count(&self, part: u32, ring: u32) -> usize
        ensures { result ≡ removable_count_of self.now part ring }
    {
        match self {
            Geometry::Point(_) => 0,
            _ => self.vertex_count(part, ring).unwrap_or(0),
        }
    }

    /// How many vertices a part and ring has, or None where there is no such ring.
    fn vertex_count(&self, part: u32, ring: u32) -> Option<usize>
        ensures { result ≡ option_map (λ ps. length ps) (vertices_of self.now part ring) }
    {
        match self {
            Geometry::Point(_) if part == 0 && ring == 0 => Some(1),
            Geometry::LineString(points) if part == 0 && ring == 0 => Some(points.as_slice().len()),
            Geometry::MultiPoint(points) if part == 0 && ring == 0 => Some(points.as_slice().len()),
            Geometry::Polygon(rings) if part == 0 => ring_count(rings.as_slice(), ring),
            Geometry::MultiLineString(lines) if ring == 0 => line_count(lines.as_slice(), part),
            Geometry::MultiPolygon(polygons) => match polygons.as_slice().get(part as usize) {
                Some(rings) => ring_count(rings.as_slice(), ring),
                None => None,
            },
            _ => None,
        }
    }

    /// Makes a change in the list of a part and ring.
    fn change(&mut self, part: u32, ring: u32, index: u32, change: &Change) -> Result<(), Refusal>
        requires filled { IsFalse (has_empty_list self.old) }
        ensures changed { OnOk result (filled_or_refused has_empty_list
            (changed (change_of change.now index) part ring self.old) ≡ Ok self.new) }
        ensures refused { IfErr result (Refuses change.now (filled_or_refused has_empty_list
            (changed (change_of change.now index) part ring self.old))) }
        ensures unchanged { OnErr result (self.new ≡ self.old) }
    {
        let index = index as usize;
        match self {
            Geometry::Point(point) if part == 0 && ring == 0 => change_point(point, index, change),
            Geometry::LineString(points) if part == 0 && ring == 0 => {
                points.change_line(index, change)
            }
            Geometry::MultiPoint(points) if part == 0 && ring == 0 => {
                points.change_line(index, change)
            }
            Geometry::Polygon(rings) if part == 0 => {
                rings.change_ring_at(ring as usize, index, change)
            }
            Geometry::MultiLineString(lines) if ring == 0 => {
                lines.change_line_at(part as usize, index, change)
            }
            Geometry::MultiPolygon(polygons) => {
                polygons.change_polygon_at(part as usize, ring as usize, index, change)
            }
            _ => Err(Refusal::NoVertex),
        }
    }
}

/// What was found, where the number is 0.
fn only_at(number: u32, found: Option<GridPoint>) -> Option<GridPoint>
    ensures { result ≡ only_at_place number found }
{
    if number == 0 { found } else { None }
}

/// The point at an index of a list.
fn point_at(points: &[GridPoint], index: u32) -> Option<GridPoint>
    ensures { result ≡ slice_get points.now index }
{
    points.get(index as usize).copied()
}

/// The point at an index of a line.
fn line_point(lines: &[Sequence<GridPoint>], part: u32, index: u32) -> Option<GridPoint>
    ensures { result ≡ option_and_then (λ ps. slice_get ps index) (slice_get lines.now part) }
{
    match lines.get(part as usize) {
        Some(points) => point_at(points.as_slice(), index),
        None => None,
    }
}

/// The vertex at an index of a ring.
fn ring_point(rings: &[Sequence<GridPoint>], ring: u32, index: u32) -> Option<GridPoint>
    ensures { result ≡ option_and_then (λ ps. slice_get ps index)
        (option_map ring_vertices_of (slice_get rings.now ring)) }
{
    match rings.get(ring as usize) {
        Some(points) => point_at(ring_vertices(points.as_slice()), index),
        None => None,
    }
}

/// How many vertices a line has.
fn line_count(lines: &[Sequence<GridPoint>], part: u32) -> Option<usize>
    ensures { result ≡ option_map (λ ps. length ps) (slice_get lines.now part) }
{
    match lines.get(part as usize) {
        Some(points) => Some(points.as_slice().len()),
        None => None,
    }
}

/// How many vertices a ring has.
fn ring_count(rings: &[Sequence<GridPoint>], ring: u32) -> Option<usize>
    ensures { result ≡ option_map (λ ps. length ps)
        (option_map ring_vertices_of (slice_get rings.now ring)) }
{
    match rings.get(ring as usize) {
        Some(points) => Some(ring_vertices(points.as_slice()).len()),
        None => None,
    }
}

/// The points of a ring but the closing one.
fn ring_vertices(ring: &[GridPoint]) -> &[GridPoint]
    ensures { result.now ≡ ring_vertices_of ring.now }
{
    match ring.split_last() {
        Some((_, vertices)) => vertices,
        None => ring,
    }
}
