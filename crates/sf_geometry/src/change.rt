//! A change of one vertex, made in a list, a ring, or one of several of them.

ghost use Rattle.std.specs.Prelude.{◌≡◌, [], ◌∷◌, option_and_then, ◌-◌, Err, None, Ok, Some, IfErr, OnErr, OnOk, IsFalse, ◌<◌, length};
ghost use Rattle.std.specs.List.{list_any};
ghost use Rattle.sf_geometry.specs.Changes.{IsInsertion, Refuses, change_of, filled_or_refused, lacks, made, place_fault};
ghost use Rattle.sf_geometry.specs.Size.{has_empty, is_empty};
ghost use Rattle.sf_geometry.specs.Vertices.{change_at, change_ring as change_of_ring, one_point, ring_of, ring_vertices};

use super::geometry::Geometry;
use super::refusal::Refusal;
use super::sequence::Sequence;
use sf_grid::GridPoint;

/// A change at an index of a list of vertices.
#[derive(Clone, Copy)]
pub(crate) enum Change {
    /// The point is put before the vertex there, or at the end.
    Insert(GridPoint),
    /// The vertex there is moved to the point.
    Move(GridPoint),
    /// The vertex there is removed.
    Remove,
}

impl Change {
    /// Whether the change can be made at an index of so many vertices, and leaves one.
    fn check(&self, index: usize, count: usize) -> Result<(), Refusal>
        ensures ok { OnOk result (place_fault self.now index count ≡ None) }
        ensures refused { IfErr result (λ refusal. place_fault self.now index count ≡ Some refusal) }
    {
        match self {
            Change::Insert(_) if index <= count => Ok(()),
            Change::Move(_) if index < count => Ok(()),
            Change::Remove if index < count && count != 1 => Ok(()),
            Change::Remove if index < count => Err(Refusal::Empty),
            _ => Err(Refusal::NoVertex),
        }
    }
}

/// Makes a change in a Point, which stays one point.
pub(crate) fn change_point(
    point: &mut GridPoint,
    index: usize,
    change: &Change,
) -> Result<(), Refusal>
    ensures changed { OnOk result
        (option_and_then one_point (change_of change.now index (point.old ∷ []))
        ≡ Some (Geometry.Point point.new)) }
    ensures refused { IfErr result (λ refusal. (refusal ≡ Refusal.NoVertex)
        × (option_and_then one_point (change_of change.now index (point.old ∷ [])) ≡ None)) }
    ensures unchanged { OnErr result (point.new ≡ point.old) }
{
    match change {
        Change::Move(to) if index == 0 => {
            *point = *to;
            Ok(())
        }
        _ => Err(Refusal::NoVertex),
    }
}

impl Sequence<GridPoint> {
    /// Makes a change in a line.
    pub(crate) fn change_line(&mut self, index: usize, change: &Change) -> Result<(), Refusal>
        ensures changed { OnOk result
            (filled_or_refused is_empty (change_of change.now index self.old) ≡ Ok self.new) }
        ensures refused { IfErr result
            (Refuses change.now (filled_or_refused is_empty (change_of change.now index self.old))) }
        ensures unchanged { OnErr result (self.new ≡ self.old) }
    {
        change.check(index, self.values.len())?;
        self.make(index, change)
    }

    /// Makes a change in a ring. The closing point has no index, and follows the first one.
    pub(crate) fn change_ring(&mut self, index: usize, change: &Change) -> Result<(), Refusal>
        requires filled { IsFalse (is_empty self.old) }
        ensures changed { OnOk result
            (filled_or_refused is_empty (change_of_ring (change_of change.now index) self.old)
            ≡ Ok self.new) }
        ensures refused { IfErr result
            (Refuses change.now (filled_or_refused is_empty (change_of_ring (change_of change.now index) self.old))) }
        ensures unchanged { OnErr result (self.new ≡ self.old) }
    {
        change.check(index, self.values.len() - 1)?;
        self.make(index, change)?;
        self.close();
        Ok(())
    }

    /// Makes a change at an index that is a place for it.
    fn make(&mut self, index: usize, change: &Change) -> Result<(), Refusal>
        requires place { place_fault change.now index (length self.old) ≡ None }
        ensures made { OnOk result (self.new ≡ made change.now index self.old) }
        ensures refused { IfErr result (λ refusal.
            (refusal ≡ Refusal.Memory) × IsInsertion change.now) }
        ensures unchanged { OnErr result (self.new ≡ self.old) }
    {
        match change {
            Change::Insert(point) => {
                if self.values.insert(index, *point).is_err() {
                    return Err(Refusal::Memory);
                }
            }
            Change::Move(point) => self.values[index] = *point,
            Change::Remove => {
                self.values.remove(index);
            }
        }
        Ok(())
    }

    /// Sets the closing point of a ring to the first one.
    fn close(&mut self)
        requires { 1 < length self.old }
        ensures { self.new ≡ ring_of (ring_vertices self.old) }
    {
        let last = self.values.len() - 1;
        self.values[last] = self.values[0];
    }
}

impl Sequence<Sequence<GridPoint>> {
    /// Makes a change in the line at a place.
    pub(crate) fn change_line_at(
        &mut self,
        place: usize,
        index: usize,
        change: &Change,
    ) -> Result<(), Refusal>
        requires filled { IsFalse (list_any is_empty self.old) }
        ensures changed { OnOk result
            (filled_or_refused has_empty (change_at place (change_of change.now index) self.old)
            ≡ Ok self.new) }
        ensures refused { IfErr result
            (Refuses change.now (filled_or_refused has_empty (change_at place (change_of change.now index) self.old))) }
        ensures unchanged { OnErr result (self.new ≡ self.old) }
    {
        if place >= self.values.len() {
            return Err(Refusal::NoVertex);
        }
        let line = &mut self.values[place];
        line.change_line(index, change)
    }

    /// Makes a change in the ring at a place.
    pub(crate) fn change_ring_at(
        &mut self,
        place: usize,
        index: usize,
        change: &Change,
    ) -> Result<(), Refusal>
        requires filled { IsFalse (list_any is_empty self.old) }
        ensures changed { OnOk result
            (filled_or_refused has_empty
            (change_at place (change_of_ring (change_of change.now index)) self.old)
            ≡ Ok self.new) }
        ensures refused { IfErr result
            (Refuses change.now (filled_or_refused has_empty (change_at place (change_of_ring (change_of change.now index)) self.old))) }
        ensures unchanged { OnErr result (self.new ≡ self.old) }
    {
        if place >= self.values.len() {
            return Err(Refusal::NoVertex);
        }
        let ring = &mut self.values[place];
        ring.change_ring(index, change)
    }
}

impl Sequence<Sequence<Sequence<GridPoint>>> {
    /// Makes a change in a ring of the polygon at a place.
    pub(crate) fn change_polygon_at(
        &mut self,
        place: usize,
        ring: usize,
        index: usize,
        change: &Change,
    ) -> Result<(), Refusal>
        requires filled { IsFalse (list_any has_empty self.old) }
        ensures changed { OnOk result
            (filled_or_refused (lacks has_empty)
            (change_at place (change_at ring (change_of_ring (change_of change.now index))) self.old)
            ≡ Ok self.new) }
        ensures refused { IfErr result
            (Refuses change.now (filled_or_refused (lacks has_empty) (change_at place (change_at ring (change_of_ring (change_of change.now index))) self.old))) }
        ensures unchanged { OnErr result (self.new ≡ self.old) }
    {
        if place >= self.values.len() {
            return Err(Refusal::NoVertex);
        }
        let rings = &mut self.values[place];
        rings.change_ring_at(ring, index, change)
    }
}
