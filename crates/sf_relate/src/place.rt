ghost use Rattle.std.specs.Prelude.{◌≡◌, ◌<◌, ◌||◌};
ghost use Rattle.sf_relate.specs.Locating.{in_one_alone};
ghost use Rattle.sf_relate.specs.Places.{is_place, place_by, row_of};
ghost use Rattle.sf_relate.specs.declared.place.Place.TheVariants as places;

use super::shape::Shape;

/// Where a point lies in a geometry.
#[derive(Clone, Copy, Debug, PartialEq, Eq)]
pub enum Place {
    Interior,
    Boundary,
    Exterior,
}

impl Place {
    /// The place of a cell in a geometry, by how many of its pieces are on the cell, how many ends
    /// of its lines are there, and how many of its edges are above.
    pub(crate) fn by_counts(shape: Shape, on: u32, ends: u32, above: u32) -> Place
        ensures { result ≡ place_by shape on ends above }
    {
        match shape {
            Shape::Points if on > 0 => Place::Interior,
            Shape::Lines if on > 0 && ends % 2 == 1 => Place::Boundary,
            Shape::Lines if on > 0 => Place::Interior,
            Shape::Areas if on > 0 => Place::Boundary,
            Shape::Areas if above % 2 == 1 => Place::Interior,
            _ => Place::Exterior,
        }
    }

    /// Whether it is in the geometry: in its interior or on its boundary.
    pub fn is_in(self) -> bool
        ensures { result ≡ (is_place places.Interior self || is_place places.Boundary self) }
    {
        !matches!(self, Place::Exterior)
    }

    /// The place in what just one of two areas has, from the places in both: on the boundary where
    /// it is on that of one of them.
    pub(crate) fn in_one_alone(self, other: Place) -> Place
        ensures { result ≡ in_one_alone self other }
    {
        match (self, other) {
            (Place::Boundary, _) | (_, Place::Boundary) => Place::Boundary,
            (Place::Exterior, _) => other,
            (Place::Interior, Place::Exterior) => Place::Interior,
            (Place::Interior, Place::Interior) => Place::Exterior,
        }
    }

    /// The row, or the column, of the place in a matrix.
    pub fn row(self) -> usize
        ensures value { result ≡ row_of self }
        ensures bound { result < 3 }
    {
        match self {
            Place::Interior => 0,
            Place::Boundary => 1,
            Place::Exterior => 2,
        }
    }
}
