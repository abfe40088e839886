//! Laws of contact, each the contract of a function that does nothing.

ghost use Rattle.sf_contact.specs.Absence.{AbsenceIsDecided};
ghost use Rattle.sf_contact.specs.Divided.{DividedAreasAreApart};

/// Valid geometries share no point where no point of the plane is on an edge of each, and no point, and no first point
/// of a line or ring, of either is in the other.
pub fn absence_is_decided()
    ensures { AbsenceIsDecided }
{}

/// Of valid areas on the two sides of a line through an edge of one of them, neither interior has a point of the other area.
pub fn divided_areas_are_apart()
    ensures { DividedAreasAreApart }
{}
