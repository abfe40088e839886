//! Laws of a geometry whose edges have no point of another one's box, of those that are near it, and of a matrix the
//! other way round, each the contract of a function that does nothing.

ghost use Rattle.sf_prepared.specs.Nearby.{LeavingReachesBeyond, NearbyTellsPlaces};
ghost use Rattle.sf_prepared.specs.Places.{ApartByPoint, ApartFromLines, WithinByPoint};
ghost use Rattle.sf_prepared.specs.Transposed.{MatricesAreTransposed};

/// A valid geometry in a box that no edge of an area meets lies in the area's interior where a point of it does,
/// and leaves a part of it free.
pub fn within_by_point()
    ensures { WithinByPoint }
{}

/// It shares no point with the area where a point of it is in the exterior.
pub fn apart_by_point()
    ensures { ApartByPoint }
{}

/// It shares no point with lines that have no point of the box.
pub fn apart_from_lines()
    ensures { ApartFromLines }
{}

/// The edges of an area in the columns over a valid geometry's box, from its lower side up, give of each point of
/// that geometry its place in the area.
pub fn nearby_tells_places()
    ensures { NearbyTellsPlaces }
{}

/// Where an end of one of these is outside of the box, the area has a part of its interior with area and a part of
/// its boundary with length in the geometry's exterior.
pub fn leaving_reaches_beyond()
    ensures { LeavingReachesBeyond }
{}

/// The matrix of two geometries has as rows the columns of the one the other way round.
pub fn matrices_are_transposed()
    ensures { MatricesAreTransposed }
{}
