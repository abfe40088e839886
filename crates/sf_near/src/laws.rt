//! Laws of features near a geometry, each the contract of a function that does nothing.

ghost use Rattle.sf_near.specs.Pairs.{AsksAreOverThePlane};
ghost use Rattle.sf_near.specs.Replies.{NearestIsOverThePlane, WithinIsOverThePlane};

/// The identifiers that are computed are those of just the features that are within the distance, over all points of the plane.
pub fn within_is_over_the_plane()
    ensures { WithinIsOverThePlane }
{}

/// The nearest features that are computed are those that are nearest over all points of the plane.
pub fn nearest_is_over_the_plane()
    ensures { NearestIsOverThePlane }
{}

/// Of two valid geometries it is computed that they are as asked just where they are, over all points of the plane.
pub fn asks_are_over_the_plane()
    ensures { AsksAreOverThePlane }
{}
