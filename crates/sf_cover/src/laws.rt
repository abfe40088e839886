//! Laws of gaps, each the contract of a function that does nothing.

ghost use Rattle.sf_cover.specs.Covered.{CoverIsOverThePlane, GapsAreInThePlane};
ghost use Rattle.sf_cover.specs.Near.{CoverIsFound, CoverIsKeptNear};

/// No sample is in a gap just where no point of the plane is.
pub fn cover_is_over_the_plane()
    ensures { CoverIsOverThePlane }
{}

/// The gap that is found is a point of the plane that lies in one.
pub fn gaps_are_in_the_plane()
    ensures { GapsAreInThePlane }
{}

/// A layer covers a geometry over all points of the plane, where no sample of it is in a gap between some of its features.
pub fn cover_is_found()
    ensures { CoverIsFound }
{}

/// Where a layer left no gap in a geometry, it leaves none after a change if none is where features were that changed.
pub fn cover_is_kept_near()
    ensures { CoverIsKeptNear }
{}
