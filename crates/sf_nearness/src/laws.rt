//! Laws of distances of geometries, each the contract of a function that does nothing.

ghost use Rattle.sf_nearness.specs.Laws.{ComputedIsLeast, DistanceIsOfSegments, LeastIsOne, LeavesBySegments, NearnessIsOfSegments};
ghost use Rattle.sf_nearness.specs.Leaving.{LeavingPasses};

/// Between two points of different parity lies a point of an edge that is no farther from the second one than the first is.
pub fn leaving_passes()
    ensures { LeavingPasses }
{}

/// Who goes from a point of a valid geometry to one outside passes a segment, and is there no farther from the end.
pub fn leaves_by_segments()
    ensures { LeavesBySegments }
{}

/// The least square of the distance of the segments of valid geometries that share no point is that of the geometries.
pub fn distance_is_of_segments()
    ensures { DistanceIsOfSegments }
{}

/// Valid geometries that share no point have points within a distance only where their segments have.
pub fn nearness_is_of_segments()
    ensures { NearnessIsOfSegments }
{}

/// The square that is computed of two valid geometries is the least over all points of the plane.
pub fn computed_is_least()
    ensures { ComputedIsLeast }
{}

/// The least square of two geometries is one number.
pub fn least_is_one()
    ensures { LeastIsOne }
{}
