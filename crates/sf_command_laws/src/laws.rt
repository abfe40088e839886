//! Laws of the definitions, each proved as the contract of a function that does nothing.
ghost use Rattle.sf_command_laws.specs.Laws.{GivenGeometriesAreJudgedOverThePlane};

/// A geometry that features are compared with is valid over all points of the plane. A line that is refused for a
/// fault of shape spells a geometry of which that is the first one there.
pub fn given_geometries_are_judged_over_the_plane()
    ensures { GivenGeometriesAreJudgedOverThePlane }
{}
