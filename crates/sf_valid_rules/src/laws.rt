//! Laws of validity and simplicity, each the contract of a function that does nothing.

ghost use Rattle.sf_valid_rules.specs.Verdicts.{FirstFaultIsOverThePlane, SimplicityIsOverThePlane, VerdictIsOne};

/// The first fault that is computed is the first one over all points of the plane, and where there
/// is none the geometry is valid.
pub fn first_fault_is_over_the_plane()
    ensures { FirstFaultIsOverThePlane }
{}

/// A geometry has one verdict.
pub fn verdict_is_one()
    ensures { VerdictIsOne }
{}

/// A geometry is computed to be simple just where it is simple over all points of the plane.
pub fn simplicity_is_over_the_plane()
    ensures { SimplicityIsOverThePlane }
{}
