//! Laws of strands at the points of the plane, each the contract of a function that does nothing.

ghost use Rattle.sf_strands.specs.Strands.{StrandsDecide, TanglesDecide};

/// A line or ring meets itself at a point just where two strands of it are there: at least two more
/// edges than joints.
pub fn strands_decide()
    ensures { StrandsDecide }
{}

/// Of lines, one meets itself at a point, or two meet there that don't both end there, just where
/// two strands are there that aren't both ends.
pub fn tangles_decide()
    ensures { TanglesDecide }
{}
