//! Laws of steps and inverses. The functions do nothing: each one's contract is its law.
ghost use Rattle.sf_steps.specs.Laws.{InverseTakesBack, InverseWeighsWhatWasTouched, StepJudgesOverThePlane, StepKeepsWellFormed};

/// An accepted edit leads from a well-formed content to a well-formed content.
pub fn step_keeps_well_formed()
    ensures { StepKeepsWellFormed }
{}

/// The inverse of an accepted edit takes the content back to what it was and the edit back, and has
/// the edit's answer.
pub fn inverse_takes_back()
    ensures { InverseTakesBack }
{}

/// The inverse of an accepted edit holds as many grid points, values and columns as the edit removes
/// of the content or overwrites.
pub fn inverse_weighs_what_was_touched()
    ensures { InverseWeighsWhatWasTouched }
{}

/// A geometry that a step takes is valid over all points of the plane, and one that it refuses as
/// invalid has that first fault over them.
pub fn step_judges_over_the_plane()
    ensures { StepJudgesOverThePlane }
{}
