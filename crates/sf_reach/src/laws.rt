//! Laws of chains of features, each the contract of a function that does nothing.

ghost use Rattle.sf_reach.specs.Replies.{ReachedIsOverThePlane};

/// The identifiers that are computed are those of just the features that chains lead to, over all points of the plane.
pub fn reached_is_over_the_plane()
    ensures { ReachedIsOverThePlane }
{}
