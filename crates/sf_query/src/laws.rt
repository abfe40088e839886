//! Laws of queries, each the contract of a function that does nothing.

ghost use Rattle.sf_query.specs.Replies.{AnswersAreOverThePlane};

/// The identifiers that are computed are those of just the features whose matrix over the plane is as
/// asked.
pub fn answers_are_over_the_plane()
    ensures { AnswersAreOverThePlane }
{}
