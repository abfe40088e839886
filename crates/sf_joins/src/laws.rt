//! Laws of joins, each the contract of a function that does nothing.

ghost use Rattle.sf_joins.specs.Converse.{AsksTurnRound, PairsTurnRound};
ghost use Rattle.sf_joins.specs.Joins.{BesideIsOverThePlane, JoinsAreOverThePlane};

/// An ask holds of two geometries where its converse holds of them the other way round.
pub fn asks_turn_round()
    ensures { AsksTurnRound }
{}

/// What is asked of two features holds of two geometries where its converse holds of them the other way round.
pub fn pairs_turn_round()
    ensures { PairsTurnRound }
{}

/// The pairs that are computed are just those of features that are as asked over the plane.
pub fn joins_are_over_the_plane()
    ensures { JoinsAreOverThePlane }
{}

/// So are the features beside one that are computed.
pub fn beside_is_over_the_plane()
    ensures { BesideIsOverThePlane }
{}
