//! Laws of lines, each the contract of a function that does nothing.

ghost use Rattle.sf_linework.specs.Alongside.{AlongsideIsKnown};
ghost use Rattle.sf_linework.specs.Cover.{CoverIsKnown};
ghost use Rattle.sf_linework.specs.Crossed.{CrossingShows};
ghost use Rattle.sf_linework.specs.Ends.{EndsAreKnown};

/// What the ends of valid lines show of a matrix: the row of their boundary.
pub fn ends_are_known()
    ensures { EndsAreKnown }
{}

/// What it shows of the matrix of two lines, or of a line and an area, whether edges of them run along one another.
pub fn alongside_is_known()
    ensures { AlongsideIsKnown }
{}

/// What it shows of the matrix of two lines, or of a line and an area, that edges of one lie in edges of the other, or end off it.
pub fn cover_is_known()
    ensures { CoverIsKnown }
{}

/// What edges that cross at a point of no other edge show of the matrix of two lines, or of a line and an area.
pub fn crossing_shows()
    ensures { CrossingShows }
{}
