use sf_distance::Reach;
use sf_query::Ask;

/// What is asked of two features.
#[derive(Clone, Copy, Debug)]
pub enum PairAsk {
    /// That their matrix is as a query asks.
    Matrix(Ask),
    /// That a point of the one is no farther from a point of the other than this, of all points of the plane that are not in an
    /// exterior.
    Near(Reach),
}
