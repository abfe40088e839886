use super::goal::Goal;

/// What is to be found out of a matrix.
#[derive(Clone, Copy, Debug, PartialEq, Eq)]
pub enum Aim {
    /// Whether it is as is asked.
    Answer(Goal),
    /// All entries.
    Entries,
    /// All entries of two areas but that of the boundaries, of which it is enough that they share a point: edges that run along
    /// one another decide the rest.
    ButBoundaries,
}
