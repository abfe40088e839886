use sf_geometry::Extent;

/// A box over edges that stand one after another, in a list in which what is below a node stands
/// right before it.
#[derive(Clone, Copy, Debug)]
pub(crate) struct Node {
    pub extent: Extent,
    /// How many nodes stand before those below it.
    pub begin: usize,
    /// The number of its first edge.
    pub start: usize,
    /// The number of the edge behind its last one.
    pub end: usize,
    /// How many levels are below it.
    pub height: usize,
}
