/// A ring of polygons by its part and its number in that part, both counted from 0: 0 is the shell. A lone
/// polygon is part 0.
#[derive(Clone, Copy, Debug, PartialEq, Eq)]
pub struct Spot {
    pub part: usize,
    pub ring: usize,
}

/// Where a fault is. Parts, rings and edges are counted from 0; an edge goes from the point with its number, of
/// the list as it is written, to the next one.
#[derive(Clone, Copy, Debug, PartialEq, Eq)]
pub enum Place {
    /// A line that has too few points.
    Line {
        part: usize,
    },
    /// A ring that is open or has too few points.
    Ring {
        ring: Spot,
    },
    /// Two edges of a ring that meet.
    Edges {
        ring: Spot,
        first: usize,
        second: usize,
    },
    /// Two rings, and an edge of each, that share a piece.
    Rings {
        first: Spot,
        first_edge: usize,
        second: Spot,
        second_edge: usize,
    },
    /// A hole that has a point outside its shell, and its first edge that has one, if there is such an edge.
    Hole {
        hole: Spot,
        edge: Option<usize>,
    },
    /// Two holes of one polygon, by their numbers as rings, that have an inner point in common.
    Holes {
        part: usize,
        first: usize,
        second: usize,
    },
    /// Two polygons that have an inner point in common.
    Parts {
        first: usize,
        second: usize,
    },
}
