/// Why a sweep has not shown that no two edges meet.
#[derive(Clone, Copy, Debug, PartialEq, Eq)]
pub enum Doubt {
    /// These two edges, the earlier one first, seem to meet.
    Pair(usize, usize),
    /// Something else was met with.
    Open,
}
