/// Which ends of a range are given in a file.
#[derive(Clone, Copy, Debug, PartialEq, Eq)]
pub struct RangeEnds {
    /// Whether the first one is.
    pub from: bool,
    /// Whether the last one is.
    pub to: bool,
}
