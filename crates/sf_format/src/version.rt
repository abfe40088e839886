/// Which version of the format a file is of.
#[derive(Clone, Copy, Debug, PartialEq, Eq)]
pub enum Version {
    /// Coordinates of 20 bits, and no rules.
    First,
    /// Coordinates of 24 bits, and no rules.
    Second,
    /// Coordinates of 24 bits, and rules between layers behind these.
    Third,
    /// Coordinates of 31 bits, and rules between layers and on values: the version that is written.
    Fourth,
}
