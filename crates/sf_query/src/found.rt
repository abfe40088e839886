/// The answer of a query.
#[derive(Debug, Drop)]
pub struct Found {
    /// The identifiers of the features that answer, rising.
    pub ids: Vec<u32>,
    /// How many features had to be looked at: those whose boxes meet the given geometry's where the
    /// ask needs contact, else all.
    pub looked: usize,
}
