use sf_ruled_store::Form;

/// The form of what a rule demands of the values in a column.
#[derive(Clone, Copy, Debug, PartialEq, Eq)]
pub enum DemandForm {
    /// No two features have the same value.
    Unique,
    /// Each feature has a value.
    Required,
    /// Each value is one of those that follow.
    OneOf,
    /// Each value is in the range that follows.
    InRange,
}

/// The form of a rule in a file, which decides what follows it there.
#[derive(Clone, Copy, Debug, PartialEq, Eq)]
pub enum RuleForm {
    /// That of a rule between layers that asks for a matrix.
    Between(Form),
    /// That of a rule between layers that asks for what is near.
    ByDistance(Form),
    /// That of a rule on the values in a column.
    OnValues(DemandForm),
}
