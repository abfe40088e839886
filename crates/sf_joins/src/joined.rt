/// The answer of a join.
#[derive(Debug, Drop)]
pub struct Joined {
    /// The identifiers of the features of each pair, that of the first layer first; rising by the first and then by the
    /// second.
    pub pairs: Vec<(u32, u32)>,
}

/// The answer of a join beside one feature.
#[derive(Debug, Drop)]
pub struct Beside {
    /// The identifiers of the features of the first layer, rising.
    pub ids: Vec<u32>,
}
