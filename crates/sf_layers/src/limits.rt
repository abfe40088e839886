/// How many layers a store has at most.
pub const LAYERS_MAX: usize = 65_535;

/// The next identifier of a layer that takes no more features.
pub const ID_END: u32 = 4_294_967_295;

/// The next column number of a layer that takes no more columns.
pub const COLUMN_END: u16 = 65_535;
