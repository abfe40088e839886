use sf_grid::Frac;

/// A part of the plane from top to bottom.
#[derive(Clone, Copy, Debug)]
pub enum Strip {
    /// A column in which something begins, ends or meets.
    Column(Frac),
    /// What lies between two such columns, or beside all of them.
    Slab,
}
