use std::marker::Model;

/// What takes the cells of a set of pieces, one by one.
pub trait CellSink {
    ghost use Rattle.std.specs.Prelude.{◌≡◌, true};
    ghost use Rattle.sf_cells.specs.Groups.{Item};

    /// What it has gathered.
    ghost Content: { Type 0 };

    /// What it has gathered so far.
    ghost content: { Self → Content };

    /// What it has gathered once a further cell is handed to it.
    ghost after: { Content → Item → Content };

    /// Takes a cell: its dimension, and of each group how many of its pieces are on the cell and
    /// how many of its edges are above it.
    fn cell(&mut self, dim: u8, on: &[u32], above: &[u32])
        ensures { content self.new ≡ after (content self.old)
            (record { dim = dim; on = on.now; above = above.now }) };

    /// Whether no further cell changes what it has gathered, so that nobody need hand it any.
    fn is_full(&self) -> bool
        ensures { result ≡ true → (i : Item) → after (content self.now) i ≡ content self.now };
}
