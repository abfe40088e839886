ghost use Rattle.std.specs.Prelude.{◌≢◌};

use sf_grid::GridPoint;

/// An edge with the number, counted from 0, of the point from which it goes.
#[derive(Clone, Copy)]
pub(crate) struct WrittenEdge {
    pub number: usize,
    pub from: GridPoint,
    pub to: GridPoint,
    ghost has_length: { from ≢ to },
}
