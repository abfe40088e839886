ghost use Rattle.std.specs.Prelude.{◌≡◌};

use std::marker::Model;

/// Piece numbers. Those of a cell are in rising order, as its definition lists them.
#[derive(Drop)]
pub struct PieceNumbers {
    items: Vec<u32>,
}

impl Model for PieceNumbers {
    ghost use Rattle.std.specs.Prelude.{List, ℕ};

    ghost Value = { List ℕ };

    ghost view = { λ n. n.items.items };
}

impl PieceNumbers {
    /// The numbers of a `Vec`, which takes no memory.
    pub fn from_vec(numbers: Vec<u32>) -> PieceNumbers
        ensures { result ≡ numbers.items }
    {
        PieceNumbers { items: numbers }
    }

    /// The `Vec` of the numbers, which takes no memory.
    pub fn into_vec(self) -> Vec<u32>
        ensures { result.items ≡ self }
    {
        let PieceNumbers { items } = self;
        items
    }

    /// The numbers as a slice.
    pub fn as_slice(&self) -> &[u32]
        ensures { result.now ≡ self.now }
    {
        self.items.as_slice()
    }
}

/// A cell of the plane: its dimension, the pieces on it, and the edges above it, each piece by its
/// place in the list of pieces.
#[derive(Drop)]
pub struct Cell {
    pub dim: u8,
    pub on: PieceNumbers,
    pub above: PieceNumbers,
}
