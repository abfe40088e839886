//! The cells of a list of pieces.

ghost use Rattle.sf_strips.specs.Pieces.{pieces_max};
ghost use Rattle.std.specs.Prelude.{◌≡◌, ◌≤◌, length, IfOk};
ghost use Rattle.std.specs.List.{All};
ghost use Rattle.sf_cells.specs.Cells.{cells};
ghost use Rattle.sf_cells.specs.Groups.{numbers};
ghost use Rattle.sf_cells.specs.Pieces.{HasLength};

use crate::sweep::walk;
use sf_cells::{Cell, Measure, Recorder, recorded};
use sf_strips::Piece;
use std::alloc::{AllocError, Global};

/// The cells of the pieces: columns from the left, each from the top. The first walk over them
/// measures, and the second one records them in room that was made in between.
pub fn decompose(alloc: Global, pieces: &[Piece]) -> Result<Vec<Cell>, AllocError>
    requires have_length { All HasLength pieces.now }
    requires few { length pieces.now ≤ pieces_max }
    ensures { IfOk result (λ found. found.items ≡ cells pieces.now) }
{
    let groups = own_groups(alloc, pieces.len())?;
    let mut measure = Measure {
        cells: 0,
        numbers: 0,
    };
    walk(alloc, pieces, groups.as_slice(), &mut measure)?;
    let mut recorder = Recorder::new(alloc, measure.cells, measure.numbers)?;
    walk(alloc, pieces, groups.as_slice(), &mut recorder)?;
    recorded(
        alloc,
        recorder.heads.as_slice(),
        recorder.numbers.as_slice(),
    )
}

/// A group of its own for each of so many pieces.
fn own_groups(alloc: Global, pieces: usize) -> Result<Vec<u32>, AllocError>
    requires { pieces ≤ pieces_max }
    ensures { IfOk result (λ groups. groups.items ≡ numbers 0 pieces) }
{
    let mut groups = Vec::with_capacity(alloc, pieces)?;
    for group in 0..pieces {
        groups.push_reserved(group as u32);
    }
    Ok(groups)
}
