ghost use Rattle.std.specs.Prelude.{◌≡◌, string_bytes, IfOk};
ghost use Rattle.sf_distance.specs.Mixed.{number_of};
ghost use Rattle.sf_console.specs.Answers.{distance_words, line as line_of, hex_text, matrix_text};

use sf_distance::Square;
use sf_distance::writing::{push_distance, push_square};
use sf_geometry::Extent;
use sf_refusals::Refusal;
use sf_relate::Matrix;
use sf_steps::Answer;
use sf_validity::Valid;
use std::alloc::{AllocError, Global};

/// What a line that is not refused is answered with.
#[derive(Drop)]
pub enum Reply {
    /// Nothing, since the line has no word.
    Nothing,
    /// The answer of an edit or an undo.
    Accepted(Answer),
    /// One line or more, each with its line feed.
    Lines(String),
    /// Whether something is so.
    Truth(bool),
    /// The corners of a box.
    Extent(Extent),
    /// The DE-9IM matrix of two geometries.
    Matrix(Matrix),
    /// The line of the identifiers that a group gave, with its line feed.
    Identifiers(Vec<u8>),
    /// The member of a group for which the group is refused, by its number from 1, and why.
    MemberRefused(usize, Refusal),
}

/// The canonical bytes of a geometry in small hexadecimal, and a line feed.
pub(crate) fn hex_line(alloc: Global, valid: &Valid) -> Result<String, AllocError>
    ensures { IfOk result (λ line. string_bytes line ≡ line_of (hex_text valid.now)) }
{
    let bytes = sf_wkb::write(alloc, valid.geometry())?;
    let mut line = hex::encode(alloc, bytes.as_slice())?;
    line.push('\n')?;
    Ok(line)
}

/// A distance, its square, and a line feed.
pub(crate) fn distance_line(alloc: Global, square: &Square) -> Result<String, AllocError>
    ensures { IfOk result (λ line. string_bytes line ≡ line_of (distance_words (number_of square.now))) }
{
    let mut line = String::new(alloc);
    push_distance(&mut line, square)?;
    line.push(' ')?;
    push_square(&mut line, square)?;
    line.push('\n')?;
    Ok(line)
}

/// The nine letters of a matrix, and a line feed. They stand on the stack, so they take no memory.
pub fn matrix_line(matrix: &Matrix) -> [u8; 10]
    ensures { result ≡ line_of (matrix_text matrix.now.0) }
{
    let [ii, ib, ie, bi, bb, be, ei, eb, ee] = matrix.text();
    [ii, ib, ie, bi, bb, be, ei, eb, ee, b'\n']
}
