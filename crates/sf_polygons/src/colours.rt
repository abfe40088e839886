//! Colours for boxes.

ghost use Rattle.std.specs.Prelude.{◌≡◌, ◌<◌, ◌^◌, ℕ, IfOk, None, false, is_some, length, not, slice_index, slice_index_or, true};
ghost use Rattle.std.specs.List.{All, count_by, position};
ghost use Rattle.sf_polygons.specs.Colours.{IsColouring, do_meet as do_meet_by};

use sf_geometry::Extent;
use std::alloc::{AllocError, Global};

/// Numbers for boxes, so that two boxes with one number share no point: each gets the least that
/// none has of the boxes before it which it meets. What has no box meets nothing.
pub fn colours_of(alloc: Global, boxes: &[Option<Extent>]) -> Result<Vec<u32>, AllocError>
    requires { count_by is_some boxes.now < 2 ^ 32 }
    ensures { IfOk result (λ colours. IsColouring boxes.now colours.items) }
{
    let mut colours = Vec::with_capacity(alloc, boxes.len())?;
    let mut taken = vec![in alloc; false; boxes.len()]?;
    let mut earlier = 0;
    for extent in boxes {
        taken.fill(false);
        mark_taken(&mut taken, boxes, &colours, *extent);
        let colour = first_free(&taken[..earlier]).unwrap_or(earlier);
        colours.push(colour as u32)?;
        if extent.is_some() {
            earlier += 1;
        }
    }
    Ok(colours)
}

/// Marks the colours of the first boxes where they meet this one.
fn mark_taken(taken: &mut [bool], boxes: &[Option<Extent>], colours: &[u32], extent: Option<Extent>)
    requires { All (λ colour. colour < length taken.old) colours.now }
    ensures { (k : ℕ) → k < length boxes.now → k < length colours.now
        → do_meet_by (slice_index_or boxes.now k None) extent ≡ true
        → slice_index_or taken.new (slice_index colours.now k) false ≡ true }
{
    for (other, colour) in boxes.iter().zip(colours) {
        if do_meet(*other, extent) {
            taken[*colour as usize] = true;
        }
    }
}

/// The first place that isn't taken.
fn first_free(taken: &[bool]) -> Option<usize>
    ensures { result ≡ position not taken.now }
{
    taken.iter().position(|taken| !*taken)
}

/// Whether both boxes are there and share a point.
fn do_meet(a: Option<Extent>, b: Option<Extent>) -> bool
    ensures { result ≡ do_meet_by a b }
{
    match (a, b) {
        (Some(a), Some(b)) => a.meets(b),
        _ => false,
    }
}
