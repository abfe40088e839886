//! The order of dimensions, which are the entries of a matrix.

ghost use Rattle.std.specs.Prelude.{◌≡◌};
ghost use Rattle.sf_known.specs.Entries.{exceeds, lesser_dim};
ghost use Rattle.sf_plane.specs.Unions.{greater_dim};

use sf_plane::Dim;

/// Whether the first dimension is the greater one.
pub fn exceeds(dim: Dim, other: Dim) -> bool
    ensures { result ≡ exceeds dim other }
{
    match (dim, other) {
        (Dim::Two, Dim::Two) => false,
        (Dim::Two, _) | (Dim::One, Dim::Nothing | Dim::Zero) | (Dim::Zero, Dim::Nothing) => true,
        _ => false,
    }
}

/// The greater of two dimensions.
pub fn greater(a: Dim, b: Dim) -> Dim
    ensures { result ≡ greater_dim a b }
{
    if exceeds(a, b) { a } else { b }
}

/// The lesser of two dimensions.
pub fn lesser(a: Dim, b: Dim) -> Dim
    ensures { result ≡ lesser_dim a b }
{
    if exceeds(a, b) { b } else { a }
}
