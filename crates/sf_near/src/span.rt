//! How far apart points of two boxes are at most.

ghost use Rattle.std.specs.Prelude.{◌≡◌, ◌<◌, ◌^◌, ◌-ℤ◌, IsTrue, pos, unsigned_abs};
ghost use Rattle.sf_grid.specs.Fraction.{fraction_le, whole};
ghost use Rattle.sf_distance.specs.Mixed.{number_of};
ghost use Rattle.sf_near.specs.Span.{span_of, square_of_span as square_of_span_of};

use sf_distance::Square;
use sf_geometry::Extent;

/// Whether two boxes show that no two points of theirs are farther apart than the root of a bound, which is in squared grid steps.
pub(crate) fn are_wholly_within(a: Extent, b: Extent, bound: &Square) -> bool
    ensures { IsTrue result → IsTrue (fraction_le (whole (pos (square_of_span_of a b))) (number_of bound.now)) }
{
    match u64::try_from(square_of_span(a, b)) {
        Ok(square) => Square::whole(square).is_at_most(bound),
        Err(_) => false,
    }
}

/// The square of the distance of the corners of two boxes that are farthest apart.
fn square_of_span(a: Extent, b: Extent) -> u128
    ensures { result ≡ square_of_span_of a b }
{
    let x = u128::from(span(a.min_x, a.max_x, b.min_x, b.max_x));
    let y = u128::from(span(a.min_y, a.max_y, b.min_y, b.max_y));
    x * x + y * y
}

/// The greatest difference of a number from `a` to `b` and one from `c` to `d`, without its sign.
fn span(a: i32, b: i32, c: i32, d: i32) -> u64
    ensures value { result ≡ unsigned_abs (span_of a b c d) }
    ensures small { result < 2 ^ 33 }
{
    signed_span(a, b, c, d).unsigned_abs()
}

/// The same, with a sign.
fn signed_span(a: i32, b: i32, c: i32, d: i32) -> i64
    ensures value { result ≡ span_of a b c d }
    ensures small { unsigned_abs result < 2 ^ 33 }
{
    let one = difference(b, c);
    let other = difference(d, a);
    one.max(other)
}

/// The difference of two numbers.
fn difference(a: i32, b: i32) -> i64
    ensures value { result ≡ a -ℤ b }
    ensures small { unsigned_abs result < 2 ^ 33 }
{
    i64::from(a) - i64::from(b)
}
