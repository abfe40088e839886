//! Sums and products of coordinates, each of which fits, and the order of products that don't.

ghost use Rattle.std.specs.Prelude.{◌≡◌, ◌≤◌, ◌<◌, ◌+◌, ◌*◌, ◌+ℤ◌, ◌-ℤ◌, ◌*ℤ◌, ◌≤ℤ◌, ◌<ℤ◌, pos, unsigned_abs};
ghost use Rattle.std.specs.Ordering.{int_cmp, int_eq};
ghost use Rattle.sf_grid.specs.Bounds.{IsCoordinate, coordinate_bound, cross_bound, denominator_end, difference_bound, numerator_bound, part_bound, part_end, part_product_bound, product_bound};
ghost use Rattle.sf_grid.specs.Edge.{cross as cross_of};
ghost use Rattle.sf_grid.specs.Plane.{IsOnGrid, grid_point};

use crate::GridPoint;
use std::cmp::Ordering;

/// How far `a` is above `b`.
pub fn difference(a: i32, b: i32) -> i64
    requires first_on_grid { IsCoordinate a }
    requires second_on_grid { IsCoordinate b }
    ensures value { result ≡ a -ℤ b }
    ensures bound { unsigned_abs result ≤ difference_bound }
{
    i64::from(a) - i64::from(b)
}

/// The product of two coordinates.
pub fn coordinate_product(a: i32, b: i32) -> i64
    requires first_on_grid { IsCoordinate a }
    requires second_on_grid { IsCoordinate b }
    ensures value { result ≡ a *ℤ b }
    ensures bound { unsigned_abs result ≤ coordinate_bound * coordinate_bound }
{
    i64::from(a) * i64::from(b)
}

/// The product of two differences of coordinates.
pub fn product(a: i64, b: i64) -> i64
    requires first_small { unsigned_abs a ≤ difference_bound }
    requires second_small { unsigned_abs b ≤ difference_bound }
    ensures value { result ≡ a *ℤ b }
    ensures bound { unsigned_abs result ≤ product_bound }
{
    a * b
}

/// A product that needs more than 64 bits.
pub(crate) fn wide_product(a: i64, b: i64) -> i128
    requires first_small { unsigned_abs a ≤ part_bound }
    requires second_small { unsigned_abs b ≤ denominator_end }
    ensures value { result ≡ a *ℤ b }
    ensures bound { unsigned_abs result ≤ part_product_bound }
{
    i128::from(a) * i128::from(b)
}

/// The cross product of `b - a` with `c - a`: positive where `c` is to the left.
pub fn cross(a: GridPoint, b: GridPoint, c: GridPoint) -> i64
    ensures value { result ≡ cross_of a b (grid_point c) }
    ensures bound { unsigned_abs result ≤ cross_bound }
    ensures on_grid { IsOnGrid a × IsOnGrid b × IsOnGrid c }
{
    product(difference(b.x(), a.x()), difference(c.y(), a.y()))
        - product(difference(b.y(), a.y()), difference(c.x(), a.x()))
}

/// The sum of two coordinates, each as often as its weight says.
pub(crate) fn weighted_sum(a: i32, b: i32, first: u64, second: u64) -> i128
    requires first_on_grid { IsCoordinate a }
    requires second_on_grid { IsCoordinate b }
    requires small { first + second < denominator_end }
    ensures value { result ≡ a *ℤ pos first +ℤ b *ℤ pos second }
    ensures bound { unsigned_abs result ≤ numerator_bound }
{
    weighted(a, first) + weighted(b, second)
}

/// A coordinate as often as its weight says.
fn weighted(a: i32, weight: u64) -> i128
    requires on_grid { IsCoordinate a }
    requires small { weight < denominator_end }
    ensures value { result ≡ a *ℤ pos weight }
    ensures bound { unsigned_abs result ≤ part_product_bound }
{
    wide_product(i64::from(a), weight as i64)
}

/// The order of two products of a numerator and a denominator, each of which may need 156 bits: the numerators are parted, so
/// that no product of a part needs more than 127.
pub(crate) fn products_order(a: i128, d: i64, n: i128, r: i64) -> Ordering
    requires first_small { unsigned_abs a ≤ numerator_bound }
    requires first_den_small { unsigned_abs d ≤ denominator_end }
    requires second_small { unsigned_abs n ≤ numerator_bound }
    requires second_den_small { unsigned_abs r ≤ denominator_end }
    ensures { result ≡ int_cmp (a *ℤ d) (n *ℤ r) }
{
    let (a_high, a_low) = numerator_parts(a);
    let (n_high, n_low) = numerator_parts(n);
    let high = product_gap(a_high, d, n_high, r);
    let low = product_gap(a_low, d, n_low, r);
    let (carried, rest) = parted(low);
    order_of_parts(high + carried, rest)
}

/// Whether two such products are one number. What is left of the lower parts decides first: it differs for all but a few numbers
/// that differ.
pub(crate) fn are_products_equal(a: i128, d: i64, n: i128, r: i64) -> bool
    requires first_small { unsigned_abs a ≤ numerator_bound }
    requires first_den_small { unsigned_abs d ≤ denominator_end }
    requires second_small { unsigned_abs n ≤ numerator_bound }
    requires second_den_small { unsigned_abs r ≤ denominator_end }
    ensures { result ≡ int_eq (a *ℤ d) (n *ℤ r) }
{
    let (a_high, a_low) = numerator_parts(a);
    let (n_high, n_low) = numerator_parts(n);
    let low = product_gap(a_low, d, n_low, r);
    let (carried, rest) = parted(low);
    is_nothing(rest) && is_gap_balanced(a_high, d, n_high, r, carried)
}

/// Whether the one product of a part and a denominator is greater than another by what was carried, taken negative.
fn is_gap_balanced(a: i64, d: i64, n: i64, r: i64, carried: i128) -> bool
    requires first_small { unsigned_abs a ≤ part_bound }
    requires first_den_small { unsigned_abs d ≤ denominator_end }
    requires second_small { unsigned_abs n ≤ part_bound }
    requires second_den_small { unsigned_abs r ≤ denominator_end }
    requires carried_small { unsigned_abs carried ≤ part_product_bound }
    ensures { result ≡ int_eq ((a *ℤ d -ℤ n *ℤ r) +ℤ carried) (pos 0) }
{
    let high = product_gap(a, d, n, r);
    is_zero(high + carried)
}

/// Whether a number is 0.
fn is_zero(n: i128) -> bool
    ensures { result ≡ int_eq n (pos 0) }
{
    n == 0
}

/// Whether a rest is 0.
fn is_nothing(rest: i64) -> bool
    ensures { result ≡ int_eq rest (pos 0) }
{
    rest == 0
}

/// The order of a number to 0, given what it has of `part_end` and what is left of it.
fn order_of_parts(high: i128, rest: i64) -> Ordering
    requires from { pos 0 ≤ℤ rest }
    requires below { rest <ℤ pos part_end }
    ensures { result ≡ int_cmp (high *ℤ pos part_end +ℤ rest) (pos 0) }
{
    if high == 0 {
        rest.cmp(&0)
    } else {
        high.cmp(&0)
    }
}

/// How much greater the one product of a part and a denominator is than another.
fn product_gap(a: i64, d: i64, n: i64, r: i64) -> i128
    requires first_small { unsigned_abs a ≤ part_bound }
    requires first_den_small { unsigned_abs d ≤ denominator_end }
    requires second_small { unsigned_abs n ≤ part_bound }
    requires second_den_small { unsigned_abs r ≤ denominator_end }
    ensures value { result ≡ a *ℤ d -ℤ n *ℤ r }
    ensures bound { unsigned_abs result ≤ 2 * part_product_bound }
{
    wide_product(a, d) - wide_product(n, r)
}

/// The parts of a numerator.
fn numerator_parts(n: i128) -> (i64, i64)
    requires { unsigned_abs n ≤ numerator_bound }
    ensures value { n ≡ result.0 *ℤ pos part_end +ℤ result.1 }
    ensures high { unsigned_abs result.0 ≤ part_bound }
    ensures low { unsigned_abs result.1 ≤ part_bound }
{
    let (high, low) = parted(n);
    (high as i64, low)
}

/// A number as a multiple of `part_end`, rounded down, and what is left of it.
fn parted(n: i128) -> (i128, i64)
    requires { unsigned_abs n ≤ 2 * part_product_bound }
    ensures value { n ≡ result.0 *ℤ pos part_end +ℤ result.1 }
    ensures from { pos 0 ≤ℤ result.1 }
    ensures below { result.1 <ℤ pos part_end }
{
    let high = upper(n);
    (high, rest(n, high))
}

/// How often a number has `part_end`, rounded down.
fn upper(n: i128) -> i128
    ensures low { (result *ℤ pos part_end) ≤ℤ n }
    ensures high { n <ℤ (result *ℤ pos part_end +ℤ pos part_end) }
{
    n >> 32
}

/// What is left of a number that has `part_end` so often.
fn rest(n: i128, high: i128) -> i64
    requires small { unsigned_abs n ≤ 2 * part_product_bound }
    requires low { (high *ℤ pos part_end) ≤ℤ n }
    requires high { n <ℤ (high *ℤ pos part_end +ℤ pos part_end) }
    ensures value { n ≡ high *ℤ pos part_end +ℤ result }
    ensures from { pos 0 ≤ℤ result }
    ensures below { result <ℤ pos part_end }
{
    (n - high * 4_294_967_296) as i64
}
