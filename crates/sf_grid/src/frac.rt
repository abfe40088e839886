ghost use Rattle.std.specs.Prelude.{◌≡◌, ◌≤◌, ◌<◌, unsigned_abs};
ghost use Rattle.sf_grid.specs.Bounds.{denominator_end, numerator_bound};
ghost use Rattle.sf_grid.specs.Fraction.{IsFraction, fraction_cmp, fraction_eq};

use crate::exact::{are_products_equal, products_order};
use std::cmp::Ordering;
use std::marker::Model;

/// A place on an axis, as a fraction of grid steps. It needn't be in lowest terms.
#[derive(Clone, Copy, Debug)]
pub struct Frac {
    num: i128,
    den: u64,
}

impl Model for Frac {
    ghost use Rattle.std.specs.Prelude.{◌≤◌, ◌<◌, unsigned_abs};
    ghost use Rattle.sf_grid.specs.Bounds.{denominator_end, numerator_bound};
    ghost use Rattle.sf_grid.specs.Fraction.{Fraction};

    ghost Value = { Fraction };

    ghost view = { λ q. record { num = q.num; den = q.den } };

    ghost invariant = { λ q.
        (1 ≤ q.den) × (q.den < denominator_end) × (unsigned_abs q.num ≤ numerator_bound) };

    ghost inverse = { λ q. record { num = q.num; den = q.den } };
}

impl Frac {
    /// The fraction `num / den`, for a denominator of at least 1, both within the grid's bounds.
    pub(crate) fn new(num: i128, den: u64) -> Frac
        requires positive { 1 ≤ den }
        requires small_den { den < denominator_end }
        requires small_num { unsigned_abs num ≤ numerator_bound }
        ensures { result ≡ record { num = num; den = den } }
    {
        Frac { num, den }
    }

    /// The numerator.
    pub fn num(&self) -> i128
        ensures value { result ≡ self.now.num }
        ensures bound { unsigned_abs result ≤ numerator_bound }
    {
        self.num
    }

    /// The denominator, at least 1.
    pub fn den(&self) -> u64
        ensures value { result ≡ self.now.den }
        ensures bound { result < denominator_end }
        ensures fraction { IsFraction self.now }
    {
        self.den
    }

    /// The order of the two numbers, whatever their fractions' terms.
    pub fn compare(&self, other: &Frac) -> Ordering
        ensures { result ≡ fraction_cmp self.now other.now }
    {
        products_order(self.num, other.den as i64, other.num, self.den as i64)
    }

    /// Whether both are one number, whatever their fractions' terms.
    pub fn is_same(&self, other: &Frac) -> bool
        ensures { result ≡ fraction_eq self.now other.now }
    {
        are_products_equal(self.num, other.den as i64, other.num, self.den as i64)
    }
}
