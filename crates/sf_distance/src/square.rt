ghost use Rattle.std.specs.Prelude.{◌≡◌, ◌≤◌, ◌<◌, ◌+◌, ◌*◌, ◌^◌, pos};
ghost use Rattle.sf_grid.specs.Fraction.{fraction_cmp, fraction_le};
ghost use Rattle.sf_distance.specs.Mixed.{IsRootIn, number_of};

use crate::root::root;
use std::cmp::Ordering;
use std::marker::Model;

/// The square of a distance, in squared grid steps: a whole number and a proper fraction. Two are compared by products of 126 bits
/// at most.
#[derive(Clone, Copy, Debug)]
pub struct Square {
    whole: u64,
    rest: u64,
    den: u64,
}

impl Model for Square {
    ghost use Rattle.std.specs.Prelude.{◌<◌, ◌^◌};
    ghost use Rattle.sf_distance.specs.Mixed.{Mixed};

    ghost Value = { Mixed };

    ghost view = { λ s. record { whole = s.whole; rest = s.rest; den = s.den } };

    ghost invariant = { λ s. (s.rest < s.den) × (s.den < 2 ^ 63) };

    ghost inverse = { λ m. record { whole = m.whole; rest = m.rest; den = m.den } };
}

impl Square {
    /// A whole number of squared steps.
    pub fn whole(number: u64) -> Square
        ensures { result ≡ record { whole = number; rest = 0; den = 1 } }
    {
        Square {
            whole: number,
            rest: 0,
            den: 1,
        }
    }

    /// The fraction `num / den`, which is below 2^64.
    pub fn ratio(num: u128, den: u64) -> Square
        requires positive { 1 ≤ den }
        requires small_den { den < 2 ^ 63 }
        requires small { num < den * 2 ^ 64 }
        ensures { number_of result ≡ record { num = pos num; den = den } }
    {
        let wide = u128::from(den);
        Square {
            whole: (num / wide) as u64,
            rest: (num % wide) as u64,
            den,
        }
    }

    /// The order of the two numbers, whatever their terms.
    pub fn compare(&self, other: &Square) -> Ordering
        ensures { result ≡ fraction_cmp (number_of self.now) (number_of other.now) }
    {
        if self.whole < other.whole {
            return Ordering::Less;
        }
        if other.whole < self.whole {
            return Ordering::Greater;
        }
        let left = u128::from(self.rest) * u128::from(other.den);
        let right = u128::from(other.rest) * u128::from(self.den);
        left.cmp(&right)
    }

    /// Whether this square is at most another one.
    pub fn is_at_most(&self, other: &Square) -> bool
        ensures { result ≡ fraction_le (number_of self.now) (number_of other.now) }
    {
        match self.compare(other) {
            Ordering::Greater => false,
            Ordering::Less | Ordering::Equal => true,
        }
    }

    /// The distance in thousandths of a grid step, rounded down.
    pub fn root_in_thousandths(&self) -> u64
        ensures { IsRootIn 1000 self.now result }
    {
        root(self.millionths())
    }

    /// The numerator of this square over [`Square::denominator`].
    pub(crate) fn numerator(&self) -> u128
        ensures { result ≡ self.now.whole * self.now.den + self.now.rest }
    {
        u128::from(self.whole) * u128::from(self.den) + u128::from(self.rest)
    }

    /// A denominator, which need not be the least.
    pub(crate) fn denominator(&self) -> u128
        ensures value { result ≡ self.now.den }
        ensures some { 1 ≤ result }
    {
        u128::from(self.den)
    }

    /// The square in squared thousandths of a grid step, rounded down.
    fn millionths(&self) -> u128
        ensures small { result < 2 ^ 85 }
        ensures below { result * self.now.den ≤ (self.now.whole * self.now.den + self.now.rest) * (1000 * 1000) }
        ensures above { (self.now.whole * self.now.den + self.now.rest) * (1000 * 1000) < (result + 1) * self.now.den }
    {
        u128::from(self.whole) * 1_000_000
            + u128::from(self.rest) * 1_000_000 / u128::from(self.den)
    }
}
