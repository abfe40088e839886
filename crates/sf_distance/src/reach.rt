ghost use Rattle.std.specs.Prelude.{◌≡◌, ◌<◌, None, Some, if◌then◌else◌, nat_lt};
ghost use Rattle.sf_distance.specs.Mixed.{number_of};
ghost use Rattle.sf_distance.specs.Reaches.{reach_limit, square_of_reach, steps_of_reach};

use crate::square::Square;
use std::marker::Model;

/// What a number of thousandths has to be below: 2^32 grid steps.
const LIMIT: u64 = 4_294_967_296_000;

/// A distance that is asked about, in thousandths of a grid step: below 2^32 steps, more than the grid is wide.
#[derive(Clone, Copy, Debug)]
pub struct Reach {
    thousandths: u64,
}

impl Model for Reach {
    ghost use Rattle.std.specs.Prelude.{◌<◌, ℕ};
    ghost use Rattle.sf_distance.specs.Reaches.{reach_limit};

    ghost Value = { ℕ };

    ghost view = { λ r. r.thousandths };

    ghost invariant = { λ r. r.thousandths < reach_limit };

    ghost inverse = { λ n. record { thousandths = n } };
}

impl Reach {
    /// So many thousandths of a grid step, or None from 2^32 steps on.
    pub fn of_thousandths(thousandths: u64) -> Option<Reach>
        ensures { result ≡ (if nat_lt thousandths reach_limit then Some thousandths else None) }
    {
        if thousandths < LIMIT {
            Some(Reach { thousandths })
        } else {
            None
        }
    }

    /// The distance in thousandths of a grid step.
    pub fn thousandths(&self) -> u64
        ensures value { result ≡ self.now }
        ensures few { result < reach_limit }
    {
        self.thousandths
    }

    /// The square of the distance, in squared grid steps.
    pub fn square(&self) -> Square
        ensures { number_of result ≡ square_of_reach self.now }
    {
        let thousandths = u128::from(self.thousandths);
        Square::ratio(thousandths * thousandths, 1_000_000)
    }

    /// The distance in whole grid steps, rounded up: 2^32 at most.
    pub fn steps(&self) -> u64
        ensures { result ≡ steps_of_reach self.now }
    {
        (self.thousandths + 999) / 1000
    }
}
