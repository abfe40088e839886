ghost use Rattle.std.specs.Prelude.{◌≡◌};
ghost use Rattle.sf_near.specs.Nearest.{is_nearer};
ghost use Rattle.sf_near.specs.Found.{distance_told};

use sf_distance::Square;
use std::cmp::Ordering;

/// A feature of a layer, and how far it is from a geometry.
#[derive(Clone, Copy, Debug)]
pub struct Distant {
    pub id: u32,
    /// The square of the distance, in squared grid steps.
    pub square: Square,
}

impl Distant {
    /// Whether this feature is nearer than the other one, or as near and of a lesser identifier.
    pub(crate) fn is_nearer(&self, other: &Distant) -> bool
        ensures { result ≡ is_nearer (distance_told self.now) (distance_told other.now) }
    {
        match self.square.compare(&other.square) {
            Ordering::Less => true,
            Ordering::Equal => self.id < other.id,
            Ordering::Greater => false,
        }
    }
}
