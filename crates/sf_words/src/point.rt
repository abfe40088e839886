//! Points that words spell, each coordinate in the form of a number of a well-known text.
ghost use Rattle.std.specs.Prelude.{◌≡◌};
ghost use Rattle.sf_words.specs.Points.{point_of as point_spelled};

use sf_grid::GridPoint;
use sf_refusals::Refusal;
use sf_wkt::coordinate_of;

/// The point that two words spell: `BadCommand` where one isn't in the form of a number, then the fault of
/// x, then that of y.
pub fn point_of(x: &str, y: &str) -> Result<GridPoint, Refusal>
    ensures { result ≡ point_spelled x.now y.now }
{
    let x = coordinate_of(x).ok_or(Refusal::BadCommand)?;
    let y = coordinate_of(y).ok_or(Refusal::BadCommand)?;
    let x = x?;
    let y = y?;
    GridPoint::new(x, y).ok_or(Refusal::OutOfRange)
}
