ghost use Rattle.std.specs.Prelude.{map};
ghost use Rattle.sf_faults.specs.Candidates.{short_line};
ghost use Rattle.sf_faults.specs.Orders.{numbered};
ghost use Rattle.sf_faults.specs.Places.{IsFirstAmong};

use crate::place::Place;
use sf_geometry::{Sequence, tight_length};
use sf_grid::GridPoint;

/// The first line that has too few points.
pub(crate) fn first_short_line(lines: &[Sequence<GridPoint>]) -> Option<Place>
    ensures { IsFirstAmong (map short_line (numbered lines.now)) result }
{
    for (part, points) in lines.iter().enumerate() {
        if tight_length(points.as_slice()) < 2 {
            return Some(Place::Line { part });
        }
    }
    None
}
