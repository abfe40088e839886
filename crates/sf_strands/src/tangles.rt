ghost use Rattle.sf_geometry.specs.Size.{points_max};
ghost use Rattle.std.specs.Prelude.{◌↔◌, ◌≤◌, IfOk, IsTrue, length};
ghost use Rattle.sf_geometry.specs.Parts.{joined};
ghost use Rattle.sf_valid_rules.specs.Conditions.{Applies, Condition};
ghost use Rattle.sf_valid_rules.specs.Shapes.{meets_itself as meets_itself_at};
ghost use Rattle.sf_strands.specs.Tight.{IsTight};
ghost use Rattle.sf_strands.specs.Tangles.{are_tangled as are_tangled_at};

use crate::far::some_far_pair_meets;
use crate::near::some_near_pair_meets;
use crate::pairs::some_pair_meets;
use crate::strands::{push_strands, some_tangle};
use sf_edge_tree::Outcome;
use sf_geometry::{Sequence, tight};
use sf_grid::GridPoint;
use sf_pieces::GroupedPieces;
use std::alloc::{AllocError, Global};

/// How many edges are all compared in pairs at most: of more edges those whose boxes meet are found sooner.
const PAIRS_MAX: usize = 12;

/// Whether a line or ring meets itself: whether two of its edges share a point that isn't their
/// common vertex as neighbours. It fails only where memory is wanting.
pub fn meets_itself(alloc: Global, points: &[GridPoint]) -> Result<bool, AllocError>
    requires few { length points.now ≤ points_max }
    ensures { IfOk result (λ found. IsTrue found ↔ Applies (Condition.AtPoint (meets_itself_at points.now))) }
{
    let points = tight(alloc, points)?;
    does_tight_meet_itself(alloc, points.as_slice())
}

/// Whether a line or ring, given as a tight list, meets itself.
fn does_tight_meet_itself(alloc: Global, points: &[GridPoint]) -> Result<bool, AllocError>
    requires tight { IsTight points.now }
    requires few { length points.now ≤ points_max }
    ensures { IfOk result (λ found. IsTrue found ↔ Applies (Condition.AtPoint (meets_itself_at points.now))) }
{
    if points.len() <= PAIRS_MAX + 1 {
        return Ok(some_pair_meets(points));
    }
    match some_near_pair_meets(alloc, points)? {
        Outcome::Found => Ok(true),
        Outcome::Absent => Ok(false),
        Outcome::GaveUp => some_far_pair_meets(alloc, points),
    }
}

/// Whether one of the lines meets itself, or two of them meet at a point where not both end. It
/// fails only where memory is wanting.
pub fn are_tangled(alloc: Global, lines: &[Sequence<GridPoint>]) -> Result<bool, AllocError>
    requires few { length (joined lines.now) ≤ points_max }
    ensures { IfOk result (λ found. IsTrue found ↔ Applies (Condition.AtPoint (are_tangled_at lines.now))) }
{
    let mut strands = GroupedPieces::new(alloc);
    for line in lines {
        let points = tight(alloc, line.as_slice())?;
        push_strands(&mut strands, points.as_slice())?;
    }
    some_tangle(alloc, &strands)
}
