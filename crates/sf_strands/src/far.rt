//! Lines and rings of edges that reach far, by a sweep over their vertices.

ghost use Rattle.sf_geometry.specs.Size.{points_max};
ghost use Rattle.std.specs.Prelude.{◌↔◌, ◌≤◌, IfOk, IsTrue, length};
ghost use Rattle.sf_valid_rules.specs.Conditions.{Applies, Condition};
ghost use Rattle.sf_valid_rules.specs.Shapes.{meets_itself as meets_itself_at};
ghost use Rattle.sf_strands.specs.Tight.{IsTight};

use crate::pairs::does_pair_meet;
use crate::strands::two_strands_meet;
use sf_first_meeting::{Doubt, first_meeting};
use sf_grid::GridPoint;
use std::alloc::{AllocError, Global};

/// Whether a line or ring, given as a tight list, meets itself. It fails only where memory is wanting.
pub(crate) fn some_far_pair_meets(alloc: Global, points: &[GridPoint]) -> Result<bool, AllocError>
    requires tight { IsTight points.now }
    requires few { length points.now ≤ points_max }
    ensures { IfOk result (λ found. IsTrue found ↔ Applies (Condition.AtPoint (meets_itself_at points.now))) }
{
    let Some(doubt) = first_meeting(alloc, points)? else {
        return Ok(false);
    };
    if does_doubt_hold(points, doubt) {
        Ok(true)
    } else {
        two_strands_meet(alloc, points)
    }
}

/// Whether two edges meet that seem to.
fn does_doubt_hold(points: &[GridPoint], doubt: Doubt) -> bool
    requires { IsTight points.now }
    ensures { IsTrue result → Applies (Condition.AtPoint (meets_itself_at points.now)) }
{
    match doubt {
        Doubt::Pair(earlier, later) => does_some_pair_meet(points, earlier, later),
        Doubt::Open => false,
    }
}

/// Whether these are two edges in order, and they meet.
fn does_some_pair_meet(points: &[GridPoint], earlier: usize, later: usize) -> bool
    requires { IsTight points.now }
    ensures { IsTrue result → Applies (Condition.AtPoint (meets_itself_at points.now)) }
{
    if earlier >= later || later >= points.len().saturating_sub(1) {
        return false;
    }
    does_pair_meet(points, earlier, later)
}
