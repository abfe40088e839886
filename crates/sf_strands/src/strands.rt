//! The strands of lines at the points of the plane, counted by one walk over their pieces. A line has
//! a strand at a point for each of its edges there, but the two edges at a joint are one strand.

ghost use Rattle.sf_geometry.specs.Size.{points_max};
ghost use Rattle.sf_strips.specs.Pieces.{pieces_max};
ghost use Rattle.std.specs.Prelude.{◌≡◌, ◌↔◌, ◌++◌, ◌≤◌, IfOk, IsTrue, OnOk, length, map, slice_index};
ghost use Rattle.sf_strips.specs.declared.piece.Piece.TheVariants.{Dot};
ghost use Rattle.sf_pieces.specs.Marked.{HasGroups, item_at, marked};
ghost use Rattle.sf_valid_rules.specs.Conditions.{Applies, Condition};
ghost use Rattle.sf_valid_rules.specs.Shapes.{meets_itself};
ghost use Rattle.sf_strands.specs.Strands.{is_tangled_by};
ghost use Rattle.sf_strands.specs.Tight.{IsTight};
ghost use Rattle.sf_strands.specs.Walks.{is_tangled as is_tangled_item, strands_of};

use sf_grid::GridPoint;
use sf_pieces::{CellSink, GroupedPieces};
use std::alloc::{AllocError, Global};

/// The group of edges.
const EDGES: u32 = 0;

/// The group of joints, the common vertices of neighbours.
const JOINTS: u32 = 1;

/// The group of the ends of lines that aren't closed.
const ENDS: u32 = 2;

/// Adds the edges, joints and ends of a line or ring, given as a tight list, each to its group.
pub(crate) fn push_strands(
    strands: &mut GroupedPieces,
    points: &[GridPoint],
) -> Result<(), AllocError>
    requires { IsTight points.now }
    ensures { OnOk result (strands.new ≡ strands.old ++ strands_of points.now) }
{
    strands.push_edges(points, EDGES)?;
    let Some((last, starts)) = points.split_last() else {
        return Ok(());
    };
    let Some((first, inner)) = starts.split_first() else {
        return Ok(());
    };
    if first == last {
        push_dots(strands, starts, JOINTS)
    } else {
        push_dots(strands, inner, JOINTS)?;
        strands.push_dot(*first, ENDS)?;
        strands.push_dot(*last, ENDS)
    }
}

/// Adds points to a group.
fn push_dots(
    strands: &mut GroupedPieces,
    points: &[GridPoint],
    group: u32,
) -> Result<(), AllocError>
    ensures { OnOk result (strands.new ≡ strands.old ++ marked group (map Dot points.now)) }
{
    for point in points {
        strands.push_dot(*point, group)?;
    }
    Ok(())
}

/// Whether a line or ring, given as a tight list, meets itself: whether two strands of it are at
/// some point.
pub(crate) fn two_strands_meet(alloc: Global, points: &[GridPoint]) -> Result<bool, AllocError>
    requires tight { IsTight points.now }
    requires few { length points.now ≤ points_max }
    ensures { IfOk result (λ found. IsTrue found ↔ Applies (Condition.AtPoint (meets_itself points.now))) }
{
    let mut strands = GroupedPieces::new(alloc);
    push_strands(&mut strands, points)?;
    some_tangle(alloc, &strands)
}

/// Whether two strands are at some point, not both of them ends.
pub(crate) fn some_tangle(alloc: Global, strands: &GroupedPieces) -> Result<bool, AllocError>
    requires few { length strands.now ≤ pieces_max }
    requires groups_in_range { HasGroups strands.now }
    ensures { IfOk result (λ found. IsTrue found
        ↔ Applies (Condition.AtPoint (λ p. is_tangled_item (item_at strands.now p)))) }
{
    let mut tangles = Tangles { found: false };
    // What is above a point is not read, so no group is areal.
    strands.walk(alloc, &[], &mut tangles)?;
    Ok(tangles.found)
}

/// Whether a cell was found with two strands on it, not both of them ends.
#[derive(Drop)]
struct Tangles {
    found: bool,
}

impl CellSink for Tangles {
    ghost use Rattle.std.specs.Prelude.{Bool, ◌||◌};
    ghost use Rattle.sf_strands.specs.Walks.{is_tangled};

    ghost Content = { Bool };

    ghost content = { λ s. s.found };

    ghost after = { λ found item. found || is_tangled item };

    fn cell(&mut self, _dim: u8, on: &[u32], _above: &[u32]) {
        let tangled = is_tangled(
            count_in(on, EDGES),
            count_in(on, JOINTS),
            count_in(on, ENDS),
        );
        self.found |= tangled;
    }

    fn is_full(&self) -> bool {
        self.found
    }
}

/// The count of a group, 0 where no piece is of the group.
fn count_in(counts: &[u32], group: u32) -> u32
    ensures { result ≡ slice_index counts.now group }
{
    counts.get(group as usize).copied().unwrap_or(0)
}

/// Whether so many edges, joints and ends make two strands that aren't both ends.
fn is_tangled(edges: u32, joints: u32, ends: u32) -> bool
    ensures { result ≡ is_tangled_by edges joints ends }
{
    let strands = edges.saturating_sub(joints);
    strands >= 2 && strands > ends
}
