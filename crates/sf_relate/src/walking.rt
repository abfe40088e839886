//! What a walk over the cells of two geometries finds out of their matrix. It ends as soon as that is known.

ghost use Rattle.std.specs.Prelude.{◌≡◌, IfOk, IsTrue, Some, is_some};
ghost use Rattle.sf_known.specs.Goals.{is_met};
ghost use Rattle.sf_known.specs.Known.{Holds, KnowsAsMuch, answer_of, is_enough};
ghost use Rattle.sf_relate.specs.Matrices.{matrix_of};

use super::grouping::pieces_of;
use super::nearby::known_at_first;
use super::shape::Shape;
use super::sink::KnownSink;
use sf_known::{Aim, Goal, Known};
use sf_validity::Valid;
use std::alloc::{AllocError, Global};

/// What is known of the matrix of two geometries after a walk over the pieces of both that goes on until what is to be found
/// out is known.
///
/// # Errors
///
/// Out of memory alone.
pub fn walked(
    alloc: Global,
    a: &Valid,
    b: &Valid,
    aim: &Aim,
    known: &Known,
) -> Result<Known, AllocError>
    requires { Holds known.now (matrix_of a.now b.now) }
    ensures holds { IfOk result (λ found. Holds found (matrix_of a.now b.now)) }
    ensures as_much { IfOk result (KnowsAsMuch known.now) }
    ensures enough { IfOk result (λ found. IsTrue (is_enough found aim.now)) }
{
    let first = a.geometry();
    let second = b.geometry();
    let pieces = pieces_of(alloc, first, second)?;
    let first_shape = Shape::of(first);
    let second_shape = Shape::of(second);
    let mut sink = KnownSink::new(first_shape, second_shape, *aim, *known);
    let areal = [first_shape.is_areal(), second_shape.is_areal()];
    pieces.walk(alloc, &areal, &mut sink)?;
    Ok(sink.found())
}

/// What is known of the matrix of two geometries once what is to be found out is: from what is known already, with their kinds,
/// and else by a walk.
///
/// # Errors
///
/// Out of memory alone.
pub(crate) fn found_from(
    alloc: Global,
    a: &Valid,
    b: &Valid,
    aim: &Aim,
    known: &Known,
) -> Result<Known, AllocError>
    requires { Holds known.now (matrix_of a.now b.now) }
    ensures holds { IfOk result (λ found. Holds found (matrix_of a.now b.now)) }
    ensures enough { IfOk result (λ found. IsTrue (is_enough found aim.now)) }
{
    if known.is_enough(aim) {
        return Ok(*known);
    }
    let kinds = known_at_first(a, b);
    let more = known.and(&kinds);
    if more.is_enough(aim) {
        return Ok(more);
    }
    walked(alloc, a, b, aim, &more)
}

/// Whether the matrix of two geometries is as is asked.
///
/// # Errors
///
/// Out of memory alone.
pub fn meets(alloc: Global, goal: &Goal, a: &Valid, b: &Valid) -> Result<bool, AllocError>
    ensures { IfOk result (λ answer. answer ≡ is_met goal.now (matrix_of a.now b.now)) }
{
    meets_from(alloc, goal, a, b, &Known::nothing())
}

/// Whether the matrix of two geometries, of which this is known, is as is asked.
///
/// # Errors
///
/// Out of memory alone.
pub fn meets_from(
    alloc: Global,
    goal: &Goal,
    a: &Valid,
    b: &Valid,
    known: &Known,
) -> Result<bool, AllocError>
    requires { Holds known.now (matrix_of a.now b.now) }
    ensures { IfOk result (λ answer. answer ≡ is_met goal.now (matrix_of a.now b.now)) }
{
    let aim = Aim::Answer(*goal);
    let found = found_from(alloc, a, b, &aim, known)?;
    Ok(found.answer(goal).unwrap())
}
