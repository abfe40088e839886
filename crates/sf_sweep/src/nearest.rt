//! The first of the points ahead at which neighbours meet, kept by pieces, one of which changes at a time.

ghost use Rattle.sf_strips.specs.Pieces.{pieces_max};
ghost use Rattle.std.specs.Prelude.{◌≡◌, ℕ, ◌+◌, ◌*◌, ◌≤◌, ◌<◌, true, length, slice_set};
ghost use Rattle.sf_sweep.specs.Nearest.{IsTree, earlier, place_at};
ghost use Rattle.sf_sweep.specs.Tables.{point_before};

use sf_grid::{Frac, FracPoint};
use std::cmp::Ordering;

/// Puts a point, or none, in a place of the leaves of a tree, and the first of every two on the way
/// to its root, as far as that is another one than before.
pub fn set(tree: &mut [Option<FracPoint>], count: usize, leaf: usize, point: Option<FracPoint>)
    requires few { count ≤ pieces_max }
    requires len { length tree.old ≡ 2 * count }
    requires leaf { count ≤ leaf }
    requires within { leaf < 2 * count }
    requires tree { IsTree count tree.old }
    ensures tree { IsTree count tree.new }
    ensures len { length tree.new ≡ length tree.old }
    ensures leaves { (k : ℕ) → count ≤ k → place_at tree.new k ≡ place_at (slice_set tree.old leaf point) k }
{
    tree[leaf] = point;
    let mut place = leaf;
    while place > 1 {
        place /= 2;
        let first = first_of(tree[2 * place], tree[2 * place + 1]);
        if are_same(&tree[place], &first) {
            return;
        }
        tree[place] = first;
    }
}

/// The first of two points, where there are any.
fn first_of(a: Option<FracPoint>, b: Option<FracPoint>) -> Option<FracPoint>
    ensures { result ≡ earlier a b }
{
    match a {
        None => b,
        Some(p) => match b {
            None => a,
            Some(q) => { if comes_before(&q, &p) { b } else { a } }
        },
    }
}

/// Whether both are one point, with the same numbers, or there is neither.
fn are_same(a: &Option<FracPoint>, b: &Option<FracPoint>) -> bool
    ensures { result ≡ true → a.now ≡ b.now }
{
    match a {
        None => b.is_none(),
        Some(p) => match b {
            None => false,
            Some(q) => is_same_point(p, q),
        },
    }
}

/// Whether both points have the same numbers.
fn is_same_point(p: &FracPoint, q: &FracPoint) -> bool
    ensures { result ≡ true → p.now ≡ q.now }
{
    is_same_place(&p.x(), &q.x()) && p.y().num() == q.y().num()
}

/// Whether both places have the same numbers.
fn is_same_place(a: &Frac, b: &Frac) -> bool
    ensures { result ≡ true → a.now ≡ b.now }
{
    a.num() == b.num() && a.den() == b.den()
}

/// Whether a point comes before another: columns from the left, each from the top.
pub fn comes_before(p: &FracPoint, q: &FracPoint) -> bool
    ensures { result ≡ point_before p.now q.now }
{
    match p.x().compare(&q.x()) {
        Ordering::Less => true,
        Ordering::Equal => q.y().compare(&p.y()) == Ordering::Less,
        Ordering::Greater => false,
    }
}
