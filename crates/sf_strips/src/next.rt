//! The next column of the sweep.

ghost use Rattle.std.specs.Prelude.{◌≡◌, [], IfSome, IfNone as OnNone};
ghost use Rattle.sf_strips.specs.Next.{IsLeastOf, candidates, lesser as lesser_of};

use crate::contact::Contact;
use sf_grid::{Frac, FracPoint, GridPoint};
use std::cmp::Ordering;

/// The leftmost of the columns of the next vertex and of the points ahead that neighbours share,
/// or None where there is none of either.
pub fn next_column(vertex: Option<GridPoint>, contacts: &[Contact]) -> Option<Frac>
    ensures some { IfSome result (λ y. IsLeastOf (candidates vertex contacts.now) y) }
    ensures none { OnNone result (candidates vertex contacts.now ≡ []) }
{
    let mut nearest = match vertex {
        Some(p) => Some(FracPoint::of(p).x()),
        None => None,
    };
    for contact in contacts {
        if let Contact::Ahead(p) = contact {
            nearest = Some(lesser(nearest, p.x()));
        }
    }
    nearest
}

/// The lesser of two places, of which the first may be missing.
fn lesser(first: Option<Frac>, second: Frac) -> Frac
    ensures { result ≡ lesser_of first second }
{
    match first {
        Some(place) => match second.compare(&place) {
            Ordering::Less => second,
            _ => place,
        },
        None => second,
    }
}
