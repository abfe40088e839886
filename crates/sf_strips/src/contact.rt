//! What two neighbouring edges do with one another further right.

ghost use Rattle.std.specs.Prelude.{◌≡◌, Some};
ghost use Rattle.sf_grid.specs.Edge.{edge_between};
ghost use Rattle.sf_strips.specs.Fronts.{IsContact, touches as touches_of};
ghost use Rattle.sf_strips.specs.Strips.{column_of};

use crate::slanted::Slanted;
use crate::strip::Strip;
use sf_grid::edges::meet;
use sf_grid::{Frac, FracPoint, Meet};
use std::cmp::Ordering;

/// What two neighbouring edges do with one another to the right of a column.
#[derive(Clone, Copy, Debug)]
pub enum Contact {
    /// They share no point there.
    Never,
    /// They share this one point.
    Ahead(FracPoint),
    /// They lie on one line.
    Throughout,
}

impl Contact {
    /// What two edges do with one another right of the column `x`.
    pub fn between(e: &Slanted, f: &Slanted, x: &Frac) -> Contact
        ensures { IsContact
            (edge_between e.now.left e.now.right)
            (edge_between f.now.left f.now.right) x.now result }
    {
        match meet((e.left(), e.right()), (f.left(), f.right())) {
            Meet::Apart => Contact::Never,
            Meet::At(p) => match x.compare(&p.x()) {
                Ordering::Less => Contact::Ahead(p),
                _ => Contact::Never,
            },
            Meet::Along(_, _) => Contact::Throughout,
        }
    }

    /// Whether the two edges are level: everywhere, or in the given column.
    pub fn touches(&self, strip: &Strip) -> bool
        ensures { result ≡ touches_of (column_of strip.now) self.now }
    {
        match (self, strip) {
            (Contact::Throughout, _) => true,
            (_, Strip::Column(x)) => self.is_level_in(x),
            _ => false,
        }
    }

    /// Whether the two edges are level in the column `x`.
    fn is_level_in(&self, x: &Frac) -> bool
        ensures { result ≡ touches_of (Some x.now) self.now }
    {
        match self {
            Contact::Throughout => true,
            Contact::Ahead(p) => p.x().is_same(x),
            Contact::Never => false,
        }
    }
}
