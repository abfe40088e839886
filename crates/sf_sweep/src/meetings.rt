//! What each edge of an order does with the next one, by pieces, and the first point at which two meet.

ghost use Rattle.sf_strips.specs.Pieces.{pieces_max};
ghost use Rattle.std.specs.Prelude.{◌≡◌, ◌≤◌, ◌<◌, length, replicate, slice_set, IfNone as OnNone, IfOk, IfSome};
ghost use Rattle.sf_strips.specs.declared.contact.Contact.TheVariants.{Never};
ghost use Rattle.sf_grid.specs.Plane.{IsPoint};
ghost use Rattle.sf_sweep.specs.Nearest.{IsFirstMeeting, IsPointIn, NoneMeet};
ghost use Rattle.sf_sweep.specs.Tables.{ahead_of};

use crate::nearest::set;
use sf_grid::FracPoint;
use sf_strips::Contact;
use std::alloc::{AllocError, Global};
use std::marker::Model;

/// What the edge of each piece does with the next one of an order, with a tree of the points at which
/// they meet. Contracts see the contacts alone.
#[derive(Drop)]
pub struct Meetings {
    contacts: Vec<Contact>,
    tree: Vec<Option<FracPoint>>,
}

impl Model for Meetings {
    ghost use Rattle.std.specs.Prelude.{List};
    ghost use Rattle.sf_strips.specs.declared.contact.Contact.{Contact};
    ghost use Rattle.sf_sweep.specs.Nearest.{AreKept};

    ghost Value = { List Contact };

    ghost view = { λ m. m.contacts.items };

    ghost invariant = { λ m. AreKept m.contacts.items m.tree.items };
}

impl Meetings {
    /// A place for each of so many pieces, none of which meets another one.
    pub fn new(alloc: Global, pieces: usize) -> Result<Meetings, AllocError>
        requires few { pieces ≤ pieces_max }
        ensures { IfOk result (λ m. m ≡ replicate pieces Never) }
    {
        Ok(Meetings {
            contacts: Vec::from_elem(alloc, Contact::Never, pieces)?,
            tree: Vec::from_elem(alloc, None, 2 * pieces)?,
        })
    }

    /// What the edge of each piece does with the next one.
    pub fn as_slice(&self) -> &[Contact]
        ensures { result.now ≡ self.now }
    {
        self.contacts.as_slice()
    }

    /// Puts down what a piece's edge does with the next one.
    pub fn put(&mut self, piece: u32, contact: Contact)
        requires { piece < length self.old }
        ensures { self.new ≡ slice_set self.old piece contact }
    {
        let count = self.contacts.len();
        let leaf = count + piece as usize;
        let point = ahead(&contact);
        self.contacts[piece as usize] = contact;
        if point.is_some() || self.tree[leaf].is_some() {
            set(&mut self.tree, count, leaf, point);
        }
    }

    /// The first of the points at which edges meet the next ones: columns from the left, each from the
    /// top. None where there is no such point.
    pub fn first(&self) -> Option<FracPoint>
        ensures some { IfSome result (λ p. IsFirstMeeting self.now p) }
        ensures none { OnNone result (NoneMeet self.now) }
    {
        match self.tree.get(1) {
            Some(point) => *point,
            None => None,
        }
    }
}

/// The point at which an edge meets the next one, where it does.
fn ahead(contact: &Contact) -> Option<FracPoint>
    ensures value { result ≡ ahead_of contact.now }
    ensures point { IsPointIn result }
{
    match contact {
        Contact::Ahead(point) => Some(known(*point)),
        _ => None,
    }
}

/// The point, of which is then known that it is one of the plane.
fn known(point: FracPoint) -> FracPoint
    ensures value { result ≡ point }
    ensures point { IsPoint point }
{
    let _column = point.x();
    point
}
