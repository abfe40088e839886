ghost use Rattle.std.specs.Prelude.{◌≡◌, ℕ, ◌+◌, ◌*◌, ◌/◌, ◌^◌, ◌<◌, pos, ◌+ℤ◌, unsigned_abs};
ghost use Rattle.sf_rtree.specs.Boxed.{interleaved, joined, middle_from_least, place_of};
ghost use Rattle.sf_rtree.specs.Curves.{comes_before, is_key, key_of};

use sf_geometry::Extent;
use std::marker::Model;

/// Where an entry stands among others: by its place on the curve, then by its identifier.
#[derive(Clone, Copy, Debug, PartialEq, Eq, PartialOrd, Ord)]
pub struct Key {
    pub place: u64,
    pub id: u32,
}

impl Key {
    /// The key of an identifier and its box.
    pub fn new(id: u32, extent: &Extent) -> Key
        ensures { result ≡ key_of (record { id = id; extent = extent.now }) }
    {
        Key {
            place: place(extent),
            id,
        }
    }

    pub fn is_before(&self, other: &Key) -> bool
        ensures { result ≡ comes_before self.now other.now }
    {
        self.place < other.place || (self.place == other.place && self.id < other.id)
    }

    pub fn is(&self, other: &Key) -> bool
        ensures { result ≡ is_key self.now other.now }
    {
        self.place == other.place && self.id == other.id
    }
}

/// An identifier with its box, and the place of the box on the curve.
#[derive(Drop)]
pub struct Entry {
    id: u32,
    extent: Extent,
    place: u64,
}

impl Model for Entry {
    ghost use Rattle.std.specs.Prelude.{◌≡◌};
    ghost use Rattle.sf_rtree.specs.Boxed.{Boxed, place_of};

    ghost Value = { Boxed };

    ghost view = { λ a. record { id = a.id; extent = a.extent } };

    ghost invariant = { λ a. a.place ≡ place_of a.extent };
}

impl Entry {
    pub fn new(id: u32, extent: Extent) -> Entry
        ensures { result ≡ record { id = id; extent = extent } }
    {
        Entry {
            id,
            extent,
            place: place(&extent),
        }
    }

    pub fn id(&self) -> u32
        ensures { result ≡ self.now.id }
    {
        self.id
    }

    pub fn extent(&self) -> Extent
        ensures { result ≡ self.now.extent }
    {
        self.extent
    }

    pub fn key(&self) -> Key
        ensures { result ≡ key_of self.now }
    {
        Key {
            place: self.place,
            id: self.id,
        }
    }
}

/// The least box that has all of two boxes.
pub fn join(a: &Extent, b: &Extent) -> Extent
    ensures { result ≡ joined a.now b.now }
{
    Extent {
        min_x: a.min_x.min(b.min_x),
        min_y: a.min_y.min(b.min_y),
        max_x: a.max_x.max(b.max_x),
        max_y: a.max_y.max(b.max_y),
    }
}

/// The place of a box on the curve.
fn place(extent: &Extent) -> u64
    ensures { result ≡ place_of extent.now }
{
    interleave(
        middle(extent.min_x, extent.max_x),
        middle(extent.min_y, extent.max_y),
    )
}

/// The middle of two numbers, counted from the least one.
fn middle(a: i32, b: i32) -> u32
    ensures { result ≡ middle_from_least a b }
{
    ((i64::from(a) + i64::from(b) + 4_294_967_296).unsigned_abs() / 2) as u32
}

/// The digits of two numbers in turn, each of y before that of x.
fn interleave(x: u32, y: u32) -> u64
    ensures { result ≡ interleaved 32 x y }
{
    let mut place: u64 = 0;
    for k in 0..32u32 {
        let shift = 31 - k;
        place = place * 4 + u64::from((y >> shift) % 2 * 2 + (x >> shift) % 2);
    }
    place
}
