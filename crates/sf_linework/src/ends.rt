//! What the ends of lines show of their matrix with another geometry.

ghost use Rattle.std.specs.Prelude.{◌≡◌, ◌&&◌, ◌||◌, ◌∷◌, [], IfSome, is_some};
ghost use Rattle.std.specs.List.{flat_map};
ghost use Rattle.sf_geometry.specs.Lists.{ends_of};
ghost use Rattle.sf_known.specs.Known.{Holds};
ghost use Rattle.sf_relate.specs.Matrices.{matrix_of};
ghost use Rattle.sf_linework.specs.Ends.{if_seen, is_all, is_lines, known_by_ends, known_by_own_ends, known_of_seen, none_seen, seen_at, seen_ends, seen_or};

use sf_geometry::{Geometry, Sequence, line_ends};
use sf_grid::GridPoint;
use sf_known::Known;
use sf_plane::Dim::{self, Nothing, Two, Zero};
use sf_relate::{Place, locate};
use sf_validity::Valid;

/// What the ends of lines show of the matrix of two geometries: of each of the two that is of lines all that its boundary has. None
/// where neither is.
pub fn known_by_ends(a: &Valid, b: &Valid) -> Option<Known>
    ensures holds { IfSome result (λ known. Holds known (matrix_of a.now b.now)) }
    ensures value { IfSome result (λ known. known ≡ known_by_ends a.now b.now) }
    ensures answers { is_some result ≡ (is_lines a.now || is_lines b.now) }
{
    if is_lines(a) || is_lines(b) {
        Some(known_by_own_ends(a, b).and(&known_by_own_ends(b, a).transposed()))
    } else {
        None
    }
}

/// Whether the geometry is one line or several.
pub(crate) fn is_lines(geometry: &Valid) -> bool
    ensures { result ≡ is_lines geometry.now }
{
    matches!(
        geometry.geometry(),
        Geometry::LineString(_) | Geometry::MultiLineString(_)
    )
}

/// What the ends of the first one show of its boundary, where it is of lines.
fn known_by_own_ends(lines: &Valid, other: &Valid) -> Known
    ensures { result ≡ known_by_own_ends lines.now other.now }
{
    match lines.geometry() {
        Geometry::LineString(line) => known_of_seen(seen_by_line(lines, other, line.as_slice())),
        Geometry::MultiLineString(parts) => {
            known_of_seen(seen_by_lines(lines, other, parts.as_slice()))
        }
        _ => Known::nothing(),
    }
}

/// In which places of another geometry ends were seen.
#[derive(Clone, Copy)]
pub(crate) struct Seen {
    pub(crate) interior: bool,
    pub(crate) boundary: bool,
    pub(crate) exterior: bool,
}

impl Seen {
    /// In none.
    pub(crate) fn none() -> Seen
        ensures { result ≡ none_seen }
    {
        Seen {
            interior: false,
            boundary: false,
            exterior: false,
        }
    }

    /// In this one.
    pub(crate) fn at(place: Place) -> Seen
        ensures { result ≡ seen_at place }
    {
        match place {
            Place::Interior => Seen {
                interior: true,
                ..Seen::none()
            },
            Place::Boundary => Seen {
                boundary: true,
                ..Seen::none()
            },
            Place::Exterior => Seen {
                exterior: true,
                ..Seen::none()
            },
        }
    }

    /// In those of both.
    pub(crate) fn or(self, other: Seen) -> Seen
        ensures { result ≡ seen_or self other }
    {
        Seen {
            interior: self.interior || other.interior,
            boundary: self.boundary || other.boundary,
            exterior: self.exterior || other.exterior,
        }
    }

    /// Whether in all, so that no further end tells more.
    pub(crate) fn is_all(self) -> bool
        ensures { result ≡ is_all self }
    {
        self.interior && self.boundary && self.exterior
    }
}

/// Where the other geometry has the ends of these lines that count.
fn seen_by_lines(lines: &Valid, other: &Valid, parts: &[Sequence<GridPoint>]) -> Seen
    ensures { result ≡ seen_ends lines.now other.now (flat_map ends_of parts.now) }
{
    let mut seen = Seen::none();
    for part in parts {
        seen = seen.or(seen_by_line(lines, other, part.as_slice()));
        if seen.is_all() {
            return seen;
        }
    }
    seen
}

/// Where it has those of one of them.
fn seen_by_line(lines: &Valid, other: &Valid, line: &[GridPoint]) -> Seen
    ensures { result ≡ seen_ends lines.now other.now (ends_of line.now) }
{
    match line_ends(line) {
        Some((first, last)) => seen_by_end(lines, other, first).or(seen_by_end(lines, other, last)),
        None => Seen::none(),
    }
}

/// Where it has an end. Where an even number of lines end there, these cancel: it is no boundary then.
fn seen_by_end(lines: &Valid, other: &Valid, end: GridPoint) -> Seen
    ensures { result ≡ seen_ends lines.now other.now (end ∷ []) }
{
    match locate(lines, end) {
        Place::Boundary => Seen::at(locate(other, end)),
        _ => Seen::none(),
    }
}

/// What is known of the row of a boundary that has a point just in these places, and no length.
fn known_of_seen(seen: Seen) -> Known
    ensures { result ≡ known_of_seen seen }
{
    let interior = if_seen(seen.interior);
    let boundary = if_seen(seen.boundary);
    let exterior = if_seen(seen.exterior);
    Known {
        least: [
            Nothing, Nothing, Nothing, interior, boundary, exterior, Nothing, Nothing, Nothing,
        ],
        most: [Two, Two, Two, interior, boundary, exterior, Two, Two, Two],
        contact: false,
    }
}

/// The dimension of ends, if there are some.
pub(crate) fn if_seen(seen: bool) -> Dim
    ensures { result ≡ if_seen seen }
{
    if seen { Zero } else { Nothing }
}
