//! Areas side by side: a line through an edge of one of them has them on its two sides.

ghost use Rattle.std.specs.Prelude.{◌≡◌, ◌↔◌, IfSome, IsTrue, is_some};
ghost use Rattle.sf_grid.specs.Edge.{edge_between};
ghost use Rattle.sf_known.specs.Known.{Holds};
ghost use Rattle.sf_relate.specs.Matrices.{matrix_of};
ghost use Rattle.sf_contact.specs.Divided.{AreBeside, AreDivided, Parts, is_small_area, known_divided};

use sf_geometry::{EdgeTest, Geometry};
use sf_grid::edges::orientation;
use sf_grid::{GridPoint, Turn};
use sf_known::Known;
use sf_plane::Dim::{Nothing, One, Two};
use sf_validity::Valid;

/// How many points each of two areas has at most for a line between them to be looked for. Each edge of the one is tried with
/// those of both, up to the first that lies on the wrong side.
pub const SIDED_POINTS: usize = 64;

/// What is known of two small areas that lie on the two sides of a line through an edge of one of them, as parcels do that
/// share a border: all entries but that of the two boundaries. None where there is no such line, and for other geometries.
pub fn known_by_sides(a: &Valid, b: &Valid) -> Option<Known>
    ensures holds { IfSome result (λ known. Holds known (matrix_of a.now b.now)) }
    ensures beside { IsTrue (is_some result) ↔ AreBeside a.now b.now }
    ensures all { IfSome result (λ known. known ≡ known_divided) }
{
    if is_small_area(a) && is_small_area(b) && are_divided(a.geometry(), b.geometry()) {
        Some(known_divided())
    } else {
        None
    }
}

/// Whether a geometry is a polygon, or several, of few points.
fn is_small_area(valid: &Valid) -> bool
    ensures { result ≡ is_small_area valid.now }
{
    let geometry = valid.geometry();
    matches!(geometry, Geometry::Polygon(_) | Geometry::MultiPolygon(_))
        && geometry.point_count() <= SIDED_POINTS
}

/// Whether the line through an edge of one of two geometries has them on its two sides.
fn are_divided(a: &Geometry, b: &Geometry) -> bool
    ensures { IsTrue result ↔ AreDivided a.now b.now }
{
    a.any_edge(&Dividing { own: a, other: b }) || b.any_edge(&Dividing { own: b, other: a })
}

/// Searches for edges of a geometry of its own that have it and another one on the two sides of their lines.
#[derive(Drop)]
struct Dividing<'a> {
    own: &'a Geometry,
    other: &'a Geometry,
}

impl EdgeTest for Dividing<'_> {
    ghost use Rattle.sf_contact.specs.Divided.{Divides};

    ghost Passes = { λ s edge. Divides s.own.now s.other.now edge };

    fn test(&self, from: GridPoint, to: GridPoint) -> bool {
        parts(from, to, self.own, self.other) || parts(from, to, self.other, self.own)
    }
}

/// Whether no edge of the first geometry begins on the right of a line, and none of the second on its left. The second is looked at
/// first: where the line is one of the first's, it is the second that most often lies on both sides.
fn parts(from: GridPoint, to: GridPoint, first: &Geometry, second: &Geometry) -> bool
    ensures { IsTrue result ↔ Parts (edge_between from to) first.now second.now }
{
    let right = BeginningOn {
        from,
        to,
        side: Turn::Right,
    };
    let left = BeginningOn {
        from,
        to,
        side: Turn::Left,
    };
    !second.any_edge(&left) && !first.any_edge(&right)
}

/// Searches for edges that begin on one side of the line through two points.
#[derive(Drop)]
struct BeginningOn {
    from: GridPoint,
    to: GridPoint,
    side: Turn,
}

impl EdgeTest for BeginningOn {
    ghost use Rattle.sf_grid.specs.Edge.{edge_between};
    ghost use Rattle.sf_contact.specs.Divided.{BeginsOn};

    ghost Passes = { λ s edge. BeginsOn s.side (edge_between s.from s.to) edge };

    fn test(&self, from: GridPoint, _to: GridPoint) -> bool {
        orientation(self.from, self.to, from) == self.side
    }
}

/// What is known of areas that are divided: neither interior shares a point with the other's interior or boundary, and a part of each
/// interior and boundary is outside of the other area. How the boundaries share points is left open, but that they share no area.
fn known_divided() -> Known
    ensures { result ≡ known_divided }
{
    Known {
        least: [Nothing, Nothing, Two, Nothing, Nothing, One, Two, One, Two],
        most: [Nothing, Nothing, Two, Nothing, One, One, Two, One, Two],
        contact: false,
    }
}
