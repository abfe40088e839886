//! Matrices that follow from kinds and ends, with no walk and no memory: of geometries that share no point, of one in the
//! interior of an area, and of two that are written alike.

ghost use Rattle.std.specs.Prelude.{◌≡◌, ◌↔◌, ◌∷◌, [], IfSome, IsTrue, MatchOption, if◌then◌else◌, is_some, not};
ghost use Rattle.std.specs.List.{list_any};
ghost use Rattle.sf_geometry.specs.declared.geometry.Geometry.TheVariants.{LineString};
ghost use Rattle.sf_geometry.specs.Envelope.{envelope_of, extents_meet};
ghost use Rattle.sf_geometry.specs.Lists.{ends_of};
ghost use Rattle.sf_interiors.specs.Dimensions.{boundary_dim as boundary_dim_of, has_end, interior_dim};
ghost use Rattle.sf_plane.specs.declared.dim.Dim.TheVariants as dims;
ghost use Rattle.sf_valid_rules.specs.Validity.{IsValid};
ghost use Rattle.sf_relate.specs.Matrices.{matrix_of};
ghost use Rattle.sf_relate.specs.ByKinds.{IsWithin, ShareNone, has_odd_end, is_odd_end};

use super::alike::are_alike;
use super::locating::is_end;
use super::shape::dimension;
use sf_geometry::{Extent, Geometry, Sequence, line_ends};
use sf_grid::GridPoint;
use sf_known::Matrix;
use sf_plane::Dim::{self, Nothing, Two};
use sf_validity::Valid;

/// The matrix of two geometries that share no point.
pub fn matrix_apart(a: &Valid, b: &Valid) -> Matrix
    requires { ShareNone a.now b.now }
    ensures { result.0 ≡ matrix_of a.now b.now }
{
    let (ia, ba) = own_dims(a);
    let (ib, bb) = own_dims(b);
    Matrix([Nothing, Nothing, ia, Nothing, Nothing, ba, ib, bb, Two])
}

/// The matrix of a geometry in the interior of an area that has room beside it.
pub fn matrix_within(a: &Valid, b: &Valid) -> Matrix
    requires within { IsWithin a.now b.now }
    requires area { interior_dim b.now ≡ dims.Two }
    ensures { result.0 ≡ matrix_of a.now b.now }
{
    let (ia, ba) = own_dims(a);
    let (ib, bb) = own_dims(b);
    Matrix([ia, Nothing, Nothing, ba, Nothing, Nothing, ib, bb, Two])
}

/// The matrix of two geometries whose boxes share no point, where `extent` is the second one's: kinds and ends give it. None
/// exactly where the boxes meet.
pub fn matrix_by_boxes(a: &Valid, b: &Valid, extent: Extent) -> Option<Matrix>
    requires extent { extent ≡ envelope_of b.now }
    requires valid { IsValid b.now }
    ensures holds { IfSome result (λ matrix. matrix.0 ≡ matrix_of a.now b.now) }
    ensures boxes { is_some result ≡ not (extents_meet (envelope_of a.now) extent) }
{
    if a.geometry().envelope().meets(extent) {
        return None;
    }
    Some(matrix_apart(a, b))
}

/// The matrix of two geometries that are written alike. None for all others, equal ones too.
pub fn matrix_alike(a: &Valid, b: &Valid) -> Option<Matrix>
    ensures holds { IfSome result (λ matrix. matrix.0 ≡ matrix_of a.now b.now) }
    ensures alike { IsTrue (is_some result) ↔ (a.now ≡ b.now) }
{
    if !are_alike(a.geometry(), b.geometry()) {
        return None;
    }
    let (interior, boundary) = own_dims(a);
    Some(Matrix([
        interior, Nothing, Nothing, Nothing, boundary, Nothing, Nothing, Nothing, Two,
    ]))
}

/// The dimensions of a valid geometry's interior and of its boundary.
fn own_dims(geometry: &Valid) -> (Dim, Dim)
    ensures dims { result ≡ (interior_dim geometry.now, boundary_dim_of geometry.now) }
    ensures valid { IsValid geometry.now }
{
    let geometry = geometry.geometry();
    (dimension(geometry), boundary_dim(geometry))
}

/// The dimension of a valid geometry's boundary.
pub(crate) fn boundary_dim(geometry: &Geometry) -> Dim
    ensures { result ≡ boundary_dim_of geometry.now }
{
    match geometry {
        Geometry::Point(_) | Geometry::MultiPoint(_) => Dim::Nothing,
        Geometry::LineString(line) => dim_of_ends(line_ends(line.as_slice()).is_some()),
        Geometry::MultiLineString(lines) => dim_of_ends(has_odd_ends(lines.as_slice())),
        Geometry::Polygon(_) | Geometry::MultiPolygon(_) => Dim::One,
    }
}

/// The dimension of the boundary of lines, by whether an end is in it.
fn dim_of_ends(has_end: bool) -> Dim
    ensures { result ≡ (if has_end then dims.Zero else dims.Nothing) }
{
    if has_end { Dim::Zero } else { Dim::Nothing }
}

/// Whether an odd number of the lines end at an end of one of them.
fn has_odd_ends(lines: &[Sequence<GridPoint>]) -> bool
    ensures { result ≡ list_any (has_odd_end lines.now) lines.now }
{
    lines.iter().any(|line| has_odd_end(line.as_slice(), lines))
}

/// Whether an odd number of the lines end at an end of this one.
fn has_odd_end(line: &[GridPoint], lines: &[Sequence<GridPoint>]) -> bool
    ensures { result ≡ has_odd_end lines.now line.now }
{
    match line_ends(line) {
        Some((first, last)) => is_odd_end(lines, first) || is_odd_end(lines, last),
        None => false,
    }
}

/// Whether an odd number of the lines end at the point.
pub(crate) fn is_odd_end(lines: &[Sequence<GridPoint>], point: GridPoint) -> bool
    ensures { result ≡ is_odd_end lines.now point }
{
    let count = lines
        .iter()
        .filter(|line| is_end(line.as_slice(), point))
        .count();
    count % 2 == 1
}
