ghost use Rattle.std.specs.Prelude.{◌≡◌};
ghost use Rattle.sf_geometry.specs.Kinds.{dimension_of, kind_of};
ghost use Rattle.sf_interiors.specs.Dimensions.{interior_dim};
ghost use Rattle.sf_plane.specs.Unions.{dim_of};
ghost use Rattle.sf_relate.specs.Places.{is_areal, shape_of};

use sf_geometry::Geometry;
use sf_plane::Dim;

/// What a geometry is made of: points, lines or polygons.
#[derive(Clone, Copy, Debug, PartialEq, Eq)]
pub enum Shape {
    Points,
    Lines,
    Areas,
}

impl Shape {
    /// What the geometry is made of.
    pub fn of(geometry: &Geometry) -> Shape
        ensures { result ≡ shape_of geometry.now }
    {
        match geometry {
            Geometry::Point(_) | Geometry::MultiPoint(_) => Shape::Points,
            Geometry::LineString(_) | Geometry::MultiLineString(_) => Shape::Lines,
            Geometry::Polygon(_) | Geometry::MultiPolygon(_) => Shape::Areas,
        }
    }

    /// Whether it is polygons.
    pub(crate) fn is_areal(self) -> bool
        ensures { result ≡ is_areal self }
    {
        matches!(self, Shape::Areas)
    }
}

/// The dimension of the geometries of a geometry's kind, which predicates go by. A valid one's interior has it.
pub fn dimension(geometry: &Geometry) -> Dim
    ensures kind { result ≡ dim_of (dimension_of (kind_of geometry.now)) }
    ensures interior { result ≡ interior_dim geometry.now }
{
    match Shape::of(geometry) {
        Shape::Points => Dim::Zero,
        Shape::Lines => Dim::One,
        Shape::Areas => Dim::Two,
    }
}
