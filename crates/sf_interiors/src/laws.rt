//! Laws of valid geometries, and of paths and closed chains, each the contract of a function that does nothing.

ghost use Rattle.sf_interiors.specs.Apart.{InteriorIsApart};
ghost use Rattle.sf_interiors.specs.Dimensions.{BoundaryHasDimension, InteriorHasDimension};
ghost use Rattle.sf_interiors.specs.Paths.{BoxHasOneParity, ChainHasOneParity, EdgeHasOneParity};
ghost use Rattle.sf_interiors.specs.Vertices.{AreasHaveBeside};

/// No point of the plane is both in the interior and in the boundary of a valid geometry: a point
/// on a ring of one polygon is inside no other.
pub fn interior_is_apart()
    ensures { InteriorIsApart }
{}

/// The interior of a valid geometry has the dimension of its kind.
pub fn interior_has_dimension()
    ensures { InteriorHasDimension }
{}

/// The boundary of a valid geometry has the dimension of its kind, and where it is of lines none without an
/// end that is in it.
pub fn boundary_has_dimension()
    ensures { BoundaryHasDimension }
{}

/// Less than a grid step away from each end of its edges a valid area has a part of its interior with area, and
/// a part of its boundary with length.
pub fn areas_have_beside()
    ensures { AreasHaveBeside }
{}

/// All points of an edge that meets no edge of a closed chain have one parity of the chain's edges above.
pub fn edge_has_one_parity()
    ensures { EdgeHasOneParity }
{}

/// The two ends of a chain that meets no edge of a closed chain have one parity.
pub fn chain_has_one_parity()
    ensures { ChainHasOneParity }
{}

/// All points of a closed box that no edge of a closed chain meets have one parity.
pub fn box_has_one_parity()
    ensures { BoxHasOneParity }
{}
