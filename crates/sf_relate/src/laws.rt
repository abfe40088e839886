//! Laws of matrices, patterns and predicates, each the contract of a function that does nothing.

ghost use Rattle.sf_geometry.specs.declared.geometry.Geometry.{Geometry};
ghost use Rattle.sf_relate.specs.Areas.{CrossingAreasOverlap};
ghost use Rattle.sf_relate.specs.Contact.{ApartHasNoContact, ContactIsShared, FirstPointIsIn, LiesInBox, PointFillsItsPlace, PointHasContact};
ghost use Rattle.sf_relate.specs.Matrices.{MatricesAreOverThePlane};
ghost use Rattle.sf_relate.specs.Placed.{PlacesAreKnown};
ghost use Rattle.sf_relate.specs.Places.{CountsTellPlaces};
ghost use Rattle.sf_relate.specs.ByKinds.{AlikeIsDecided, ApartIsDecided, WithinIsDecided};

/// The entries as they are computed are the matrix over the plane, and no others are, of all
/// geometries.
pub fn matrices_are_over_the_plane()
    ensures { MatricesAreOverThePlane }
{}

/// Of a valid geometry the counts at a point give its place.
pub fn counts_tell_places()
    ensures { CountsTellPlaces }
{}

/// Two geometries have contact just where they share a point of their interiors or boundaries;
/// contact alone decides whether they intersect or are disjoint.
pub fn contact_is_shared()
    ensures { (a b : Geometry) → ContactIsShared a b }
{}

/// A Point has contact just where it lies in the other geometry.
pub fn point_has_contact()
    ensures { PointHasContact }
{}

/// A Point's entries are filled at its place in the other geometry, and there alone; those of its
/// boundary never are.
pub fn point_fills_its_place()
    ensures { PointFillsItsPlace }
{}

/// What a Point's place says of its matrix holds of it.
pub fn places_are_known()
    ensures { PlacesAreKnown }
{}

/// The first point of a valid geometry is in it.
pub fn first_point_is_in()
    ensures { FirstPointIsIn }
{}

/// What is in a geometry with closed rings lies in its envelope.
pub fn lies_in_box()
    ensures { LiesInBox }
{}

/// Geometries with closed rings whose envelopes share no point have no contact.
pub fn apart_has_no_contact()
    ensures { ApartHasNoContact }
{}

/// Valid geometries that share no point have a matrix that follows from their kinds and ends.
pub fn apart_is_decided()
    ensures { ApartIsDecided }
{}

/// So has a valid geometry in the interior of an area that has room beside it.
pub fn within_is_decided()
    ensures { WithinIsDecided }
{}

/// So has a valid geometry with itself.
pub fn alike_is_decided()
    ensures { AlikeIsDecided }
{}

/// Valid areas overlap of which edges cross at a point that no other edge of the two has.
pub fn crossing_areas_overlap()
    ensures { CrossingAreasOverlap }
{}
