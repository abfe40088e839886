//! Laws of places, each the contract of a function that does nothing.

ghost use Rattle.sf_faults.specs.Computed.{PlacesAreOverThePlane};
ghost use Rattle.sf_faults.specs.Places.{FirstFaultsHavePlaces};

/// The place of a fault that is computed is the first one over all points of the plane, and there is no other.
pub fn places_are_over_the_plane()
    ensures { PlacesAreOverThePlane }
{}

/// The first fault of a geometry has a place.
pub fn first_faults_have_places()
    ensures { FirstFaultsHavePlaces }
{}
