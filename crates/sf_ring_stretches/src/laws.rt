//! Laws of exchanged stretches, each the contract of a function that does nothing.

ghost use Rattle.sf_ring_stretches.specs.Exchange.{BoxesApartAreOff, OtherRingsAreOneSided, PointsAreExchanged, RingsAgreeOutside, SharesAreKept};
ghost use Rattle.sf_ring_stretches.specs.Kept.{PolygonsAreKept};

/// Outside of a box that has all ends of the old and of the new edges, the same points are on the ring before and after,
/// and inside of it.
pub fn rings_agree_outside()
    ensures { RingsAgreeOutside }
{}

/// With a ring that has no point of the box it shares the same pieces before and after.
pub fn shares_are_kept()
    ensures { SharesAreKept }
{}

/// A closed ring that has no point of a box has all of it inside, or none.
pub fn other_rings_are_one_sided()
    ensures { OtherRingsAreOneSided }
{}

/// Points of a ring that are exchanged for others are such a stretch, in a box that has them and their neighbours.
pub fn points_are_exchanged()
    ensures { PointsAreExchanged }
{}

/// Edges in a box have no point of another one that shares no point with it.
pub fn boxes_apart_are_off()
    ensures { BoxesApartAreOff }
{}

/// The rules on the whole that held of polygons hold where of one of them the shell, or a hole, had a stretch exchanged
/// in a box that all other rings are off, the holes and the other polygons beside it.
pub fn polygons_are_kept()
    ensures { PolygonsAreKept }
{}
