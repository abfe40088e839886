/// Why a geometry isn't valid, in the order in which the rules are checked.
#[derive(Clone, Copy, Debug, PartialEq, Eq)]
pub enum Fault {
    /// A line has fewer than two points, repeats dropped.
    ShortLine,
    /// The first and the last point of a ring differ.
    OpenRing,
    /// A ring has fewer than four points, repeats dropped and the closing one counted.
    ShortRing,
    /// Two edges of a ring share a point that isn't their common vertex as neighbours.
    RingNotSimple,
    /// An edge of a ring and an edge of another ring share two points.
    RingsMeet,
    /// A point of a hole is outside its shell.
    HoleOutside,
    /// A point is inside two holes of one polygon.
    HolesNested,
    /// A point is inside two polygons.
    PolygonsOverlap,
}

impl From<Fault> for sf_refusals::Refusal {
    ghost use Rattle.std.specs.Prelude.{◌≡◌};
    ghost use Rattle.sf_valid_rules.specs.Faults.{refusal_of};

    ghost from_gives = { λ fault given. given ≡ refusal_of fault };

    fn from(fault: Fault) -> sf_refusals::Refusal {
        match fault {
            Fault::ShortLine => sf_refusals::Refusal::ShortLine,
            Fault::OpenRing => sf_refusals::Refusal::OpenRing,
            Fault::ShortRing => sf_refusals::Refusal::ShortRing,
            Fault::RingNotSimple => sf_refusals::Refusal::RingNotSimple,
            Fault::RingsMeet => sf_refusals::Refusal::RingsMeet,
            Fault::HoleOutside => sf_refusals::Refusal::HoleOutside,
            Fault::HolesNested => sf_refusals::Refusal::HolesNested,
            Fault::PolygonsOverlap => sf_refusals::Refusal::PolygonsOverlap,
        }
    }
}
