use sf_valid_rules::Fault;
use std::alloc::AllocError;

/// Why a geometry, or a change of one of its vertices, was refused.
#[derive(Clone, Copy, Debug, PartialEq, Eq)]
pub enum Refusal {
    /// No memory was found.
    Memory,
    /// A list of the geometry would be empty.
    Empty,
    /// The geometry would have more than 65,536 points.
    TooManyVertices,
    /// The geometry has no such vertex.
    NoVertex,
    /// The geometry isn't valid, or wouldn't be.
    Invalid(Fault),
}

impl From<Refusal> for sf_refusals::Refusal {
    ghost use Rattle.std.specs.Prelude.{◌≡◌};
    ghost use Rattle.sf_validity.specs.Refusals.{refusal_of};

    ghost from_gives = { λ refusal given. given ≡ refusal_of refusal };

    fn from(refusal: Refusal) -> sf_refusals::Refusal {
        match refusal {
            Refusal::Memory => sf_refusals::Refusal::Memory,
            Refusal::Empty => sf_refusals::Refusal::Empty,
            Refusal::TooManyVertices => sf_refusals::Refusal::TooManyVertices,
            Refusal::NoVertex => sf_refusals::Refusal::NoVertex,
            Refusal::Invalid(fault) => fault.into(),
        }
    }
}

impl From<sf_geometry::Refusal> for Refusal {
    ghost use Rattle.std.specs.Prelude.{◌≡◌};
    ghost use Rattle.sf_validity.specs.Refusals.{from_geometry};

    ghost from_gives = { λ lower refusal. refusal ≡ from_geometry lower };

    fn from(lower: sf_geometry::Refusal) -> Refusal {
        match lower {
            sf_geometry::Refusal::Memory => Refusal::Memory,
            sf_geometry::Refusal::Empty => Refusal::Empty,
            sf_geometry::Refusal::TooManyVertices => Refusal::TooManyVertices,
            sf_geometry::Refusal::NoVertex => Refusal::NoVertex,
        }
    }
}

impl From<AllocError> for Refusal {
    ghost use Rattle.std.specs.Prelude.{◌≡◌};
    ghost use Rattle.sf_validity.specs.declared.refusal.Refusal.TheVariants.{Memory};

    ghost from_gives = { λ _ refusal. refusal ≡ Memory };

    fn from(_error: AllocError) -> Refusal {
        Refusal::Memory
    }
}
