ghost use Rattle.std.specs.Prelude.{◌≡◌};

/// Why a geometry, or a change of one of its vertices, was refused.
#[derive(Clone, Copy, Debug, PartialEq, Eq)]
pub enum Refusal {
    /// No memory was found.
    Memory,
    /// A list of the geometry is empty, or would be.
    Empty,
    /// The geometry has more than 65,536 points, or would have.
    TooManyVertices,
    /// The geometry has no such vertex.
    NoVertex,
}

impl From<Refusal> for sf_refusals::Refusal {
    ghost use Rattle.sf_geometry.specs.Refusals.{refusal_of};

    ghost from_gives = { λ refusal given. given ≡ refusal_of refusal };

    fn from(refusal: Refusal) -> sf_refusals::Refusal {
        match refusal {
            Refusal::Memory => sf_refusals::Refusal::Memory,
            Refusal::Empty => sf_refusals::Refusal::Empty,
            Refusal::TooManyVertices => sf_refusals::Refusal::TooManyVertices,
            Refusal::NoVertex => sf_refusals::Refusal::NoVertex,
        }
    }
}
