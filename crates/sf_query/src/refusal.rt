ghost use Rattle.sf_query.specs.Refusals.{refusal_of};
ghost use Rattle.std.specs.Prelude.{◌≡◌};

use std::alloc::AllocError;

/// Why a query is refused.
#[derive(Clone, Copy, Debug, PartialEq, Eq)]
pub enum Refusal {
    /// No memory was found for the answer.
    Memory,
    /// No layer has the name.
    NoLayer,
    /// The layer has no feature of the identifier.
    NoFeature,
}

impl From<Refusal> for sf_refusals::Refusal {
    ghost from_gives = { λ refusal result. result ≡ refusal_of refusal };

    fn from(refusal: Refusal) -> sf_refusals::Refusal {
        match refusal {
            Refusal::Memory => sf_refusals::Refusal::Memory,
            Refusal::NoLayer => sf_refusals::Refusal::NoLayer,
            Refusal::NoFeature => sf_refusals::Refusal::NoFeature,
        }
    }
}

impl From<AllocError> for Refusal {
    ghost use Rattle.sf_query.specs.declared.refusal.Refusal.TheVariants.{Memory};

    ghost from_gives = { λ _ refusal. refusal ≡ Memory };

    fn from(_: AllocError) -> Refusal {
        Refusal::Memory
    }
}
