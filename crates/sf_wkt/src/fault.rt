ghost use Rattle.std.specs.Prelude.{◌≡◌};
ghost use Rattle.sf_refusals.specs.Refusals.{name_of, number_of};
ghost use Rattle.sf_wkt.specs.Faults.{refusal_of};

use sf_refusals::Refusal;
use std::alloc::{AllocError, AllocFailed};
use thiserror::Error;

/// Why a text has no geometry.
#[derive(Clone, Copy, Debug, PartialEq, Eq, Error)]
pub enum WktFault {
    /// No memory was found for the geometry.
    #[error("no memory was found for the geometry")]
    Memory,
    /// A token cannot stand where it stands. The place is that of its first byte in the text, in bytes
    /// from the text's front; where the text ended too early, it is the text's length.
    #[error("a token cannot stand at byte {0}")]
    Syntax(usize),
    /// A coordinate has a fraction that isn't zero.
    #[error("a coordinate is no whole number")]
    OffGrid,
    /// A coordinate is a whole number off the grid.
    #[error("a coordinate is outside the grid")]
    OutOfRange,
    /// `EMPTY` stands where a bracket or an x may stand.
    #[error("the geometry or a list in it is empty")]
    Empty,
    /// The first word isn't the keyword of a geometry that is read, or names a form with more coordinates.
    #[error("the first word is no keyword of a geometry that is read")]
    UnsupportedType,
    /// There are more points than a geometry may have.
    #[error("the geometry has more than 65536 points")]
    TooManyVertices,
}

impl WktFault {
    /// The number of the fault among the refusals of the store.
    pub fn number(self) -> u8
        ensures { result ≡ number_of (refusal_of self) }
    {
        Refusal::from(self).number()
    }

    /// The name of the fault among the refusals of the store.
    pub fn name(self) -> &'static str
        ensures { result.now ≡ name_of (refusal_of self) }
    {
        Refusal::from(self).name()
    }
}

impl From<WktFault> for Refusal {
    ghost from_gives = { λ fault refusal. refusal ≡ refusal_of fault };

    fn from(fault: WktFault) -> Refusal {
        match fault {
            WktFault::Memory => Refusal::Memory,
            WktFault::Syntax(_) => Refusal::Syntax,
            WktFault::OffGrid => Refusal::OffGrid,
            WktFault::OutOfRange => Refusal::OutOfRange,
            WktFault::Empty => Refusal::Empty,
            WktFault::UnsupportedType => Refusal::UnsupportedType,
            WktFault::TooManyVertices => Refusal::TooManyVertices,
        }
    }
}

impl From<AllocError> for WktFault {
    ghost use Rattle.sf_wkt.specs.declared.fault.WktFault.TheVariants.{Memory};

    ghost from_gives = { λ _ fault. fault ≡ Memory };

    fn from(_: AllocError) -> WktFault {
        WktFault::Memory
    }
}

impl<T: Drop> From<AllocFailed<T>> for WktFault {
    ghost use Rattle.sf_wkt.specs.declared.fault.WktFault.TheVariants.{Memory};

    ghost from_gives = { λ _ fault. fault ≡ Memory };

    fn from(_: AllocFailed<T>) -> WktFault {
        WktFault::Memory
    }
}
