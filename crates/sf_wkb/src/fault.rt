ghost use Rattle.std.specs.Prelude.{◌≡◌};
ghost use Rattle.sf_refusals.specs.Refusals.{name_of, number_of};
ghost use Rattle.sf_wkb.specs.Faults.{refusal_of};

use sf_refusals::Refusal;
use std::alloc::{AllocError, AllocFailed};
use thiserror::Error;

/// Why bytes have no geometry.
#[derive(Clone, Copy, Debug, PartialEq, Eq, Error)]
pub enum WkbFault {
    /// No memory was found for the geometry.
    #[error("no memory was found for the geometry")]
    Memory,
    /// A word is no whole number.
    #[error("a coordinate is no whole number")]
    OffGrid,
    /// A coordinate is a whole number off the grid.
    #[error("a coordinate is outside the grid")]
    OutOfRange,
    /// A count is 0.
    #[error("the geometry or a list in it is empty")]
    Empty,
    /// A byte of order is neither 0 nor 1, or a code is none that may stand there.
    #[error("the bytes are of no geometry that is read")]
    UnsupportedType,
    /// The bytes end inside a field.
    #[error("the bytes end too early")]
    Truncated,
    /// Bytes stand after the geometry.
    #[error("bytes stand after the geometry")]
    Trailing,
    /// A count says that there are more points than a geometry may have.
    #[error("the geometry has more than 65536 points")]
    TooManyVertices,
}

impl WkbFault {
    /// The number of the fault among the refusals of the store.
    pub fn number(self) -> u8
        ensures { result ≡ number_of (refusal_of self) }
    {
        Refusal::from(self).number()
    }

    /// The name of the fault among the refusals of the store.
    pub fn name(self) -> &'static str
        ensures { result.now ≡ name_of (refusal_of self) }
    {
        Refusal::from(self).name()
    }
}

impl From<WkbFault> for Refusal {
    ghost from_gives = { λ fault refusal. refusal ≡ refusal_of fault };

    fn from(fault: WkbFault) -> Refusal {
        match fault {
            WkbFault::Memory => Refusal::Memory,
            WkbFault::OffGrid => Refusal::OffGrid,
            WkbFault::OutOfRange => Refusal::OutOfRange,
            WkbFault::Empty => Refusal::Empty,
            WkbFault::UnsupportedType => Refusal::UnsupportedType,
            WkbFault::Truncated => Refusal::Truncated,
            WkbFault::Trailing => Refusal::Trailing,
            WkbFault::TooManyVertices => Refusal::TooManyVertices,
        }
    }
}

impl From<AllocError> for WkbFault {
    ghost use Rattle.sf_wkb.specs.declared.fault.WkbFault.TheVariants.{Memory};

    ghost from_gives = { λ _ fault. fault ≡ Memory };

    fn from(_: AllocError) -> WkbFault {
        WkbFault::Memory
    }
}

impl<T: Drop> From<AllocFailed<T>> for WkbFault {
    ghost use Rattle.sf_wkb.specs.declared.fault.WkbFault.TheVariants.{Memory};

    ghost from_gives = { λ _ fault. fault ≡ Memory };

    fn from(_: AllocFailed<T>) -> WkbFault {
        WkbFault::Memory
    }
}
