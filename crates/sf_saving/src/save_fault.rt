ghost use Rattle.std.specs.Prelude.{◌≡◌};
ghost use Rattle.sf_saving.specs.declared.save_fault.SaveFault.TheVariants.{Memory, Write};

use sf_streams::WriteFault;
use std::alloc::AllocError;
use thiserror::Error;

/// Why a store was not saved.
#[derive(Clone, Copy, Debug, PartialEq, Eq, Error)]
pub enum SaveFault {
    /// No memory was found.
    #[error("out of memory")]
    Memory,
    /// The writer failed, or took no byte.
    #[error("the file could not be written")]
    Write,
}

impl From<AllocError> for SaveFault {
    ghost from_gives = { λ _ fault. fault ≡ Memory };

    fn from(_: AllocError) -> SaveFault {
        SaveFault::Memory
    }
}

impl From<WriteFault> for SaveFault {
    ghost from_gives = { λ _ fault. fault ≡ Write };

    fn from(_: WriteFault) -> SaveFault {
        SaveFault::Write
    }
}
