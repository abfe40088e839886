ghost use Rattle.std.specs.Prelude.{◌≡◌};
ghost use Rattle.sf_picture.specs.declared.draw_fault.DrawFault.TheVariants.{Memory, Write};

use sf_streams::WriteFault;
use std::alloc::AllocError;
use thiserror::Error;

/// Why a picture was not drawn.
#[derive(Clone, Copy, Debug, PartialEq, Eq, Error)]
pub enum DrawFault {
    /// No memory was found.
    #[error("out of memory")]
    Memory,
    /// The writer failed, or took no byte.
    #[error("the picture could not be written")]
    Write,
}

impl From<AllocError> for DrawFault {
    ghost from_gives = { λ _ fault. fault ≡ Memory };

    fn from(_: AllocError) -> DrawFault {
        DrawFault::Memory
    }
}

impl From<WriteFault> for DrawFault {
    ghost from_gives = { λ _ fault. fault ≡ Write };

    fn from(_: WriteFault) -> DrawFault {
        DrawFault::Write
    }
}
