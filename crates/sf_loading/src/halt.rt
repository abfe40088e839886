use sf_format::Defect;
use sf_streams::ReadFault;
use std::alloc::AllocError;

/// Why reading ended before the file did.
#[derive(Clone, Copy, Debug, PartialEq, Eq)]
pub(crate) enum Halt {
    /// No memory was found.
    Memory,
    /// The reader failed, or was asked too often.
    Read,
    /// A field is refused; the place is that of its first byte.
    Found(u64, Defect),
}

impl From<ReadFault> for Halt {
    ghost use Rattle.std.specs.Prelude.{◌≡◌};
    ghost use Rattle.sf_loading.specs.declared.halt.Halt.TheVariants.{Read};

    ghost from_gives = { λ _ halt. halt ≡ Read };

    fn from(_: ReadFault) -> Halt {
        Halt::Read
    }
}

impl From<AllocError> for Halt {
    ghost use Rattle.std.specs.Prelude.{◌≡◌};
    ghost use Rattle.sf_loading.specs.declared.halt.Halt.TheVariants.{Memory};

    ghost from_gives = { λ _ halt. halt ≡ Memory };

    fn from(_: AllocError) -> Halt {
        Halt::Memory
    }
}
