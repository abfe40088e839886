ghost use Rattle.std.specs.Prelude.{◌≡◌};
ghost use Rattle.sf_together.specs.declared.outcome.Refusal.TheVariants.{Memory};

use sf_patches::Halves;
use std::alloc::AllocError;

/// What a group would do.
#[derive(Debug, Drop)]
pub struct Plan {
    /// The identifiers that its additions would give, in order.
    pub ids: Vec<u32>,
    /// What leads there. The second half removes features alone.
    pub halves: Halves,
}

/// A group that was carried out.
#[derive(Debug, Drop)]
pub struct Together {
    /// The identifiers that its additions gave, in order; those of features that a later member removed too.
    pub ids: Vec<u32>,
    /// What takes the group back.
    pub halves: Halves,
}

/// Why a group is refused.
#[derive(Clone, Copy, Debug, PartialEq, Eq)]
pub enum Refusal {
    /// The first member that is refused, by its number from 1, and why.
    Member {
        number: usize,
        refusal: sf_steps::Refusal,
    },
    /// No memory was found.
    Memory,
}

impl From<AllocError> for Refusal {
    ghost from_gives = { λ _ refusal. refusal ≡ Memory };

    fn from(_error: AllocError) -> Refusal {
        Refusal::Memory
    }
}
