ghost use Rattle.std.specs.Prelude.{◌≡◌};
ghost use Rattle.sf_refusals.specs.declared.refusal.Refusal.TheVariants.{Memory};

use super::refusal::Refusal;
use std::alloc::AllocError;

impl From<AllocError> for Refusal {
    ghost from_gives = { λ _ refusal. refusal ≡ Memory };

    fn from(_error: AllocError) -> Refusal {
        Refusal::Memory
    }
}
