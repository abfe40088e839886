/// Why a pattern is refused.
#[derive(Clone, Copy, Debug, PartialEq, Eq)]
pub enum Refusal {
    /// It isn't nine of the letters of patterns.
    BadPattern,
}

impl From<Refusal> for sf_refusals::Refusal {
    ghost use Rattle.std.specs.Prelude.{◌≡◌};
    ghost use Rattle.sf_refusals.specs.declared.refusal.Refusal.TheVariants.{BadPattern};

    ghost from_gives = { λ _ refusal. refusal ≡ BadPattern };

    fn from(refusal: Refusal) -> sf_refusals::Refusal {
        match refusal {
            Refusal::BadPattern => sf_refusals::Refusal::BadPattern,
        }
    }
}
