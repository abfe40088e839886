ghost use Rattle.std.specs.Prelude.{◌≡◌, ◌↔◌, IsTrue};

/// How a search ended.
#[derive(Clone, Copy, Debug, PartialEq, Eq)]
pub enum Outcome {
    /// What was searched for is there.
    Found,
    /// It is not there.
    Absent,
    /// The looks that were allowed are used up, and nothing is known.
    GaveUp,
}

impl Outcome {
    /// Whether what was searched for is not there.
    pub fn is_absent(&self) -> bool
        ensures { IsTrue result ↔ self.now ≡ Outcome.Absent }
    {
        match self {
            Outcome::Absent => true,
            Outcome::Found | Outcome::GaveUp => false,
        }
    }
}
