//! What is asked of edges, by their numbers.

/// How many looks a test of two edges takes: about as many boxes are compared in the same time.
pub(crate) const LOOKS_FOR_A_PAIR: usize = 8;

/// What is asked of single edges.
pub trait EdgeTest {
    ghost use Rattle.std.specs.Prelude.{ℕ, ◌↔◌, IsTrue};

    /// Which edges may be asked about.
    ghost CanTest: { Self → ℕ → Type 0 };

    /// Which edges are what is searched for.
    ghost Passes: { Self → ℕ → Type 0 };

    /// Whether an edge is what is searched for, which ends the search. What it looks at may take looks.
    fn test(&self, edge: usize, looks: &mut usize) -> bool
        requires { CanTest self.now edge }
        ensures { IsTrue result ↔ Passes self.now edge };
}

/// What is asked of two edges.
pub trait PairTest {
    ghost use Rattle.std.specs.Prelude.{ℕ, ◌↔◌, ◌<◌, ◌≤◌, IsTrue};

    /// Which pairs may be asked about.
    ghost CanTest: { Self → ℕ → ℕ → Type 0 };

    /// Which pairs are what is searched for.
    ghost Passes: { Self → ℕ → ℕ → Type 0 };

    /// Whether two edges are what is searched for, which ends the search.
    fn test(&self, first: usize, second: usize) -> bool
        requires { CanTest self.now first second }
        ensures { IsTrue result ↔ Passes self.now first second };

    /// Whether a look at all edges of a range shows that the first edge passes with none of them.
    fn is_clear(&self, first: usize, start: usize, end: usize) -> bool
        requires { (second : ℕ) → start ≤ second → second < end → CanTest self.now first second }
        ensures { IsTrue result → (second : ℕ) → start ≤ second → second < end
            → ¬ (Passes self.now first second) };
}

/// Single edges, each asked about together with one edge, the first of the two.
#[derive(Drop)]
pub(crate) struct WithFirst<'a, P> {
    pub first: usize,
    pub test: &'a P,
}

impl<P: PairTest> EdgeTest for WithFirst<'_, P> {
    ghost CanTest = { λ s edge. P.CanTest s.test.now s.first edge };

    ghost Passes = { λ s edge. P.Passes s.test.now s.first edge };

    fn test(&self, edge: usize, looks: &mut usize) -> bool {
        *looks = looks.saturating_sub(LOOKS_FOR_A_PAIR);
        self.test.test(self.first, edge)
    }
}
