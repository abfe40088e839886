ghost use Rattle.std.specs.Prelude.{◌≡◌, ◌++◌, ◌∷◌, [], OnOk};

use std::alloc::{AllocError, Global};
use std::marker::Model;

/// Identifiers of features, in the order in which they were asked for. Contracts see them as their list.
#[derive(Debug, Drop)]
pub struct Identifiers {
    ids: Vec<u32>,
}

impl Model for Identifiers {
    ghost use Rattle.std.specs.Prelude.{ℕ, List};

    ghost Value = { List ℕ };

    ghost view = { λ a. a.ids.items };
}

impl Identifiers {
    /// No identifier.
    pub fn new(alloc: Global) -> Identifiers
        ensures { result ≡ [] }
    {
        Identifiers {
            ids: Vec::new(alloc),
        }
    }

    /// One more, the last of them.
    pub fn push(&mut self, id: u32) -> Result<(), AllocError>
        ensures { OnOk result (self.new ≡ self.old ++ id ∷ []) }
    {
        self.ids.push(id)?;
        Ok(())
    }

    /// The identifiers in their order.
    pub fn as_slice(&self) -> &[u32]
        ensures { result.now ≡ self.now }
    {
        self.ids.as_slice()
    }
}
