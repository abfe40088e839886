//! Patches in two halves.

ghost use Rattle.std.specs.Prelude.{◌≡◌, IsOk, OnErr, OnOk};
ghost use Rattle.sf_patches.specs.Halves.{FitsHalves, after_halves, back_halves};
ghost use Rattle.sf_patches.specs.Patches.{NoneGrows};

use super::patch::Patch;
use sf_layers::Store;
use std::alloc::{AllocError, Global};
use std::mem::swap;

/// A patch in two halves: all that may need memory is made first, and what is to go is still there in between.
#[derive(Debug, Drop)]
pub struct Halves {
    /// Exchanges of which none removes a feature.
    pub growing: Patch,
    /// Those behind them, of which none puts a feature where none was.
    pub removing: Patch,
}

impl Halves {
    /// Exchanges what the halves hold with what the store has there. The halves then hold what was there: the same call takes it
    /// back.
    ///
    /// # Errors
    ///
    /// Out of memory; all is then as it was. Halves that put no feature where none was are never refused.
    pub fn exchange(&mut self, alloc: Global, store: &mut Store) -> Result<(), AllocError>
        requires { FitsHalves store.old self.old }
        ensures exchanged { OnOk result (store.new ≡ after_halves store.old self.old) }
        ensures back { OnOk result (self.new ≡ back_halves store.old self.old) }
        ensures unchanged { OnErr result (store.new ≡ store.old) }
        ensures kept { OnErr result (self.new ≡ self.old) }
        ensures always { NoneGrows store.old self.old.growing → IsOk result }
    {
        self.growing.exchange(alloc, store)?;
        self.removing.exchange(alloc, store).unwrap();
        swap(&mut self.growing, &mut self.removing);
        Ok(())
    }
}
