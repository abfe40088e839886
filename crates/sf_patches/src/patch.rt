ghost use Rattle.std.specs.Prelude.{◌≡◌, IsOk, OnErr, OnOk};
ghost use Rattle.sf_patches.specs.Fits.{FitsPatch};
ghost use Rattle.sf_patches.specs.Patches.{NoneGrows, patched, undoing};

use super::exchanging::exchange_all;
use super::slot::Slot;
use sf_layers::Store;
use std::alloc::{AllocError, Global};
use std::marker::Model;

/// Exchanges in order. Contracts see the list of them.
#[derive(Debug, Drop)]
pub struct Patch {
    slots: Vec<Slot>,
}

impl Model for Patch {
    ghost use Rattle.std.specs.Prelude.{List};
    ghost use Rattle.sf_patches.specs.declared.slot.Slot.{Slot};

    ghost Value = { List Slot };

    ghost view = { λ a. a.slots.items };
}

impl Patch {
    /// These exchanges.
    pub fn from_slots(slots: Vec<Slot>) -> Patch
        ensures { result ≡ slots.items }
    {
        Patch { slots }
    }

    /// The exchanges, in order.
    pub fn slots(&self) -> &[Slot]
        ensures { result.now ≡ self.now }
    {
        self.slots.as_slice()
    }

    /// Exchanges what the patch holds with what the store has there, in order. The patch then holds what was there, the
    /// last one first: the same call takes it back. Indexes that were lost are built anew, if memory is found.
    ///
    /// # Errors
    ///
    /// Where no memory is found for a feature that is put where none was, all is as it was. A patch that puts none is
    /// never refused.
    pub fn exchange(&mut self, alloc: Global, store: &mut Store) -> Result<(), AllocError>
        requires { FitsPatch store.old self.old }
        ensures exchanged { OnOk result (store.new ≡ patched store.old self.old) }
        ensures back { OnOk result (self.new ≡ undoing store.old self.old) }
        ensures unchanged { OnErr result (store.new ≡ store.old) }
        ensures kept { OnErr result (self.new ≡ self.old) }
        ensures always { NoneGrows store.old self.old → IsOk result }
    {
        exchange_all(alloc, store, &mut self.slots)?;
        reindex(alloc, store, self.slots.as_slice());
        Ok(())
    }
}

// Builds the indexes of these layers anew where they were lost.
fn reindex(alloc: Global, store: &mut Store, slots: &[Slot])
    ensures { store.new ≡ store.old }
{
    for slot in slots {
        store.reindex(alloc, slot.place());
    }
}
