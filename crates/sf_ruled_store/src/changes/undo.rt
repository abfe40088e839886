//! Changes taken back.
ghost use Rattle.std.specs.Prelude.{◌≡◌, IfErr, IfOk, IsOk, OnErr};
ghost use Rattle.sf_ruled_store.specs.Changes.{FitsUndo, FreesOnly, TakesBack};

use super::redo::Redo;
use sf_edits::revert;
use sf_layers::Store;
use sf_patches::Halves;
use sf_steps::Inverse;
use std::alloc::Global;

/// What takes a change back.
#[derive(Debug, Drop)]
pub enum Undo {
    /// Of an edit.
    Edit(Inverse),
    /// Of several edits as one step.
    Group(Halves),
}

/// Takes a change back, and gives what makes it again: `make_again` carries that out.
///
/// # Errors
///
/// Where no memory is found, what was to be carried out is given back and nothing is changed. What only removes or
/// exchanges is never refused so.
pub fn take_back(alloc: Global, store: &mut Store, undo: Undo) -> Result<Redo, Undo>
    requires { FitsUndo store.old undo }
    ensures taken { IfOk result (λ redo. TakesBack store.old undo redo store.new) }
    ensures given_back { IfErr result (λ back. back ≡ undo) }
    ensures unchanged { OnErr result (store.new ≡ store.old) }
    ensures always { FreesOnly store.old undo → IsOk result }
{
    match undo {
        Undo::Edit(inverse) => take_edit_back(alloc, store, inverse),
        Undo::Group(halves) => take_group_back(alloc, store, halves),
    }
}

// The same of an edit.
fn take_edit_back(alloc: Global, store: &mut Store, inverse: Inverse) -> Result<Redo, Undo>
    requires { FitsUndo store.old (Undo.Edit inverse) }
    ensures taken { IfOk result (λ redo. TakesBack store.old (Undo.Edit inverse) redo store.new) }
    ensures given_back { IfErr result (λ back. back ≡ Undo.Edit inverse) }
    ensures unchanged { OnErr result (store.new ≡ store.old) }
    ensures always { FreesOnly store.old (Undo.Edit inverse) → IsOk result }
{
    match revert(alloc, store, inverse) {
        Ok(reverted) => Ok(Redo::Edit(reverted)),
        Err(inverse) => Err(Undo::Edit(inverse)),
    }
}

// The same of several edits: what the halves hold afterwards makes them again.
fn take_group_back(alloc: Global, store: &mut Store, halves: Halves) -> Result<Redo, Undo>
    requires { FitsUndo store.old (Undo.Group halves) }
    ensures taken { IfOk result (λ redo. TakesBack store.old (Undo.Group halves) redo store.new) }
    ensures given_back { IfErr result (λ back. back ≡ Undo.Group halves) }
    ensures unchanged { OnErr result (store.new ≡ store.old) }
    ensures always { FreesOnly store.old (Undo.Group halves) → IsOk result }
{
    let mut exchanged = halves;
    match exchanged.exchange(alloc, store) {
        Ok(()) => Ok(Redo::Group(exchanged)),
        Err(_) => Err(Undo::Group(exchanged)),
    }
}
