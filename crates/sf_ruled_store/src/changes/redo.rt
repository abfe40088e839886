//! Changes made again.
ghost use Rattle.std.specs.Prelude.{◌≡◌, IfErr, IfOk, IsOk, OnErr};
ghost use Rattle.sf_ruled_store.specs.Changes.{FitsRedo, MakesAgain, TakesNoMemory};

use super::undo::Undo;
use sf_edits::{Reverted, reapply};
use sf_layers::Store;
use sf_patches::Halves;
use std::alloc::Global;

/// What makes a change again that was taken back.
#[derive(Debug, Drop)]
pub enum Redo {
    /// Of an edit.
    Edit(Reverted),
    /// Of several edits as one step.
    Group(Halves),
}

/// Makes a change again that was taken back, and gives what takes it back: `take_back` carries that out.
///
/// # Errors
///
/// Where no memory is found, what was to be carried out is given back and nothing is changed. Edits that only remove
/// or exchange are never refused so.
pub fn make_again(alloc: Global, store: &mut Store, redo: Redo) -> Result<Undo, Redo>
    requires { FitsRedo store.old redo }
    ensures made { IfOk result (λ undo. MakesAgain store.old redo undo store.new) }
    ensures given_back { IfErr result (λ back. back ≡ redo) }
    ensures unchanged { OnErr result (store.new ≡ store.old) }
    ensures always { TakesNoMemory store.old redo → IsOk result }
{
    match redo {
        Redo::Edit(reverted) => make_edit_again(alloc, store, reverted),
        Redo::Group(halves) => make_group_again(alloc, store, halves),
    }
}

// The same of an edit.
fn make_edit_again(alloc: Global, store: &mut Store, reverted: Reverted) -> Result<Undo, Redo>
    requires { FitsRedo store.old (Redo.Edit reverted) }
    ensures made { IfOk result (λ undo. MakesAgain store.old (Redo.Edit reverted) undo store.new) }
    ensures given_back { IfErr result (λ back. back ≡ Redo.Edit reverted) }
    ensures unchanged { OnErr result (store.new ≡ store.old) }
    ensures always { TakesNoMemory store.old (Redo.Edit reverted) → IsOk result }
{
    match reapply(alloc, store, reverted) {
        Ok(inverse) => Ok(Undo::Edit(inverse)),
        Err(reverted) => Err(Redo::Edit(reverted)),
    }
}

// The same of several edits: what the halves hold afterwards takes them back.
fn make_group_again(alloc: Global, store: &mut Store, halves: Halves) -> Result<Undo, Redo>
    requires { FitsRedo store.old (Redo.Group halves) }
    ensures made { IfOk result (λ undo. MakesAgain store.old (Redo.Group halves) undo store.new) }
    ensures given_back { IfErr result (λ back. back ≡ Redo.Group halves) }
    ensures unchanged { OnErr result (store.new ≡ store.old) }
    ensures always { TakesNoMemory store.old (Redo.Group halves) → IsOk result }
{
    let mut exchanged = halves;
    match exchanged.exchange(alloc, store) {
        Ok(()) => Ok(Undo::Group(exchanged)),
        Err(_) => Err(Redo::Group(exchanged)),
    }
}
