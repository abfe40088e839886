//! Edits carried out in place under rules on values.

ghost use Rattle.std.specs.Prelude.{◌≡◌, IfErr, IfOk, None, OnErr, OnOk, true};
ghost use Rattle.sf_ruled_store.specs.Changes.{OfEdit};
ghost use Rattle.sf_ruled_store.specs.declared.changes.undo.Undo.TheVariants as changes;
ghost use Rattle.sf_rules.specs.Rules.{first_broken};
ghost use Rattle.sf_steps.specs.Inverses.{Fits, answer_of, described, frees_only};
ghost use Rattle.sf_ruled_store.specs.InPlace.{WasPut, is_in_place as is_put_in_place, puts_only as is_putting};
ghost use Rattle.sf_ruled_store.specs.Outcomes.{IsRefusedAs, ruled};
ghost use Rattle.sf_ruled_store.specs.Ruled.{OfChange, ruled_step, unless_broken};
ghost use Rattle.sf_ruled_store.specs.Undos.{IsEdited, IsSettled};
ghost use Rattle.sf_ruled_store.specs.declared.undo.Undo.TheVariants as undos;

use super::edits::{Edited, accepted, is_well_formed, refusal_of};
use super::refusal::Refusal;
use super::rules::Rules;
use sf_edits::{apply, revert};
use sf_layers::Store;
use sf_rules::{Broken, first_broken_at, make_indexes};
use sf_steps::{Edit, Inverse};
use std::alloc::{AllocError, Global};

/// Whether an edit is carried out in place: no rule between layers sees it, and it is taken back without memory.
pub(crate) fn is_in_place(rules: &Rules, edit: &Edit) -> bool
    ensures { result ≡ is_put_in_place edit.now rules.now }
{
    puts_only(edit) && !rules.see_between(edit)
}

/// Whether an edit adds a feature or sets a value.
fn puts_only(edit: &Edit) -> bool
    ensures { result ≡ is_putting edit.now }
{
    matches!(edit, Edit::AddFeature { .. } | Edit::SetValue { .. })
}

/// Carries out an edit in place: the feature is looked at as it is then, and the edit is taken back where a rule would be broken.
///
/// # Errors
///
/// Those of `Ruled::edit`.
pub(crate) fn carry_out_in_place(
    alloc: Global,
    store: &mut Store,
    rules: &Rules,
    edit: Edit,
) -> Result<Edited, Refusal>
    requires settled { IsSettled (ruled store.old rules.now) }
    requires in_place { is_put_in_place edit rules.now ≡ true }
    ensures accepted { IfOk result (λ done.
        IsEdited (ruled store.old rules.now) edit done.answer done.undo (ruled store.new rules.now)) }
    ensures refused { IfErr result (IsRefusedAs (ruled_step (ruled store.old rules.now) (OfChange (OfEdit edit)))) }
    ensures unchanged { OnErr result (store.new ≡ store.old) }
{
    is_well_formed(store);
    make_indexes(alloc, store, rules.as_slice());
    match apply(alloc, store, edit) {
        Ok(inverse) => keep_if_held(alloc, store, rules, inverse),
        Err(refused) => Err(refusal_of(refused)),
    }
}

/// Keeps what an edit made where rules hold, and else takes it back.
///
/// # Errors
///
/// The first rule that is broken, or out of memory.
fn keep_if_held(
    alloc: Global,
    store: &mut Store,
    rules: &Rules,
    inverse: Inverse,
) -> Result<Edited, Refusal>
    requires { WasPut rules.now inverse store.old }
    ensures accepted { IfOk result (λ done.
        done ≡ record { answer = answer_of inverse; undo = undos.Change (changes.Edit inverse) }) }
    ensures hold { OnOk result (first_broken store.old rules.now ≡ None) }
    ensures kept { OnOk result (store.new ≡ store.old) }
    ensures refused { IfErr result
        (IsRefusedAs (unless_broken (ruled store.old rules.now) (first_broken store.old rules.now))) }
    ensures back { OnErr result (store.new ≡ described store.old inverse) }
{
    match look(alloc, store, rules, &inverse) {
        Ok(()) => Ok(accepted(inverse)),
        Err(refusal) => {
            take_back(alloc, store, inverse);
            Err(refusal)
        }
    }
}

/// Takes an edit back, for which no memory is needed.
fn take_back(alloc: Global, store: &mut Store, inverse: Inverse)
    requires fits { Fits store.old inverse }
    requires frees { frees_only store.old inverse ≡ true }
    ensures { store.new ≡ described store.old inverse }
{
    revert(alloc, store, inverse).unwrap();
}

/// Whether rules hold after an edit that this takes back.
///
/// # Errors
///
/// The first rule that is broken, or out of memory.
fn look(alloc: Global, store: &Store, rules: &Rules, inverse: &Inverse) -> Result<(), Refusal>
    requires { WasPut rules.now inverse.now store.now }
    ensures hold { OnOk result (first_broken store.now rules.now ≡ None) }
    ensures refused { IfErr result
        (IsRefusedAs (unless_broken (ruled store.now rules.now) (first_broken store.now rules.now))) }
{
    match first_broken_by(alloc, store, rules, inverse)? {
        None => Ok(()),
        Some(broken) => Err(Refusal::RuleBroken(broken)),
    }
}

/// The first rule that is broken, looked for at the feature that was put or got a value.
///
/// # Errors
///
/// Out of memory alone.
fn first_broken_by(
    alloc: Global,
    store: &Store,
    rules: &Rules,
    inverse: &Inverse,
) -> Result<Option<Broken>, AllocError>
    requires { WasPut rules.now inverse.now store.now }
    ensures { IfOk result (λ found. found ≡ first_broken store.now rules.now) }
{
    match inverse {
        Inverse::TakeFeature { layer, id } => {
            first_broken_at(alloc, store, rules.as_slice(), layer.as_str(), *id)
        }
        Inverse::PutValue { layer, id, .. } => {
            first_broken_at(alloc, store, rules.as_slice(), layer.as_str(), *id)
        }
        // No other edit is carried out in place.
        _ => Err(AllocError),
    }
}
