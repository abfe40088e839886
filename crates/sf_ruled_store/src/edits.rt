//! Edits and groups carried out under rules.

ghost use Rattle.std.specs.Prelude.{◌≡◌, ◌+◌, ◌≤◌, ◌++◌, length, IfErr, IfOk, IsTrue, MatchResult, OnErr, true, vec_capacity};
ghost use Rattle.sf_ruled_store.specs.Changes.{OfEdit, OfGroup};
ghost use Rattle.sf_groups.specs.Local.{is_of_features as is_edit_of_features};
ghost use Rattle.sf_groups.specs.Members.{ids_given};
ghost use Rattle.sf_steps.specs.declared.edit.Edit.{Edit as EditOf};
ghost use Rattle.sf_layers.specs.WellFormed.{IsWellFormed};
ghost use Rattle.sf_ruled_store.specs.Ruled.{OfChange, ruled_step, rules_after};
ghost use Rattle.sf_ruled_store.specs.declared.changes.undo.Undo.TheVariants as changes;
ghost use Rattle.sf_steps.specs.Inverses.{answer_of as inverse_answer};
ghost use Rattle.sf_ruled_store.specs.declared.undo.Undo.TheVariants as undos;
ghost use Rattle.sf_ruled_store.specs.Outcomes.{IsRefusedAs, answer_of as answer_of_ids, by_edit as by_edit_of, ruled};
ghost use Rattle.sf_ruled_store.specs.Undos.{IsEdited, IsGrouped, IsSettled, IsUnseen, alone, is_renaming, is_seen};

use super::in_place::{carry_out_in_place, is_in_place};
use super::refusal::{Refusal, as_edit, as_member, by_edit, by_member, by_rules};
use super::rules::Rules;
use super::undo::Undo;
use sf_edits::apply;
use sf_groups::{Group, Member};
use sf_layers::Store;
use sf_rules::{NotExchanged, exchange_under};
use sf_steps::{Answer, Edit, Inverse};
use sf_together::{Plan, plan};
use std::alloc::{AllocError, Global};
use std::mem::swap;

/// An edit that was carried out.
#[derive(Debug, Drop)]
pub struct Edited {
    pub answer: Answer,
    pub undo: Undo,
}

/// A group that was carried out.
#[derive(Debug, Drop)]
pub struct Grouped {
    /// The identifiers that its additions gave, in order; those of features that a later member removed too.
    pub ids: Vec<u32>,
    pub undo: Undo,
}

/// Carries out an edit that a rule sees.
///
/// # Errors
///
/// Those of `Ruled::edit`.
pub(crate) fn carry_out_ruled(
    alloc: Global,
    store: &mut Store,
    rules: &mut Rules,
    edit: Edit,
) -> Result<Edited, Refusal>
    requires settled { IsSettled (ruled store.old rules.old) }
    requires seen { is_seen edit rules.old ≡ true }
    ensures accepted { IfOk result (λ done.
        IsEdited (ruled store.old rules.old) edit done.answer done.undo (ruled store.new rules.new)) }
    ensures refused { IfErr result (IsRefusedAs (ruled_step (ruled store.old rules.old) (OfChange (OfEdit edit)))) }
    ensures unchanged { OnErr result (store.new ≡ store.old) }
    ensures kept { OnErr result (rules.new ≡ rules.old) }
{
    is_well_formed(store);
    if is_of_features(&edit) {
        return carry_out_seen(alloc, store, rules, edit);
    }
    if let Edit::DropLayer { .. } = &edit {
        return Err(Refusal::LayerRuled);
    }
    if let Edit::DropColumn { .. } = &edit {
        return Err(Refusal::ColumnRuled);
    }
    if let Edit::RenameLayer { name, new_name } = &edit {
        let renamed = rules.renamed(alloc, name.as_str(), new_name.as_str())?;
        return rename(alloc, store, rules, renamed, edit);
    }
    carry_out_unseen(alloc, store, rules, edit)
}

/// Whether an edit adds a feature, removes one or changes one.
fn is_of_features(edit: &Edit) -> bool
    ensures { result ≡ is_edit_of_features edit.now }
{
    match edit {
        Edit::AddFeature { .. }
        | Edit::DeleteFeature { .. }
        | Edit::ReplaceGeometry { .. }
        | Edit::InsertVertex { .. }
        | Edit::MoveVertex { .. }
        | Edit::RemoveVertex { .. }
        | Edit::SetValue { .. }
        | Edit::ClearValue { .. } => true,
        Edit::AddLayer { .. }
        | Edit::DropLayer { .. }
        | Edit::RenameLayer { .. }
        | Edit::MoveLayer { .. }
        | Edit::AddColumn { .. }
        | Edit::DropColumn { .. } => false,
    }
}

/// Carries out an edit that no rule sees.
///
/// # Errors
///
/// `ByEdit`, or out of memory.
pub(crate) fn carry_out_unseen(
    alloc: Global,
    store: &mut Store,
    rules: &Rules,
    edit: Edit,
) -> Result<Edited, Refusal>
    requires settled { IsSettled (ruled store.old rules.now) }
    requires unseen { IsUnseen rules.now edit }
    ensures accepted { IfOk result (λ done.
        IsEdited (ruled store.old rules.now) edit done.answer done.undo (ruled store.new rules.now)) }
    ensures refused { IfErr result (IsRefusedAs (ruled_step (ruled store.old rules.now) (OfChange (OfEdit edit)))) }
    ensures unchanged { OnErr result (store.new ≡ store.old) }
{
    is_well_formed(store);
    match apply(alloc, store, edit) {
        Ok(inverse) => Ok(accepted(inverse)),
        Err(refused) => Err(refusal_of(refused)),
    }
}

/// An edit that was carried out, and that this takes back.
pub(crate) fn accepted(inverse: Inverse) -> Edited
    ensures { result ≡ record { answer = inverse_answer inverse; undo = undos.Change (changes.Edit inverse) } }
{
    Edited {
        answer: inverse.answer(),
        undo: Undo::Change(super::changes::Undo::Edit(inverse)),
    }
}

/// Why an edit was given back. It is dropped here, so that those who carry it out have no place for it.
pub(crate) fn refusal_of(given_back: (Edit, sf_steps::Refusal)) -> Refusal
    ensures { result ≡ by_edit_of given_back.1 }
{
    let (_, refusal) = given_back;
    by_edit(refusal)
}

/// Carries out an edit of a feature that a rule sees: in place where it can be, else as a group of one.
fn carry_out_seen(
    alloc: Global,
    store: &mut Store,
    rules: &Rules,
    edit: Edit,
) -> Result<Edited, Refusal>
    requires settled { IsSettled (ruled store.old rules.now) }
    requires of_features { is_edit_of_features edit ≡ true }
    ensures accepted { IfOk result (λ done.
        IsEdited (ruled store.old rules.now) edit done.answer done.undo (ruled store.new rules.now)) }
    ensures refused { IfErr result (IsRefusedAs (ruled_step (ruled store.old rules.now) (OfChange (OfEdit edit)))) }
    ensures unchanged { OnErr result (store.new ≡ store.old) }
{
    if is_in_place(rules, &edit) {
        return carry_out_in_place(alloc, store, rules, edit);
    }
    carry_out_as_group(alloc, store, rules, edit)
}

/// Carries out an edit of a feature as a group of one.
fn carry_out_as_group(
    alloc: Global,
    store: &mut Store,
    rules: &Rules,
    edit: Edit,
) -> Result<Edited, Refusal>
    requires settled { IsSettled (ruled store.old rules.now) }
    requires of_features { is_edit_of_features edit ≡ true }
    ensures accepted { IfOk result (λ done.
        IsEdited (ruled store.old rules.now) edit done.answer done.undo (ruled store.new rules.now)) }
    ensures refused { IfErr result (IsRefusedAs (ruled_step (ruled store.old rules.now) (OfChange (OfEdit edit)))) }
    ensures unchanged { OnErr result (store.new ≡ store.old) }
{
    let group = alone(alloc, edit)?;
    match carry_out_several(alloc, store, rules, group) {
        Ok(Grouped { ids, undo }) => Ok(Edited {
            answer: answer_of(ids.as_slice()),
            undo,
        }),
        Err(refusal) => Err(as_edit(refusal)),
    }
}

/// Carries out a group, as one step.
///
/// # Errors
///
/// Those of `Ruled::group`.
pub(crate) fn carry_out_group(
    alloc: Global,
    store: &mut Store,
    rules: &Rules,
    group: Group,
) -> Result<Grouped, Refusal>
    requires { IsSettled (ruled store.old rules.now) }
    ensures accepted { IfOk result (λ done.
        IsGrouped (ruled store.old rules.now) group done.ids.items done.undo (ruled store.new rules.now)) }
    ensures refused { IfErr result (IsRefusedAs (ruled_step (ruled store.old rules.now) (OfChange (OfGroup group)))) }
    ensures unchanged { OnErr result (store.new ≡ store.old) }
{
    match only_unseen(rules, group) {
        Ok(edit) => carry_out_alone(alloc, store, rules, edit),
        Err(group) => carry_out_several(alloc, store, rules, group),
    }
}

/// Carries out an edit that no rule sees as the only one of a group: nothing has to be tried beside the store, and its inverse
/// takes it back.
fn carry_out_alone(
    alloc: Global,
    store: &mut Store,
    rules: &Rules,
    edit: Edit,
) -> Result<Grouped, Refusal>
    requires settled { IsSettled (ruled store.old rules.now) }
    requires unseen { IsUnseen rules.now edit }
    ensures accepted { IfOk result (λ done.
        IsGrouped (ruled store.old rules.now) (alone edit) done.ids.items done.undo (ruled store.new rules.now)) }
    ensures refused { IfErr result
        (IsRefusedAs (ruled_step (ruled store.old rules.now) (OfChange (OfGroup (alone edit))))) }
    ensures unchanged { OnErr result (store.new ≡ store.old) }
{
    // The place for its identifier comes first.
    let mut ids = Vec::with_capacity(alloc, 1)?;
    match carry_out_unseen(alloc, store, rules, edit) {
        Ok(Edited { answer, undo }) => {
            put_id(&mut ids, answer);
            Ok(Grouped { ids, undo })
        }
        Err(refusal) => Err(as_member(refusal)),
    }
}

/// Carries out a group of several edits, or of one that a rule may see.
fn carry_out_several(
    alloc: Global,
    store: &mut Store,
    rules: &Rules,
    group: Group,
) -> Result<Grouped, Refusal>
    requires { IsSettled (ruled store.old rules.now) }
    ensures accepted { IfOk result (λ done.
        IsGrouped (ruled store.old rules.now) group done.ids.items done.undo (ruled store.new rules.now)) }
    ensures refused { IfErr result (IsRefusedAs (ruled_step (ruled store.old rules.now) (OfChange (OfGroup group)))) }
    ensures unchanged { OnErr result (store.new ≡ store.old) }
{
    match plan(alloc, store, group) {
        Ok(Plan { ids, mut halves }) => {
            match exchange_under(alloc, store, rules.as_slice(), &mut halves) {
                Ok(()) => Ok(Grouped {
                    ids,
                    undo: Undo::Change(super::changes::Undo::Group(halves)),
                }),
                Err(refusal) => Err(by_rules(refusal)),
            }
        }
        Err(refusal) => Err(by_member(refusal)),
    }
}

/// Gives a layer that rules name another name, and puts the rules with that name in the place of the others.
fn rename(
    alloc: Global,
    store: &mut Store,
    rules: &mut Rules,
    renamed: Rules,
    edit: Edit,
) -> Result<Edited, Refusal>
    requires settled { IsSettled (ruled store.old rules.old) }
    requires renaming { is_renaming edit ≡ true }
    requires renamed { renamed ≡ rules_after rules.old (OfEdit edit) }
    ensures accepted { IfOk result (λ done.
        IsEdited (ruled store.old rules.old) edit done.answer done.undo (ruled store.new rules.new)) }
    ensures refused { IfErr result (IsRefusedAs (ruled_step (ruled store.old rules.old) (OfChange (OfEdit edit)))) }
    ensures unchanged { OnErr result (store.new ≡ store.old) }
    ensures kept { OnErr result (rules.new ≡ rules.old) }
{
    let mut exchanged = renamed;
    match apply(alloc, store, edit) {
        Ok(inverse) => {
            swap(rules, &mut exchanged);
            Ok(Edited {
                answer: inverse.answer(),
                undo: Undo::Renamed {
                    inverse,
                    rules: exchanged,
                },
            })
        }
        Err((_, refusal)) => Err(by_edit(refusal)),
    }
}

/// The edit as the only one of a group.
///
/// # Errors
///
/// Out of memory alone.
fn alone(alloc: Global, edit: Edit) -> Result<Group, AllocError>
    requires { is_edit_of_features edit ≡ true }
    ensures { IfOk result (λ group. group ≡ alone edit) }
{
    let mut group = Group::new(alloc);
    let member = Member {
        edit,
        of_last: false,
    };
    match group.push(alloc, member) {
        Ok(()) => Ok(group),
        // It is of a feature, and of none that was added before it.
        Err(_) => Err(AllocError),
    }
}

/// The edit of a group that has no other, of a feature that it names, and that no rule sees.
fn only_unseen(rules: &Rules, group: Group) -> Result<Edit, Group>
    ensures { MatchResult result (λ edit. (group ≡ alone edit) × IsUnseen rules.now edit) (λ back. back ≡ group) }
{
    if !is_alone_unseen(rules, group.members()) {
        return Err(group);
    }
    let member = group.into_members().pop().unwrap();
    Ok(member.edit)
}

/// Whether one member stands alone, of a feature that it names, and no rule sees it.
fn is_alone_unseen(rules: &Rules, members: &[Member]) -> bool
    ensures { IsTrue result → (edit : EditOf) × (members.now ≡ alone edit) × IsUnseen rules.now edit }
{
    match members {
        [member] => !member.of_last && !rules.see(&member.edit),
        _ => false,
    }
}

/// Puts the identifier that an edit gave behind the others, where it gave one. There is room for it.
fn put_id(ids: &mut Vec<u32>, answer: Answer)
    requires { length ids.old.items + 1 ≤ vec_capacity ids.old }
    ensures { ids.new.items ≡ ids.old.items ++ ids_given answer }
{
    match answer {
        Answer::Id(id) => ids.push(id).unwrap(),
        Answer::Done => {}
    }
}

/// What an edit answers that gave these identifiers as a group: the one, or none.
fn answer_of(ids: &[u32]) -> Answer
    ensures { result ≡ answer_of_ids ids.now }
{
    match ids.first() {
        Some(id) => Answer::Id(*id),
        None => Answer::Done,
    }
}

/// Shows a proof that a store is well formed. It does nothing, so a compiler may leave it out.
pub(crate) fn is_well_formed(store: &Store)
    ensures { IsWellFormed store.now }
{
    store.layer_count();
}
