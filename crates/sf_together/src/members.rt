//! Members carried out on a scratch store, one after another.
ghost use Rattle.std.specs.Prelude.{◌≡◌, ◌++◌, ◌-◌, IfErr, IfOk, Ok, OnOk};
ghost use Rattle.sf_steps.specs.Steps.{next_id_of, step};
ghost use Rattle.sf_groups.specs.Members.{ids_given, resolved, together as together_of, with_id as edit_with_id};
ghost use Rattle.sf_together.specs.Outcomes.{IsCarriedOut, IsRefusedAs, IsStepRefused, refused_as};

use super::outcome::Refusal;
use sf_edits::carry_out;
use sf_groups::Member;
use sf_layers::Store;
use sf_steps::{Answer, Edit};
use std::alloc::{AllocError, Global};

/// Carries members out, each in what those before it have left, and gives the identifiers that they gave. Where one is
/// refused, the store is left as those before it have made it.
///
/// # Errors
///
/// The first member that is refused, or out of memory.
pub(crate) fn carry_out_all(
    alloc: Global,
    scratch: &mut Store,
    members: Vec<Member>,
) -> Result<Vec<u32>, Refusal>
    ensures carried { IfOk result (λ ids.
        together_of scratch.old members.items ≡ Ok (scratch.new, ids.items)) }
    ensures refused { IfErr result (IsRefusedAs scratch.old members.items) }
{
    let mut ids = Vec::new(alloc);
    let mut number = 0;
    for member in members {
        number += 1;
        carry_out_one(alloc, scratch, number, member, &mut ids)?;
    }
    Ok(ids)
}

/// Carries one member out, and puts the identifier that it gave behind the others.
///
/// # Errors
///
/// That the member of this number is refused, or out of memory.
fn carry_out_one(
    alloc: Global,
    scratch: &mut Store,
    number: usize,
    member: Member,
    ids: &mut Vec<u32>,
) -> Result<(), Refusal>
    ensures carried { OnOk result
        (IsCarriedOut scratch.old member scratch.new ids.old.items ids.new.items) }
    ensures refused { IfErr result
        (IsStepRefused number (step scratch.old (resolved scratch.old member))) }
{
    let edit = resolve(scratch, member);
    match carry_out(alloc, scratch, edit) {
        Ok(inverse) => {
            push_id(ids, inverse.answer())?;
            Ok(())
        }
        Err((_, refusal)) => Err(refused(number, refusal)),
    }
}

/// Why a group is refused whose member of this number is refused so.
fn refused(number: usize, refusal: sf_steps::Refusal) -> Refusal
    ensures { result ≡ refused_as number refusal }
{
    match refusal {
        sf_steps::Refusal::Memory => Refusal::Memory,
        refusal => Refusal::Member { number, refusal },
    }
}

/// Puts the identifier that an edit gave behind the others, where it gave one.
///
/// # Errors
///
/// Out of memory.
fn push_id(ids: &mut Vec<u32>, answer: Answer) -> Result<(), AllocError>
    ensures { OnOk result (ids.new.items ≡ ids.old.items ++ ids_given answer) }
{
    match answer {
        Answer::Id(id) => {
            ids.push(id)?;
            Ok(())
        }
        Answer::Done => Ok(()),
    }
}

/// The edit of a member: one that is of the last feature is of the one that its layer was given last.
fn resolve(scratch: &Store, member: Member) -> Edit
    ensures { result ≡ resolved scratch.now member }
{
    if member.of_last {
        let id = last_id(scratch, member.edit.layer_name().as_str());
        return with_id(member.edit, id);
    }
    member.edit
}

/// The identifier that the layer of a name gave last, which is the one below its next one.
fn last_id(scratch: &Store, name: &str) -> u32
    ensures { result ≡ next_id_of scratch.now name.now - 1 }
{
    match scratch.layer(name) {
        Some(layer) => layer.next_id().saturating_sub(1),
        None => 0,
    }
}

/// The edit with another identifier; one that names no feature stays as it is.
fn with_id(edit: Edit, id: u32) -> Edit
    ensures { result ≡ edit_with_id id edit }
{
    match edit {
        Edit::DeleteFeature { layer, .. } => Edit::DeleteFeature { layer, id },
        Edit::ReplaceGeometry {
            layer,
            geometry,
            ..
        } => Edit::ReplaceGeometry {
            layer,
            id,
            geometry,
        },
        Edit::InsertVertex {
            layer,
            part,
            ring,
            index,
            point,
            ..
        } => Edit::InsertVertex {
            layer,
            id,
            part,
            ring,
            index,
            point,
        },
        Edit::MoveVertex {
            layer,
            part,
            ring,
            index,
            point,
            ..
        } => Edit::MoveVertex {
            layer,
            id,
            part,
            ring,
            index,
            point,
        },
        Edit::RemoveVertex {
            layer,
            part,
            ring,
            index,
            ..
        } => Edit::RemoveVertex {
            layer,
            id,
            part,
            ring,
            index,
        },
        Edit::SetValue {
            layer,
            column,
            value,
            ..
        } => Edit::SetValue {
            layer,
            id,
            column,
            value,
        },
        Edit::ClearValue { layer, column, .. } => Edit::ClearValue { layer, id, column },
        edit => edit,
    }
}
