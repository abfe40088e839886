ghost use Rattle.std.specs.Prelude.{◌≡◌, Ok, IfErr, IfOk, IsOk, IsTrue, OnErr};
ghost use Rattle.sf_steps.specs.Inverses.{Carries, Fits, Reverts, frees_only, weight};
ghost use Rattle.sf_steps.specs.Steps.{step};
ghost use Rattle.sf_steps.specs.Weights.{touched};
ghost use Rattle.sf_edits.specs.Reverted.{takes_no_memory};

use super::column_edits::{add_column, drop_column, undo_add_column, undo_drop_column};
use super::feature_edits::{
    add_feature, delete_feature, replace_geometry, undo_add_feature, undo_delete_feature,
    undo_replace_geometry,
};
use super::layer_edits::{
    add_layer, drop_layer, move_layer, rename_layer, undo_add_layer, undo_drop_layer,
    undo_move_layer, undo_rename_layer,
};
use super::redo::carry_out_again;
use super::reverted::{Kept, Reverted};
use super::value_edits::{clear_value, set_value, undo_set_value};
use super::vertex_edits::{
    insert_vertex, move_vertex, remove_vertex, undo_insert_vertex, undo_move_vertex,
    undo_remove_vertex,
};
use sf_layers::Store;
use sf_steps::{Edit, Inverse, Refusal};
use std::alloc::Global;

/// Carries out an edit.
///
/// # Errors
///
/// The edit is given back with the refusal of its first check that fails, in their order, or with
/// `Memory` in the place of success, of a fault of validity, and of identifiers that are used up
/// behind it. The store is then as it was.
pub fn apply(alloc: Global, store: &mut Store, edit: Edit) -> Result<Inverse, (Edit, Refusal)>
    ensures carried_out { Carries store.old edit result store.new }
    ensures weight { IfOk result (λ inverse. weight inverse ≡ touched store.old edit) }
{
    let inverse = carry_out(alloc, store, edit)?;
    let place = place_after_edit(store, &inverse);
    reindex(alloc, store, place);
    Ok(inverse)
}

/// Takes an accepted edit back, and gives the edit that leads there again, with the same answer: `reapply`
/// carries it out.
///
/// # Errors
///
/// Where no memory is found, the inverse is given back and nothing is changed. What only removes
/// or exchanges is never refused so.
pub fn revert(alloc: Global, store: &mut Store, inverse: Inverse) -> Result<Reverted, Inverse>
    requires { Fits store.old inverse }
    ensures reverted { IfOk result (λ edit. Reverts store.old inverse edit store.new) }
    ensures given_back { IfErr result (λ back. back ≡ inverse) }
    ensures unchanged { OnErr result (store.new ≡ store.old) }
    ensures always { IsTrue (frees_only store.old inverse) → IsOk result }
{
    let reverted = take_back(alloc, store, inverse)?;
    let place = place_after_undo(store, &reverted);
    reindex(alloc, store, place);
    Ok(reverted)
}

/// Redoes an edit that was taken back, from a content that accepts it, as the one does that taking it
/// back has led to. No fault of its geometry is searched.
///
/// # Errors
///
/// Where no memory is found, the edit is given back and nothing is changed. Deleting a feature, exchanging its
/// geometry, moving a vertex and removing one are never refused so.
pub fn reapply(alloc: Global, store: &mut Store, reverted: Reverted) -> Result<Inverse, Reverted>
    requires { IsOk (step store.old reverted) }
    ensures carried_out { IfOk result (λ inverse. Carries store.old reverted (Ok inverse) store.new) }
    ensures weight { IfOk result (λ inverse. weight inverse ≡ touched store.old reverted) }
    ensures given_back { IfErr result (λ back. back ≡ reverted) }
    ensures unchanged { OnErr result (store.new ≡ store.old) }
    ensures always { IsTrue (takes_no_memory reverted) → IsOk result }
{
    let inverse = carry_out_again(alloc, store, reverted)?;
    let place = place_after_edit(store, &inverse);
    reindex(alloc, store, place);
    Ok(inverse)
}

// Builds the index of the layer at a place anew where it was lost.
fn reindex(alloc: Global, store: &mut Store, place: Option<usize>)
    ensures { store.new ≡ store.old }
{
    if let Some(place) = place {
        store.reindex(alloc, place);
    }
}

// The place of the layer that an accepted edit named, which may have lost its index. One that is dropped
// has none, and one that is new has its index. An edit of a value loses none, and is spared the search.
fn place_after_edit(store: &Store, inverse: &Inverse) -> Option<usize> {
    match inverse {
        Inverse::RenameLayer { place, .. } => Some(*place),
        Inverse::PutValue { .. } => None,
        _ => store.place(inverse.layer_name()?.as_str()),
    }
}

// The same once the edit is taken back: one that added the layer has left none.
fn place_after_undo(store: &Store, reverted: &Reverted) -> Option<usize> {
    match &reverted.kept {
        Kept::AddFeature { layer, .. } | Kept::ReplaceGeometry { layer, .. } => {
            store.place(layer.as_str())
        }
        Kept::Other(Edit::SetValue { .. } | Edit::ClearValue { .. }) => None,
        Kept::Other(edit) => store.place(edit.layer_name().as_str()),
    }
}

/// Carries out an edit as `apply` does, whatever becomes of indexes: for a store whose layers have none, as one that is
/// soon dropped.
///
/// # Errors
///
/// Those of `apply`.
pub fn carry_out(alloc: Global, store: &mut Store, edit: Edit) -> Result<Inverse, (Edit, Refusal)>
    ensures { Carries store.old edit result store.new }
{
    match edit {
        Edit::AddLayer { name, kind } => add_layer(alloc, store, name, kind),
        Edit::DropLayer { name } => drop_layer(alloc, store, name),
        Edit::RenameLayer { name, new_name } => rename_layer(alloc, store, name, new_name),
        Edit::MoveLayer { name, place } => move_layer(store, name, place),
        Edit::AddColumn {
            layer,
            name,
            column_type,
        } => add_column(alloc, store, layer, name, column_type),
        Edit::DropColumn { layer, name } => drop_column(alloc, store, layer, name),
        Edit::AddFeature { layer, geometry } => add_feature(alloc, store, layer, geometry),
        Edit::DeleteFeature { layer, id } => delete_feature(alloc, store, layer, id),
        Edit::ReplaceGeometry {
            layer,
            id,
            geometry,
        } => replace_geometry(alloc, store, layer, id, geometry),
        Edit::InsertVertex {
            layer,
            id,
            part,
            ring,
            index,
            point,
        } => insert_vertex(alloc, store, layer, id, part, ring, index, point),
        Edit::MoveVertex {
            layer,
            id,
            part,
            ring,
            index,
            point,
        } => move_vertex(alloc, store, layer, id, part, ring, index, point),
        Edit::RemoveVertex {
            layer,
            id,
            part,
            ring,
            index,
        } => remove_vertex(alloc, store, layer, id, part, ring, index),
        Edit::SetValue {
            layer,
            id,
            column,
            value,
        } => set_value(alloc, store, layer, id, column, value),
        Edit::ClearValue { layer, id, column } => clear_value(store, layer, id, column),
    }
}

/// Takes an accepted edit back, whatever becomes of indexes.
fn take_back(alloc: Global, store: &mut Store, inverse: Inverse) -> Result<Reverted, Inverse>
    requires { Fits store.old inverse }
    ensures reverted { IfOk result (λ edit. Reverts store.old inverse edit store.new) }
    ensures given_back { IfErr result (λ back. back ≡ inverse) }
    ensures unchanged { OnErr result (store.new ≡ store.old) }
    ensures always { IsTrue (frees_only store.old inverse) → IsOk result }
{
    match inverse {
        Inverse::TakeLayer => Ok(Reverted::other(undo_add_layer(store))),
        Inverse::PutLayer {
            name,
            place,
            stored,
            layer,
        } => Reverted::other_or(undo_drop_layer(alloc, store, name, place, stored, layer)),
        Inverse::RenameLayer {
            name,
            place,
            stored,
        } => Reverted::other_or(undo_rename_layer(alloc, store, name, place, stored)),
        Inverse::MoveLayer { name, place } => Ok(Reverted::other(undo_move_layer(
            store, name, place,
        ))),
        Inverse::TakeColumn { layer } => Ok(Reverted::other(undo_add_column(store, layer))),
        Inverse::PutColumn {
            layer,
            name,
            place,
            column,
            values,
        } => Reverted::other_or(undo_drop_column(alloc, store, layer, name, place, column, values)),
        Inverse::TakeFeature { layer, id } => Ok(undo_add_feature(alloc, store, layer, id)),
        Inverse::PutFeature { layer, id, feature } => {
            Reverted::other_or(undo_delete_feature(alloc, store, layer, id, feature))
        }
        Inverse::PutGeometry { layer, id, old } => {
            Ok(undo_replace_geometry(alloc, store, layer, id, old))
        }
        Inverse::TakeVertex {
            layer,
            id,
            part,
            ring,
            index,
        } => Ok(Reverted::other(undo_insert_vertex(alloc, store, layer, id, part, ring, index))),
        Inverse::MoveVertex {
            layer,
            id,
            part,
            ring,
            index,
            old,
        } => Ok(Reverted::other(undo_move_vertex(alloc, store, layer, id, part, ring, index, old))),
        Inverse::PutVertex {
            layer,
            id,
            part,
            ring,
            index,
            old,
        } => Reverted::other_or(undo_remove_vertex(
            alloc, store, layer, id, part, ring, index, old,
        )),
        Inverse::PutValue {
            layer,
            id,
            column,
            old,
        } => Reverted::other_or(undo_set_value(alloc, store, layer, id, column, old)),
    }
}
