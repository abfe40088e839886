//! A scratch store: what the members of a group look at.
ghost use Rattle.std.specs.Prelude.{◌≡◌, IfOk, IsSomeAnd, OnOk, Some, is_some, option_copied};
ghost use Rattle.sf_layers.specs.Content.{feature_in, feature_of, layer_of};
ghost use Rattle.sf_layers.specs.WellFormed.{IsLayer, IsWellFormed};
ghost use Rattle.sf_groups.specs.Groups.{content_weight, together_touched};
ghost use Rattle.sf_groups.specs.Local.{edit_id as id_of_edit};
ghost use Rattle.sf_together.specs.Copies.{HasHeadOf, IsPart, IsScratchOf, named_feature, with_copy, with_head, with_shown};

use sf_groups::Member;
use sf_layers::{Feature, Layer, Store, Text};
use sf_steps::Edit;
use std::alloc::{AllocError, Global};

/// A store with what members look at: the layers that they name, without other features, and copies of the features that
/// they name.
///
/// # Errors
///
/// Out of memory.
pub(crate) fn scratch_for(
    alloc: Global,
    store: &Store,
    members: &[Member],
) -> Result<Store, AllocError>
    ensures copied { IfOk result (λ scratch. IsScratchOf store.now members.now scratch) }
    ensures weight { IfOk result (λ scratch.
        content_weight scratch ≡ together_touched store.now members.now) }
{
    is_well_formed(store);
    let mut scratch = Store::new(alloc);
    for member in members {
        is_well_formed(&scratch);
        show(alloc, store, member, &mut scratch)?;
    }
    Ok(scratch)
}

/// Shows a proof that a store is well formed. It does nothing, so a compiler may leave it out.
pub(crate) fn is_well_formed(store: &Store)
    ensures { IsWellFormed store.now }
{
    store.layer_count();
}

/// Puts what a member looks at into the scratch store, where it is not there yet.
fn show(
    alloc: Global,
    store: &Store,
    member: &Member,
    scratch: &mut Store,
) -> Result<(), AllocError>
    requires { IsPart store.now scratch.old }
    ensures { OnOk result (scratch.new ≡ with_shown store.now member.now scratch.old) }
{
    let name = member.edit.layer_name();
    let Some(layer) = store.layer(name.as_str()) else {
        return Ok(());
    };
    show_head(alloc, store, name, layer, scratch)?;
    let Some(feature) = feature_named(layer, member) else {
        return Ok(());
    };
    show_feature(
        alloc,
        name.as_str(),
        layer,
        edit_id(&member.edit),
        feature,
        scratch,
    )
}

/// Puts the head of a layer last into the scratch store, where no layer there has its name.
fn show_head(
    alloc: Global,
    store: &Store,
    name: &Text,
    layer: &Layer,
    scratch: &mut Store,
) -> Result<(), AllocError>
    requires of_name { layer_of store.now name.now ≡ Some layer.now }
    requires fine { IsWellFormed store.now }
    requires part { IsPart store.now scratch.old }
    ensures { OnOk result (scratch.new ≡ with_head name.now layer.now scratch.old) }
{
    if scratch.place(name.as_str()).is_some() {
        return Ok(());
    }
    let last = scratch.layer_count();
    let copy = name.copy(alloc)?;
    let head = layer.head(alloc)?;
    let Ok(()) = scratch.put_layer(alloc, last, copy, head) else {
        return Err(AllocError);
    };
    Ok(())
}

/// Copies a feature of a layer into the scratch store's layer of the same name, where none is there under its identifier.
fn show_feature(
    alloc: Global,
    name: &str,
    layer: &Layer,
    id: u32,
    feature: &Feature,
    scratch: &mut Store,
) -> Result<(), AllocError>
    requires of_id { feature_of layer.now id ≡ Some feature.now }
    requires fine { IsLayer layer.now }
    requires head { IsSomeAnd (layer_of scratch.old name.now) (λ there. HasHeadOf layer.now there) }
    ensures { OnOk result (scratch.new ≡ with_copy name.now id feature.now scratch.old) }
{
    if has_feature(scratch, name, id) {
        return Ok(());
    }
    let copy = feature.copy(alloc)?;
    let part = scratch.place(name).unwrap();
    let Ok(()) = scratch.put_feature(alloc, part, id, copy) else {
        return Err(AllocError);
    };
    Ok(())
}

/// Whether the layer of a name has a feature under an identifier.
pub(crate) fn has_feature(scratch: &Store, name: &str, id: u32) -> bool
    ensures { result ≡ is_some (feature_in scratch.now name.now id) }
{
    match scratch.layer(name) {
        Some(layer) => layer.feature(id).is_some(),
        None => false,
    }
}

/// The feature of a layer that a member of this layer names, where it names one that is there.
fn feature_named<'a>(layer: &'a Layer, member: &Member) -> Option<&'a Feature>
    ensures { option_copied result ≡ named_feature layer.now member.now }
{
    if member.of_last {
        return None;
    }
    layer.feature(edit_id(&member.edit))
}

/// The identifier of the feature that an edit names; an addition names none, and 0 is no feature's.
fn edit_id(edit: &Edit) -> u32
    ensures { result ≡ id_of_edit edit.now }
{
    match edit {
        Edit::DeleteFeature { id, .. }
        | Edit::ReplaceGeometry { id, .. }
        | Edit::InsertVertex { id, .. }
        | Edit::MoveVertex { id, .. }
        | Edit::RemoveVertex { id, .. }
        | Edit::SetValue { id, .. }
        | Edit::ClearValue { id, .. } => *id,
        Edit::AddLayer { .. }
        | Edit::DropLayer { .. }
        | Edit::RenameLayer { .. }
        | Edit::MoveLayer { .. }
        | Edit::AddColumn { .. }
        | Edit::DropColumn { .. }
        | Edit::AddFeature { .. } => 0,
    }
}
