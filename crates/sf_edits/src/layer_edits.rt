//! The edits of whole layers, and what takes them back.
ghost use Rattle.std.specs.Prelude.{◌≡◌, None, Some, length, IfErr, IfOk, OnOk};
ghost use Rattle.sf_layers.specs.Content.{place_of};
ghost use Rattle.sf_layers.specs.WellFormed.{IsWellFormed};
ghost use Rattle.sf_layers.specs.declared.layer_kind.LayerKind.{LayerKind as Kind};
ghost use Rattle.sf_steps.specs.Steps.{checks, first_refusal};
ghost use Rattle.sf_steps.specs.Inverses.{Carries, Fits, Reverts, RevertsOrKeeps};

use sf_layers::{BoxedLayer, LAYERS_MAX, Layer, LayerKind, Store, Text, is_name};
use sf_steps::{Edit, Inverse, Refusal};
use std::alloc::Global;

// The place of a new layer, of whatever kind, or the first check of adding it that fails.
fn place_for_layer(store: &Store, name: &str) -> Result<usize, Refusal>
    ensures place { IfOk result (λ place. place ≡ length store.now) }
    ensures passed { OnOk result ((kind : Kind) →
        first_refusal (checks store.now (Edit.AddLayer name.now kind)) ≡ None) }
    ensures refused { IfErr result (λ refusal. (kind : Kind) →
        first_refusal (checks store.now (Edit.AddLayer name.now kind)) ≡ Some refusal) }
    ensures well_formed { IsWellFormed store.now }
{
    let last = store.layer_count();
    if !is_name(name) {
        Err(Refusal::BadName)
    } else if store.place(name).is_some() {
        Err(Refusal::LayerExists)
    } else if last >= LAYERS_MAX {
        Err(Refusal::IdsExhausted)
    } else {
        Ok(last)
    }
}

/// Puts an empty layer last.
pub(crate) fn add_layer(
    alloc: Global,
    store: &mut Store,
    name: Text,
    kind: LayerKind,
) -> Result<Inverse, (Edit, Refusal)>
    ensures { Carries store.old (Edit.AddLayer name kind) result store.new }
{
    let place = match place_for_layer(store, name.as_str()) {
        Ok(place) => place,
        Err(refusal) => return Err((Edit::AddLayer { name, kind }, refusal)),
    };
    match store.put_layer(alloc, place, name, Layer::new(alloc, kind)) {
        Ok(()) => Ok(Inverse::TakeLayer),
        Err((name, _)) => Err((Edit::AddLayer { name, kind }, Refusal::Memory)),
    }
}

/// Takes the last layer off.
pub(crate) fn undo_add_layer(store: &mut Store) -> Edit
    requires { Fits store.old Inverse.TakeLayer }
    ensures { Reverts store.old Inverse.TakeLayer result store.new }
{
    let last = store.layer_count() - 1;
    let (name, layer) = store.take_layer(last);
    Edit::AddLayer {
        name,
        kind: layer.kind(),
    }
}

/// Removes a layer, with all that it has.
pub(crate) fn drop_layer(
    alloc: Global,
    store: &mut Store,
    name: Text,
) -> Result<Inverse, (Edit, Refusal)>
    ensures { Carries store.old (Edit.DropLayer name) result store.new }
{
    let Some(place) = store.place(name.as_str()) else {
        return Err((Edit::DropLayer { name }, Refusal::NoLayer));
    };
    // Room for the layer comes first: nothing fails after it.
    let Ok(mut layer) = BoxedLayer::new(alloc) else {
        return Err((Edit::DropLayer { name }, Refusal::Memory));
    };
    let (stored, taken) = store.take_layer(place);
    let _ = layer.replace(taken);
    Ok(Inverse::PutLayer {
        name,
        place,
        stored,
        layer,
    })
}

/// Puts a layer back at its place.
pub(crate) fn undo_drop_layer(
    alloc: Global,
    store: &mut Store,
    name: Text,
    place: usize,
    stored: Text,
    mut layer: BoxedLayer,
) -> Result<Edit, Inverse>
    requires { Fits store.old (Inverse.PutLayer name place stored layer) }
    ensures { RevertsOrKeeps store.old (Inverse.PutLayer name place stored layer) result store.new }
{
    let dropped = layer.replace(Layer::new(alloc, LayerKind::Any));
    match store.put_layer(alloc, place, stored, dropped) {
        Ok(()) => Ok(Edit::DropLayer { name }),
        Err((stored, dropped)) => {
            let _ = layer.replace(dropped);
            Err(Inverse::PutLayer {
                name,
                place,
                stored,
                layer,
            })
        }
    }
}

// The place of the layer to be renamed, or the first check of it that fails.
fn place_for_name(store: &Store, name: &str, new_name: &str) -> Result<usize, Refusal>
    ensures place { IfOk result (λ place. place ≡ place_of store.now name.now) }
    ensures passed { OnOk result
        (first_refusal (checks store.now (Edit.RenameLayer name.now new_name.now)) ≡ None) }
    ensures refused { IfErr result (λ refusal.
        first_refusal (checks store.now (Edit.RenameLayer name.now new_name.now)) ≡ Some refusal) }
    ensures well_formed { IsWellFormed store.now }
{
    let place = store.place(name).ok_or(Refusal::NoLayer)?;
    if !is_name(new_name) {
        Err(Refusal::BadName)
    } else if store.place(new_name).is_some() {
        Err(Refusal::LayerExists)
    } else {
        Ok(place)
    }
}

/// Gives a layer another name, in its place.
pub(crate) fn rename_layer(
    alloc: Global,
    store: &mut Store,
    name: Text,
    new_name: Text,
) -> Result<Inverse, (Edit, Refusal)>
    ensures { Carries store.old (Edit.RenameLayer name new_name) result store.new }
{
    let place = match place_for_name(store, name.as_str(), new_name.as_str()) {
        Ok(place) => place,
        Err(refusal) => return Err((Edit::RenameLayer { name, new_name }, refusal)),
    };
    match store.rename_layer(alloc, place, new_name) {
        Ok(stored) => Ok(Inverse::RenameLayer {
            name,
            place,
            stored,
        }),
        Err(new_name) => Err((Edit::RenameLayer { name, new_name }, Refusal::Memory)),
    }
}

/// Gives the layer at a place its old name back.
pub(crate) fn undo_rename_layer(
    alloc: Global,
    store: &mut Store,
    name: Text,
    place: usize,
    stored: Text,
) -> Result<Edit, Inverse>
    requires { Fits store.old (Inverse.RenameLayer name place stored) }
    ensures { RevertsOrKeeps store.old (Inverse.RenameLayer name place stored) result store.new }
{
    match store.rename_layer(alloc, place, stored) {
        Ok(new_name) => Ok(Edit::RenameLayer { name, new_name }),
        Err(stored) => Err(Inverse::RenameLayer {
            name,
            place,
            stored,
        }),
    }
}

/// Moves a layer so that it stands at a place of the order.
pub(crate) fn move_layer(
    store: &mut Store,
    name: Text,
    place: u32,
) -> Result<Inverse, (Edit, Refusal)>
    ensures { Carries store.old (Edit.MoveLayer name place) result store.new }
{
    let Some(from) = store.place(name.as_str()) else {
        return Err((Edit::MoveLayer { name, place }, Refusal::NoLayer));
    };
    let to = place as usize;
    if to >= store.layer_count() {
        return Err((Edit::MoveLayer { name, place }, Refusal::BadPlace));
    }
    store.move_layer(from, to);
    Ok(Inverse::MoveLayer { name, place: from })
}

/// Moves a layer back to its old place.
pub(crate) fn undo_move_layer(store: &mut Store, name: Text, place: usize) -> Edit
    requires { Fits store.old (Inverse.MoveLayer name place) }
    ensures { Reverts store.old (Inverse.MoveLayer name place) result store.new }
{
    let from = store.place(name.as_str()).unwrap();
    store.move_layer(from, place);
    Edit::MoveLayer {
        name,
        place: from as u32,
    }
}
