//! What leads from a store to what a scratch store has.
ghost use Rattle.std.specs.Prelude.{◌≡◌, ◌++◌, ◌∷◌, [], IfNone as OnNone, IfOk, IfSome, OnOk};
ghost use Rattle.sf_together.specs.Exchanges.{AllThere, halves_between, layer_slots, puts};

use super::removals::{Key, removals};
use sf_layers::{Feature, Layer, Store};
use sf_patches::{Halves, Patch, Slot};
use std::alloc::{AllocError, Global};

/// What leads from the store to what the scratch store has: counters and features, layer by layer, and then the removal of
/// each feature that is no more. Features are moved. What needs memory comes first, and a layer's counter before its features.
///
/// # Errors
///
/// Out of memory.
pub(crate) fn halves_to(
    alloc: Global,
    store: &Store,
    scratch: Store,
    keys: &[Key],
) -> Result<Halves, AllocError>
    requires { AllThere store.now scratch }
    ensures { IfOk result (λ halves. halves ≡ halves_between store.now scratch keys.now) }
{
    let removed = removals(alloc, store, &scratch, keys)?;
    let put = put_all(alloc, store, scratch)?;
    let growing = fitted(put);
    let removing = fitted(removed);
    Ok(Halves { growing, removing })
}

// These exchanges as a patch, with no room to spare: it is kept for long.
fn fitted(slots: Vec<Slot>) -> Patch
    ensures { result ≡ slots.items }
{
    let mut slots = slots;
    slots.shrink_to_fit();
    Patch::from_slots(slots)
}

// The exchanges that put what the scratch store has into the layers of the same names.
fn put_all(alloc: Global, store: &Store, scratch: Store) -> Result<Vec<Slot>, AllocError>
    requires { AllThere store.now scratch }
    ensures { IfOk result (λ slots. slots.items ≡ puts store.now scratch) }
{
    let mut scratch = scratch;
    let mut slots = Vec::new(alloc);
    let mut left = scratch.layer_count();
    while left > 0 {
        left -= 1;
        let (name, layer) = scratch.take_layer(left);
        let place = store.place(name.as_str()).unwrap();
        put_layer(alloc, place, layer, &mut slots)?;
    }
    Ok(slots)
}

// The exchanges that put the counter of a layer and its features into the one at a place.
fn put_layer(
    alloc: Global,
    place: usize,
    layer: Layer,
    slots: &mut Vec<Slot>,
) -> Result<(), AllocError>
    ensures { OnOk result (slots.new.items ≡ slots.old.items ++ layer_slots place layer) }
{
    let mut layer = layer;
    slots.push(Slot::Counter {
        place,
        next_id: layer.next_id(),
    })?;
    while let Some((id, feature)) = take_first(alloc, &mut layer) {
        slots.push(Slot::State {
            place,
            id,
            state: Some(feature),
        })?;
    }
    Ok(())
}

// Takes the first feature of a layer out, if it has one.
fn take_first(alloc: Global, layer: &mut Layer) -> Option<(u32, Feature)>
    ensures first { IfSome result (λ first. layer.old.features ≡ first ∷ layer.new.features) }
    ensures none { OnNone result (layer.old.features ≡ []) }
{
    let (id, _) = layer.features().next()?;
    let id = *id;
    Some((id, layer.take_feature(alloc, id)))
}
