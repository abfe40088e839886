//! Which features of a store are no more in a scratch store.
ghost use Rattle.std.specs.Prelude.{◌≡◌, ◌++◌, IfOk, OnOk, map};
ghost use Rattle.sf_together.specs.Exchanges.{AllThere, has_key, key_at, keys_in, removals_of};

use super::scratch::has_feature;
use sf_layers::{Layer, Store};
use sf_patches::Slot;
use std::alloc::{AllocError, Global};

/// Which feature: the place of its layer in the store, and its identifier.
#[derive(Clone, Copy)]
pub(crate) struct Key {
    pub(crate) place: usize,
    pub(crate) id: u32,
}

/// Which features the scratch store has.
///
/// # Errors
///
/// Out of memory.
pub(crate) fn keys_of(alloc: Global, store: &Store, scratch: &Store) -> Result<Vec<Key>, AllocError>
    requires { AllThere store.now scratch.now }
    ensures { IfOk result (λ keys. keys.items ≡ keys_in store.now scratch.now) }
{
    let mut keys = Vec::new(alloc);
    for part in 0..scratch.layer_count() {
        let (name, layer) = scratch.layer_at(part).unwrap();
        let place = store.place(name).unwrap();
        push_keys(&mut keys, place, layer)?;
    }
    Ok(keys)
}

// Which features a layer has, that stands at a place of the store.
fn push_keys(keys: &mut Vec<Key>, place: usize, layer: &Layer) -> Result<(), AllocError>
    ensures { OnOk result (keys.new.items ≡ keys.old.items ++ map (key_at place) layer.now.features) }
{
    for (id, _) in layer.features() {
        keys.push(Key { place, id: *id })?;
    }
    Ok(())
}

/// The exchanges that remove these features, but those that the scratch store has.
///
/// # Errors
///
/// Out of memory.
pub(crate) fn removals(
    alloc: Global,
    store: &Store,
    scratch: &Store,
    keys: &[Key],
) -> Result<Vec<Slot>, AllocError>
    ensures { IfOk result (λ slots. slots.items ≡ removals_of store.now scratch.now keys.now) }
{
    let mut slots = Vec::new(alloc);
    for key in keys {
        if !is_left(store, scratch, *key) {
            slots.push(Slot::State {
                place: key.place,
                id: key.id,
                state: None,
            })?;
        }
    }
    Ok(slots)
}

// Whether the scratch store has a feature of the store.
fn is_left(store: &Store, scratch: &Store, key: Key) -> bool
    ensures { result ≡ has_key store.now scratch.now key }
{
    match store.layer_at(key.place) {
        Some((name, _)) => has_feature(scratch, name, key.id),
        None => false,
    }
}
