//! Slots exchanged with a store, all or none.
ghost use Rattle.std.specs.Prelude.{◌≡◌, ◌<◌, false, None, IsOk, IsTrue, OnErr, OnOk, is_some, length};
ghost use Rattle.sf_layers.specs.Content.{change_at, feature_at};
ghost use Rattle.sf_layers.specs.WellFormed.{IsWellFormed};
ghost use Rattle.sf_patches.specs.Patches.{NoneGrows, next_id_at, before, befores, grows, patched, put_state, undoing, with_slot};
ghost use Rattle.sf_patches.specs.Fits.{FitsPatch, IsAt, StayFine};

use super::slot::Slot;
use sf_layers::{Feature, Store};
use std::alloc::{AllocError, Global};

/// Exchanges what the slots hold with what the store has there, in order. The slots then hold what was there, the last
/// one first.
///
/// # Errors
///
/// Where no memory is found for a feature that is put where none was, all is as it was.
pub(crate) fn exchange_all(
    alloc: Global,
    store: &mut Store,
    slots: &mut Vec<Slot>,
) -> Result<(), AllocError>
    requires { FitsPatch store.old slots.old.items }
    ensures exchanged { OnOk result (store.new ≡ patched store.old slots.old.items) }
    ensures back { OnOk result (slots.new.items ≡ undoing store.old slots.old.items) }
    ensures unchanged { OnErr result (store.new ≡ store.old) }
    ensures kept { OnErr result (slots.new.items ≡ slots.old.items) }
    ensures always { NoneGrows store.old slots.old.items → IsOk result }
{
    if exchange_in_place(alloc, store, slots) {
        slots.as_mut_slice().reverse();
        return Ok(());
    }
    Err(AllocError)
}

/// Exchanges slot by slot, and answers whether all were exchanged. Where no memory is found for one, those before it
/// are taken back, the last one first: each of these removes a feature, puts one in the place of another or sets a
/// counter, for which no memory is needed.
fn exchange_in_place(alloc: Global, store: &mut Store, slots: &mut Vec<Slot>) -> bool
    requires { FitsPatch store.old slots.old.items }
    ensures exchanged { IsTrue result → store.new ≡ patched store.old slots.old.items }
    ensures back { IsTrue result → slots.new.items ≡ befores store.old slots.old.items }
    ensures unchanged { result ≡ false → store.new ≡ store.old }
    ensures kept { result ≡ false → slots.new.items ≡ slots.old.items }
    ensures always { NoneGrows store.old slots.old.items → IsTrue result }
{
    let count = slots.len();
    let mut done = 0;
    let mut has_room = true;
    while has_room && done < count {
        if swap(alloc, store, &mut slots[done]).is_ok() {
            done += 1;
        } else {
            has_room = false;
        }
    }
    if has_room {
        return true;
    }
    while done > 0 {
        done -= 1;
        swap(alloc, store, &mut slots[done]).unwrap();
    }
    false
}

/// Exchanges one slot.
///
/// # Errors
///
/// Where no memory is found, nothing is changed. That comes only where a feature is put where none was.
fn swap(alloc: Global, store: &mut Store, slot: &mut Slot) -> Result<(), AllocError>
    requires there { IsAt store.old slot.old }
    requires fits { IsWellFormed (with_slot slot.old store.old) }
    ensures exchanged { OnOk result (store.new ≡ with_slot slot.old store.old) }
    ensures back { OnOk result (slot.new ≡ before store.old slot.old) }
    ensures unchanged { OnErr result (store.new ≡ store.old) }
    ensures kept { OnErr result (slot.new ≡ slot.old) }
    ensures grew { OnErr result (IsTrue (grows store.old slot.old)) }
{
    match slot {
        Slot::Counter { place, next_id } => {
            let old = next_id_there(store, *place);
            store.set_next_id(*place, *next_id);
            *next_id = old;
            Ok(())
        }
        Slot::State { place, id, state } => swap_state(alloc, store, *place, *id, state),
    }
}

/// The next identifier of the layer at a place.
fn next_id_there(store: &Store, place: usize) -> u32
    requires { place < length store.now }
    ensures { result ≡ next_id_at store.now place }
{
    let (_, layer) = store.layer_at(place).unwrap();
    layer.next_id()
}

/// Whether a feature stands under an identifier of the layer at a place.
fn has_feature(store: &Store, place: usize, id: u32) -> bool
    requires { place < length store.now }
    ensures { result ≡ is_some (feature_at store.now place id) }
{
    let (_, layer) = store.layer_at(place).unwrap();
    layer.feature(id).is_some()
}

/// Exchanges what stands under an identifier of the layer at a place.
///
/// # Errors
///
/// Where no memory is found for a feature that is put where none was, nothing is changed.
fn swap_state(
    alloc: Global,
    store: &mut Store,
    place: usize,
    id: u32,
    state: &mut Option<Feature>,
) -> Result<(), AllocError>
    requires there { place < length store.old }
    requires fits { IsWellFormed (change_at place (put_state id state.old) store.old) }
    ensures exchanged { OnOk result (store.new ≡ change_at place (put_state id state.old) store.old) }
    ensures back { OnOk result (state.new ≡ feature_at store.old place id) }
    ensures unchanged { OnErr result (store.new ≡ store.old) }
    ensures kept { OnErr result (state.new ≡ state.old) }
    ensures grew { OnErr result (IsTrue (is_some state.old)) }
    ensures free { OnErr result (feature_at store.old place id ≡ None) }
{
    let is_there = has_feature(store, place, id);
    match state.take() {
        None => {
            if is_there {
                *state = Some(store.take_feature(alloc, place, id));
            }
            Ok(())
        }
        Some(feature) if is_there => {
            *state = Some(store.exchange_feature(alloc, place, id, feature));
            Ok(())
        }
        Some(feature) => match store.put_feature(alloc, place, id, feature) {
            Ok(()) => Ok(()),
            Err(feature) => {
                *state = Some(feature);
                Err(AllocError)
            }
        },
    }
}
