//! The edits of whole features, and what takes them back.
ghost use Rattle.std.specs.Prelude.{◌≡◌, ◌∷◌, [], None, Some, IfErr, IfOk, IsSome, IsSomeAnd, IsTrue, OnOk, nat_lt, option_map, slice_get};
ghost use Rattle.sf_geometry.specs.Kinds.{kind_of};
ghost use Rattle.sf_layers.specs.Content.{admits, feature_at, has_layer, layer_at, place_of};
ghost use Rattle.sf_layers.specs.WellFormed.{IsWellFormed, id_end};
ghost use Rattle.sf_steps.specs.Steps.{early_checks, first_refusal, size_check, unless};
ghost use Rattle.sf_steps.specs.Inverses.{Carries, Fits, Reverts, RevertsOrKeeps};

use super::places::{feature_place, layer_there};
use super::reverted::Reverted;
use sf_geometry::Geometry;
use sf_layers::{Feature, ID_END, Layer, Store, Text};
use sf_steps::{Edit, Inverse, Refusal};
use sf_validity::{Invalid, Valid, validate};
use std::alloc::Global;

// The first check of kind and size that fails of a geometry for a layer that is there.
fn entry_fault(layer: &Layer, geometry: &Geometry) -> Option<Refusal>
    ensures { result ≡ first_refusal (
        unless (admits layer.now.kind (kind_of geometry.now)) Refusal.WrongKind
        ∷ size_check geometry.now ∷ []) }
{
    if !layer.kind().admits(geometry.kind()) {
        return Some(Refusal::WrongKind);
    }
    match geometry.check_size() {
        Ok(()) => None,
        Err(refusal) => Some(sf_validity::Refusal::from(refusal).into()),
    }
}

// The place of the layer that a feature may be added to, or the first check of that, of its kind and
// of its size that fails.
fn place_for_feature(store: &Store, name: &str, geometry: &Geometry) -> Result<usize, Refusal>
    ensures place { IfOk result (λ place. place ≡ place_of store.now name.now) }
    ensures there { OnOk result (IsTrue (has_layer store.now name.now)) }
    ensures passed { OnOk result
        (first_refusal (early_checks store.now (Edit.AddFeature name.now geometry.now)) ≡ None) }
    ensures refused { IfErr result (λ refusal.
        first_refusal (early_checks store.now (Edit.AddFeature name.now geometry.now))
        ≡ Some refusal) }
    ensures well_formed { IsWellFormed store.now }
{
    let Some(place) = store.place(name) else {
        return Err(Refusal::NoLayer);
    };
    match entry_fault(layer_there(store, place), geometry) {
        Some(refusal) => Err(refusal),
        None => Ok(place),
    }
}

// Whether the layer at a place has an identifier that is free.
fn has_free_id(store: &Store, place: usize) -> bool
    requires { IsSome (slice_get store.now place) }
    ensures { IsSomeAnd (layer_at store.now place) (λ layer. result ≡ nat_lt layer.next_id id_end) }
{
    layer_there(store, place).next_id() < ID_END
}

/// Puts a feature under the next identifier of its layer, once its geometry is found valid.
pub(crate) fn add_feature(
    alloc: Global,
    store: &mut Store,
    layer: Text,
    geometry: Geometry,
) -> Result<Inverse, (Edit, Refusal)>
    ensures { Carries store.old (Edit.AddFeature layer geometry) result store.new }
{
    let place = match place_for_feature(store, layer.as_str(), &geometry) {
        Ok(place) => place,
        Err(refusal) => return Err((Edit::AddFeature { layer, geometry }, refusal)),
    };
    let valid = match validate(alloc, geometry) {
        Ok(valid) => valid,
        Err(Invalid { refusal, geometry }) => {
            return Err((Edit::AddFeature { layer, geometry }, refusal.into()));
        }
    };
    if !has_free_id(store, place) {
        let geometry = valid.into_geometry();
        return Err((Edit::AddFeature { layer, geometry }, Refusal::IdsExhausted));
    }
    match store.push_feature(alloc, place, Feature::new(alloc, valid)) {
        Ok(id) => Ok(Inverse::TakeFeature { layer, id }),
        Err(feature) => {
            let geometry = feature.into_valid().into_geometry();
            Err((Edit::AddFeature { layer, geometry }, Refusal::Memory))
        }
    }
}

/// Takes a feature off and its layer's counter back. Its geometry stays known as valid.
pub(crate) fn undo_add_feature(alloc: Global, store: &mut Store, layer: Text, id: u32) -> Reverted
    requires { Fits store.old (Inverse.TakeFeature layer id) }
    ensures { Reverts store.old (Inverse.TakeFeature layer id) result store.new }
{
    let place = store.place(layer.as_str()).unwrap();
    let feature = store.pop_feature(alloc, place, id);
    Reverted::add_feature(layer, feature.into_valid())
}

/// Removes a feature. Its identifier is not given again.
pub(crate) fn delete_feature(
    alloc: Global,
    store: &mut Store,
    layer: Text,
    id: u32,
) -> Result<Inverse, (Edit, Refusal)>
    ensures { Carries store.old (Edit.DeleteFeature layer id) result store.new }
{
    let place = match feature_place(store, layer.as_str(), id) {
        Ok(place) => place,
        Err(refusal) => return Err((Edit::DeleteFeature { layer, id }, refusal)),
    };
    let feature = store.take_feature(alloc, place, id);
    Ok(Inverse::PutFeature { layer, id, feature })
}

/// Puts a feature back.
pub(crate) fn undo_delete_feature(
    alloc: Global,
    store: &mut Store,
    layer: Text,
    id: u32,
    feature: Feature,
) -> Result<Edit, Inverse>
    requires { Fits store.old (Inverse.PutFeature layer id feature) }
    ensures { RevertsOrKeeps store.old (Inverse.PutFeature layer id feature) result store.new }
{
    let place = store.place(layer.as_str()).unwrap();
    match store.put_feature(alloc, place, id, feature) {
        Ok(()) => Ok(Edit::DeleteFeature { layer, id }),
        Err(feature) => Err(Inverse::PutFeature { layer, id, feature }),
    }
}

// The place of the layer whose feature may be given another geometry, or the first check of that, of
// its kind and of its size that fails.
fn place_for_geometry(
    store: &Store,
    name: &str,
    id: u32,
    geometry: &Geometry,
) -> Result<usize, Refusal>
    ensures place { IfOk result (λ place. place ≡ place_of store.now name.now) }
    ensures there { IfOk result (λ place. IsSome (feature_at store.now place id)) }
    ensures passed { OnOk result (first_refusal
        (early_checks store.now (Edit.ReplaceGeometry name.now id geometry.now)) ≡ None) }
    ensures refused { IfErr result (λ refusal. first_refusal
        (early_checks store.now (Edit.ReplaceGeometry name.now id geometry.now)) ≡ Some refusal) }
    ensures well_formed { IsWellFormed store.now }
{
    let place = feature_place(store, name, id)?;
    match entry_fault(layer_there(store, place), geometry) {
        Some(refusal) => Err(refusal),
        None => Ok(place),
    }
}

/// Puts another geometry in the place of a feature's, once it is found valid; the values stay.
pub(crate) fn replace_geometry(
    alloc: Global,
    store: &mut Store,
    layer: Text,
    id: u32,
    geometry: Geometry,
) -> Result<Inverse, (Edit, Refusal)>
    ensures { Carries store.old (Edit.ReplaceGeometry layer id geometry) result store.new }
{
    let place = match place_for_geometry(store, layer.as_str(), id, &geometry) {
        Ok(place) => place,
        Err(refusal) => {
            let edit = Edit::ReplaceGeometry {
                layer,
                id,
                geometry,
            };
            return Err((edit, refusal));
        }
    };
    match validate(alloc, geometry) {
        Ok(valid) => {
            let old = store.exchange_geometry(alloc, place, id, valid);
            Ok(Inverse::PutGeometry { layer, id, old })
        }
        Err(Invalid { refusal, geometry }) => {
            let edit = Edit::ReplaceGeometry {
                layer,
                id,
                geometry,
            };
            Err((edit, refusal.into()))
        }
    }
}

/// Puts a feature's old geometry back. The other one stays known as valid.
pub(crate) fn undo_replace_geometry(
    alloc: Global,
    store: &mut Store,
    layer: Text,
    id: u32,
    old: Valid,
) -> Reverted
    requires { Fits store.old (Inverse.PutGeometry layer id old) }
    ensures { Reverts store.old (Inverse.PutGeometry layer id old) result store.new }
{
    let place = store.place(layer.as_str()).unwrap();
    let valid = store.exchange_geometry(alloc, place, id, old);
    Reverted::replace_geometry(layer, id, valid)
}
