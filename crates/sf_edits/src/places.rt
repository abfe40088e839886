//! Where layers, features and columns stand, or why there are none.
ghost use Rattle.std.specs.Prelude.{◌≡◌, ◌∷◌, [], None, Some, IfErr, IfOk, IsSome, IsSomeAnd, OnOk, slice_get};
ghost use Rattle.sf_layers.specs.Content.{feature_at, layer_at, place_of};
ghost use Rattle.sf_layers.specs.WellFormed.{IsWellFormed};
ghost use Rattle.sf_steps.specs.Steps.{column_in, feature_checks, first_refusal, value_checks};

use sf_layers::{ColumnType, Layer, Store};
use sf_steps::Refusal;

/// The layer at a place.
pub(crate) fn layer_there(store: &Store, place: usize) -> &Layer
    requires { IsSome (slice_get store.now place) }
    ensures { layer_at store.now place ≡ Some result.now }
{
    let (_, layer) = store.layer_at(place).unwrap();
    layer
}

/// The place of the layer that has the feature.
pub(crate) fn feature_place(store: &Store, name: &str, id: u32) -> Result<usize, Refusal>
    ensures place { IfOk result (λ place. place ≡ place_of store.now name.now) }
    ensures there { IfOk result (λ place. IsSome (feature_at store.now place id)) }
    ensures passed { OnOk result (first_refusal (feature_checks store.now name.now id) ≡ None) }
    ensures refused { IfErr result (λ refusal.
        first_refusal (feature_checks store.now name.now id) ≡ Some refusal) }
    ensures well_formed { IsWellFormed store.now }
{
    let Some(place) = store.place(name) else {
        return Err(Refusal::NoLayer);
    };
    match layer_there(store, place).feature(id) {
        Some(_) => Ok(place),
        None => Err(Refusal::NoFeature),
    }
}

/// Where a value of a feature stands: the place of its layer, the number and the type of its column.
#[derive(Clone, Copy)]
pub(crate) struct ValuePlace {
    pub(crate) place: usize,
    pub(crate) number: u16,
    pub(crate) column_type: ColumnType,
}

/// Where the value of a feature in the column of a name stands.
pub(crate) fn value_place(
    store: &Store,
    name: &str,
    id: u32,
    column: &str,
) -> Result<ValuePlace, Refusal>
    ensures place { IfOk result (λ at. at.place ≡ place_of store.now name.now) }
    ensures there { IfOk result (λ at. IsSome (feature_at store.now at.place id)) }
    ensures column { IfOk result (λ at. IsSomeAnd (column_in store.now name.now column.now) (λ c.
        (c.number ≡ at.number) × (c.column_type ≡ at.column_type))) }
    ensures passed { OnOk result
        (first_refusal (value_checks store.now name.now id column.now) ≡ None) }
    ensures refused { IfErr result (λ refusal.
        first_refusal (value_checks store.now name.now id column.now) ≡ Some refusal) }
    ensures well_formed { IsWellFormed store.now }
{
    let place = feature_place(store, name, id)?;
    let layer = layer_there(store, place);
    let Some(column_place) = layer.column_place(column) else {
        return Err(Refusal::NoColumn);
    };
    let column = layer.column_at(column_place).unwrap();
    Ok(ValuePlace {
        place,
        number: column.number,
        column_type: column.column_type,
    })
}
