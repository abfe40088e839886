//! The edits of columns, and what takes them back.
ghost use Rattle.std.specs.Prelude.{◌≡◌, None, Some, IfErr, IfOk, IsSomeAnd, OnOk};
ghost use Rattle.sf_features.specs.declared.column_type.ColumnType.{ColumnType as TypeOfColumn};
ghost use Rattle.sf_layers.specs.Content.{layer_of, column_place, place_of};
ghost use Rattle.sf_layers.specs.WellFormed.{IsWellFormed};
ghost use Rattle.sf_steps.specs.Steps.{checks, column_checks, column_in, first_refusal};
ghost use Rattle.sf_steps.specs.Inverses.{Carries, Fits, Reverts, RevertsOrKeeps};

use super::places::layer_there;
use sf_layers::{BoxedValues, COLUMN_END, Column, ColumnType, ColumnValues, Store, Text, is_name};
use sf_steps::{Edit, Inverse, Refusal};
use std::alloc::Global;

// The place of the layer that a column, of whatever type, is added to, or the first check of that
// that fails.
fn place_for_column(store: &Store, layer: &str, name: &str) -> Result<usize, Refusal>
    ensures place { IfOk result (λ place. place ≡ place_of store.now layer.now) }
    ensures passed { OnOk result ((column_type : TypeOfColumn) →
        first_refusal (checks store.now (Edit.AddColumn layer.now name.now column_type)) ≡ None) }
    ensures refused { IfErr result (λ refusal. (column_type : TypeOfColumn) →
        first_refusal (checks store.now (Edit.AddColumn layer.now name.now column_type))
        ≡ Some refusal) }
    ensures well_formed { IsWellFormed store.now }
{
    let Some(place) = store.place(layer) else {
        return Err(Refusal::NoLayer);
    };
    let content = layer_there(store, place);
    if !is_name(name) {
        Err(Refusal::BadName)
    } else if content.column_place(name).is_some() {
        Err(Refusal::ColumnExists)
    } else if content.next_column() >= COLUMN_END {
        Err(Refusal::ColumnsExhausted)
    } else {
        Ok(place)
    }
}

/// Puts a column last, under the layer's next column number.
pub(crate) fn add_column(
    alloc: Global,
    store: &mut Store,
    layer: Text,
    name: Text,
    column_type: ColumnType,
) -> Result<Inverse, (Edit, Refusal)>
    ensures { Carries store.old (Edit.AddColumn layer name column_type) result store.new }
{
    let place = match place_for_column(store, layer.as_str(), name.as_str()) {
        Ok(place) => place,
        Err(refusal) => {
            let edit = Edit::AddColumn {
                layer,
                name,
                column_type,
            };
            return Err((edit, refusal));
        }
    };
    match store.push_column(alloc, place, name, column_type) {
        Ok(()) => Ok(Inverse::TakeColumn { layer }),
        Err(name) => {
            let edit = Edit::AddColumn {
                layer,
                name,
                column_type,
            };
            Err((edit, Refusal::Memory))
        }
    }
}

/// Takes the last column of a layer off.
pub(crate) fn undo_add_column(store: &mut Store, layer: Text) -> Edit
    requires { Fits store.old (Inverse.TakeColumn layer) }
    ensures { Reverts store.old (Inverse.TakeColumn layer) result store.new }
{
    let place = store.place(layer.as_str()).unwrap();
    let Column {
        name,
        column_type,
        ..
    } = store.pop_column(place);
    Edit::AddColumn {
        layer,
        name,
        column_type,
    }
}

// Where a column stands: the place of its layer, its own place there, and its number.
#[derive(Clone, Copy)]
struct ColumnSpot {
    place: usize,
    column_place: usize,
    number: u16,
}

// Where the column of a name in the layer of a name stands.
fn column_spot(store: &Store, layer: &str, name: &str) -> Result<ColumnSpot, Refusal>
    ensures place { IfOk result (λ at. at.place ≡ place_of store.now layer.now) }
    ensures column_place { IfOk result (λ at. IsSomeAnd (layer_of store.now layer.now) (λ l.
        at.column_place ≡ column_place l name.now)) }
    ensures number { IfOk result (λ at. IsSomeAnd (column_in store.now layer.now name.now) (λ c.
        c.number ≡ at.number)) }
    ensures passed { OnOk result
        (first_refusal (column_checks store.now layer.now name.now) ≡ None) }
    ensures refused { IfErr result (λ refusal.
        first_refusal (column_checks store.now layer.now name.now) ≡ Some refusal) }
    ensures well_formed { IsWellFormed store.now }
{
    let Some(place) = store.place(layer) else {
        return Err(Refusal::NoLayer);
    };
    let content = layer_there(store, place);
    let Some(column_place) = content.column_place(name) else {
        return Err(Refusal::NoColumn);
    };
    let number = content.column_at(column_place).unwrap().number;
    Ok(ColumnSpot {
        place,
        column_place,
        number,
    })
}

/// Removes a column, with all values in it.
pub(crate) fn drop_column(
    alloc: Global,
    store: &mut Store,
    layer: Text,
    name: Text,
) -> Result<Inverse, (Edit, Refusal)>
    ensures { Carries store.old (Edit.DropColumn layer name) result store.new }
{
    let at = match column_spot(store, layer.as_str(), name.as_str()) {
        Ok(at) => at,
        Err(refusal) => return Err((Edit::DropColumn { layer, name }, refusal)),
    };
    // Room for the values comes first: nothing fails once they are out.
    let Ok(mut values) = BoxedValues::new(alloc) else {
        return Err((Edit::DropColumn { layer, name }, Refusal::Memory));
    };
    let Ok(taken) = store.take_values(alloc, at.place, at.number) else {
        return Err((Edit::DropColumn { layer, name }, Refusal::Memory));
    };
    let column = store.take_column(at.place, at.column_place);
    let _ = values.replace(taken);
    Ok(Inverse::PutColumn {
        layer,
        name,
        place: at.column_place,
        column,
        values,
    })
}

/// Puts a column back at its place, and its values into their features.
pub(crate) fn undo_drop_column(
    alloc: Global,
    store: &mut Store,
    layer: Text,
    name: Text,
    column_place: usize,
    column: Column,
    mut values: BoxedValues,
) -> Result<Edit, Inverse>
    requires { Fits store.old (Inverse.PutColumn layer name column_place column values) }
    ensures { RevertsOrKeeps store.old (Inverse.PutColumn layer name column_place column values)
        result store.new }
{
    let place = store.place(layer.as_str()).unwrap();
    let number = column.number;
    if let Err(column) = store.put_column(alloc, place, column_place, column) {
        return Err(Inverse::PutColumn {
            layer,
            name,
            place: column_place,
            column,
            values,
        });
    }
    let taken = values.replace(ColumnValues::new(alloc));
    match store.put_values(alloc, place, number, taken) {
        Ok(()) => Ok(Edit::DropColumn { layer, name }),
        Err(taken) => {
            let _ = values.replace(taken);
            let column = store.take_column(place, column_place);
            Err(Inverse::PutColumn {
                layer,
                name,
                place: column_place,
                column,
                values,
            })
        }
    }
}
