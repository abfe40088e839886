//! The edits of values, and what takes them back.
ghost use Rattle.std.specs.Prelude.{◌≡◌, Some, IsOk, IsTrue, is_some};
ghost use Rattle.sf_steps.specs.Inverses.{Carries, Fits, RevertsOrKeeps, frees_only, setting, value_under};

use super::places::value_place;
use sf_layers::{AttrValue, Store, Text};
use sf_steps::{Edit, Inverse, Refusal};
use std::alloc::Global;

/// Puts a value into a column of a feature.
pub(crate) fn set_value(
    alloc: Global,
    store: &mut Store,
    layer: Text,
    id: u32,
    column: Text,
    value: AttrValue,
) -> Result<Inverse, (Edit, Refusal)>
    ensures { Carries store.old (Edit.SetValue layer id column value) result store.new }
{
    let (value, refusal) = match value_place(store, layer.as_str(), id, column.as_str()) {
        Err(refusal) => (value, refusal),
        Ok(at) if !value.is_of_type(at.column_type) => (value, Refusal::WrongValue),
        Ok(at) => match store.put_value(alloc, at.place, id, at.number, value) {
            Ok(old) => {
                return Ok(Inverse::PutValue {
                    layer,
                    id,
                    column,
                    old,
                });
            }
            Err(value) => (value, Refusal::Memory),
        },
    };
    let edit = Edit::SetValue {
        layer,
        id,
        column,
        value,
    };
    Err((edit, refusal))
}

/// Removes the value of a feature in a column, if there is one.
pub(crate) fn clear_value(
    store: &mut Store,
    layer: Text,
    id: u32,
    column: Text,
) -> Result<Inverse, (Edit, Refusal)>
    ensures { Carries store.old (Edit.ClearValue layer id column) result store.new }
{
    match value_place(store, layer.as_str(), id, column.as_str()) {
        Ok(at) => {
            let old = store.take_value(at.place, id, at.number);
            Ok(Inverse::PutValue {
                layer,
                id,
                column,
                old,
            })
        }
        Err(refusal) => Err((Edit::ClearValue { layer, id, column }, refusal)),
    }
}

// The edit that put a value there, or took it away.
fn edit_of(layer: Text, id: u32, column: Text, value: Option<AttrValue>) -> Edit
    ensures { result ≡ setting layer id column value }
{
    match value {
        Some(value) => Edit::SetValue {
            layer,
            id,
            column,
            value,
        },
        None => Edit::ClearValue { layer, id, column },
    }
}

/// Puts the old value back into a column of a feature, or leaves none there.
pub(crate) fn undo_set_value(
    alloc: Global,
    store: &mut Store,
    layer: Text,
    id: u32,
    column: Text,
    old: Option<AttrValue>,
) -> Result<Edit, Inverse>
    requires { Fits store.old (Inverse.PutValue layer id column old) }
    ensures taken_back { RevertsOrKeeps store.old (Inverse.PutValue layer id column old)
        result store.new }
    ensures always { IsTrue (frees_only store.old (Inverse.PutValue layer id column old))
        → IsOk result }
{
    let at = value_place(store, layer.as_str(), id, column.as_str()).unwrap();
    let Some(value) = old else {
        let value = store.take_value(at.place, id, at.number);
        return Ok(edit_of(layer, id, column, value));
    };
    match store.put_value(alloc, at.place, id, at.number, value) {
        Ok(value) => Ok(edit_of(layer, id, column, value)),
        Err(value) => Err(Inverse::PutValue {
            layer,
            id,
            column,
            old: Some(value),
        }),
    }
}
