//! The edits of single vertices, and what takes them back.
ghost use Rattle.std.specs.Prelude.{◌≡◌};
ghost use Rattle.sf_steps.specs.Inverses.{Carries, Fits, Reverts, RevertsOrKeeps};

use super::places::feature_place;
use sf_grid::GridPoint;
use sf_layers::{Store, Text};
use sf_steps::{Edit, Inverse, Refusal};
use std::alloc::Global;

/// Puts a vertex before an index, or last.
pub(crate) fn insert_vertex(
    alloc: Global,
    store: &mut Store,
    layer: Text,
    id: u32,
    part: u32,
    ring: u32,
    index: u32,
    point: GridPoint,
) -> Result<Inverse, (Edit, Refusal)>
    ensures { Carries store.old (Edit.InsertVertex layer id part ring index point) result store.new }
{
    let refusal = match feature_place(store, layer.as_str(), id) {
        Ok(place) => match store.insert_vertex(alloc, place, id, part, ring, index, point) {
            Ok(()) => {
                return Ok(Inverse::TakeVertex {
                    layer,
                    id,
                    part,
                    ring,
                    index,
                });
            }
            Err(refusal) => refusal.into(),
        },
        Err(refusal) => refusal,
    };
    let edit = Edit::InsertVertex {
        layer,
        id,
        part,
        ring,
        index,
        point,
    };
    Err((edit, refusal))
}

/// Removes a vertex that was put in.
pub(crate) fn undo_insert_vertex(
    alloc: Global,
    store: &mut Store,
    layer: Text,
    id: u32,
    part: u32,
    ring: u32,
    index: u32,
) -> Edit
    requires { Fits store.old (Inverse.TakeVertex layer id part ring index) }
    ensures { Reverts store.old (Inverse.TakeVertex layer id part ring index) result store.new }
{
    let place = store.place(layer.as_str()).unwrap();
    let point = store.take_vertex_back(alloc, place, id, part, ring, index);
    Edit::InsertVertex {
        layer,
        id,
        part,
        ring,
        index,
        point,
    }
}

/// Moves the vertex at an index.
pub(crate) fn move_vertex(
    alloc: Global,
    store: &mut Store,
    layer: Text,
    id: u32,
    part: u32,
    ring: u32,
    index: u32,
    point: GridPoint,
) -> Result<Inverse, (Edit, Refusal)>
    ensures { Carries store.old (Edit.MoveVertex layer id part ring index point) result store.new }
{
    let refusal = match feature_place(store, layer.as_str(), id) {
        Ok(place) => match store.move_vertex(alloc, place, id, part, ring, index, point) {
            Ok(old) => {
                return Ok(Inverse::MoveVertex {
                    layer,
                    id,
                    part,
                    ring,
                    index,
                    old,
                });
            }
            Err(refusal) => refusal.into(),
        },
        Err(refusal) => refusal,
    };
    let edit = Edit::MoveVertex {
        layer,
        id,
        part,
        ring,
        index,
        point,
    };
    Err((edit, refusal))
}

/// Moves a vertex back to where it was.
pub(crate) fn undo_move_vertex(
    alloc: Global,
    store: &mut Store,
    layer: Text,
    id: u32,
    part: u32,
    ring: u32,
    index: u32,
    old: GridPoint,
) -> Edit
    requires { Fits store.old (Inverse.MoveVertex layer id part ring index old) }
    ensures { Reverts store.old (Inverse.MoveVertex layer id part ring index old) result store.new }
{
    let place = store.place(layer.as_str()).unwrap();
    let point = store.move_vertex_back(alloc, place, id, part, ring, index, old);
    Edit::MoveVertex {
        layer,
        id,
        part,
        ring,
        index,
        point,
    }
}

/// Removes the vertex at an index.
pub(crate) fn remove_vertex(
    alloc: Global,
    store: &mut Store,
    layer: Text,
    id: u32,
    part: u32,
    ring: u32,
    index: u32,
) -> Result<Inverse, (Edit, Refusal)>
    ensures { Carries store.old (Edit.RemoveVertex layer id part ring index) result store.new }
{
    let refusal = match feature_place(store, layer.as_str(), id) {
        Ok(place) => match store.remove_vertex(alloc, place, id, part, ring, index) {
            Ok(old) => {
                return Ok(Inverse::PutVertex {
                    layer,
                    id,
                    part,
                    ring,
                    index,
                    old,
                });
            }
            Err(refusal) => refusal.into(),
        },
        Err(refusal) => refusal,
    };
    let edit = Edit::RemoveVertex {
        layer,
        id,
        part,
        ring,
        index,
    };
    Err((edit, refusal))
}

/// Puts a vertex that was removed back.
pub(crate) fn undo_remove_vertex(
    alloc: Global,
    store: &mut Store,
    layer: Text,
    id: u32,
    part: u32,
    ring: u32,
    index: u32,
    old: GridPoint,
) -> Result<Edit, Inverse>
    requires { Fits store.old (Inverse.PutVertex layer id part ring index old) }
    ensures { RevertsOrKeeps store.old (Inverse.PutVertex layer id part ring index old)
        result store.new }
{
    let place = store.place(layer.as_str()).unwrap();
    match store.put_vertex_back(alloc, place, id, part, ring, index, old) {
        Ok(()) => Ok(Edit::RemoveVertex {
            layer,
            id,
            part,
            ring,
            index,
        }),
        Err(_) => Err(Inverse::PutVertex {
            layer,
            id,
            part,
            ring,
            index,
            old,
        }),
    }
}
