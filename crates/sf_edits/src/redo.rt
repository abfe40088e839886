//! Edits that were taken back, redone. Each was accepted from this very content once, so no fault is
//! searched: only memory can run out.
ghost use Rattle.std.specs.Prelude.{◌≡◌, Ok, IsOk, IsTrue};
ghost use Rattle.sf_steps.specs.Inverses.{Carries};
ghost use Rattle.sf_steps.specs.Steps.{step};
ghost use Rattle.sf_edits.specs.Reverted.{CarriesOrKeeps, brings_no_geometry, takes_no_memory};

use super::reverted::{Kept, Reverted};
use super::steps::carry_out;
use sf_grid::GridPoint;
use sf_layers::{Feature, Store, Text};
use sf_steps::{Edit, Inverse};
use sf_validity::Valid;
use std::alloc::Global;

/// Redoes an edit that was taken back, whatever becomes of indexes.
pub(crate) fn carry_out_again(
    alloc: Global,
    store: &mut Store,
    reverted: Reverted,
) -> Result<Inverse, Reverted>
    requires { IsOk (step store.old reverted) }
    ensures again { CarriesOrKeeps store.old reverted result store.new }
    ensures always { IsTrue (takes_no_memory reverted) → IsOk result }
{
    match reverted.kept {
        Kept::AddFeature { layer, geometry } => redo_add_feature(alloc, store, layer, geometry),
        Kept::ReplaceGeometry {
            layer,
            id,
            geometry,
        } => Ok(redo_replace_geometry(alloc, store, layer, id, geometry)),
        Kept::Other(edit) => redo_other(alloc, store, edit),
    }
}

// Redoes an edit that brings no geometry.
fn redo_other(alloc: Global, store: &mut Store, edit: Edit) -> Result<Inverse, Reverted>
    requires accepted { IsOk (step store.old edit) }
    requires plain { IsTrue (brings_no_geometry edit) }
    ensures again { CarriesOrKeeps store.old edit result store.new }
    ensures always { IsTrue (takes_no_memory edit) → IsOk result }
{
    match edit {
        Edit::DeleteFeature { layer, id } => Ok(redo_delete_feature(alloc, store, layer, id)),
        Edit::InsertVertex {
            layer,
            id,
            part,
            ring,
            index,
            point,
        } => redo_insert_vertex(alloc, store, layer, id, part, ring, index, point),
        Edit::MoveVertex {
            layer,
            id,
            part,
            ring,
            index,
            point,
        } => Ok(redo_move_vertex(alloc, store, layer, id, part, ring, index, point)),
        Edit::RemoveVertex {
            layer,
            id,
            part,
            ring,
            index,
        } => Ok(redo_remove_vertex(alloc, store, layer, id, part, ring, index)),
        edit => match carry_out(alloc, store, edit) {
            Ok(inverse) => Ok(inverse),
            Err((edit, _)) => Err(Reverted::other(edit)),
        },
    }
}

// Puts a feature under the next identifier of its layer again.
fn redo_add_feature(
    alloc: Global,
    store: &mut Store,
    layer: Text,
    geometry: Valid,
) -> Result<Inverse, Reverted>
    requires { IsOk (step store.old (Edit.AddFeature layer geometry)) }
    ensures { CarriesOrKeeps store.old (Edit.AddFeature layer geometry) result store.new }
{
    let place = store.place(layer.as_str()).unwrap();
    // Shows the proof that the geometry is valid and on the grid.
    geometry.geometry();
    match store.push_feature(alloc, place, Feature::new(alloc, geometry)) {
        Ok(id) => Ok(Inverse::TakeFeature { layer, id }),
        Err(feature) => Err(Reverted::add_feature(layer, feature.into_valid())),
    }
}

// Removes a feature again.
fn redo_delete_feature(alloc: Global, store: &mut Store, layer: Text, id: u32) -> Inverse
    requires { IsOk (step store.old (Edit.DeleteFeature layer id)) }
    ensures { Carries store.old (Edit.DeleteFeature layer id) (Ok result) store.new }
{
    let place = store.place(layer.as_str()).unwrap();
    let feature = store.take_feature(alloc, place, id);
    Inverse::PutFeature { layer, id, feature }
}

// Puts a geometry in the place of a feature's again.
fn redo_replace_geometry(
    alloc: Global,
    store: &mut Store,
    layer: Text,
    id: u32,
    geometry: Valid,
) -> Inverse
    requires { IsOk (step store.old (Edit.ReplaceGeometry layer id geometry)) }
    ensures { Carries store.old (Edit.ReplaceGeometry layer id geometry) (Ok result) store.new }
{
    let place = store.place(layer.as_str()).unwrap();
    // Shows the proof that the geometry is valid and on the grid.
    geometry.geometry();
    let old = store.exchange_geometry(alloc, place, id, geometry);
    Inverse::PutGeometry { layer, id, old }
}

// Puts a vertex in again.
fn redo_insert_vertex(
    alloc: Global,
    store: &mut Store,
    layer: Text,
    id: u32,
    part: u32,
    ring: u32,
    index: u32,
    point: GridPoint,
) -> Result<Inverse, Reverted>
    requires { IsOk (step store.old (Edit.InsertVertex layer id part ring index point)) }
    ensures { CarriesOrKeeps store.old (Edit.InsertVertex layer id part ring index point) result store.new }
{
    let place = store.place(layer.as_str()).unwrap();
    // Shows the proof that the point is on the grid.
    point.x();
    match store.put_vertex_back(alloc, place, id, part, ring, index, point) {
        Ok(()) => Ok(Inverse::TakeVertex {
            layer,
            id,
            part,
            ring,
            index,
        }),
        Err(_) => Err(Reverted::other(Edit::InsertVertex {
            layer,
            id,
            part,
            ring,
            index,
            point,
        })),
    }
}

// Moves a vertex again.
fn redo_move_vertex(
    alloc: Global,
    store: &mut Store,
    layer: Text,
    id: u32,
    part: u32,
    ring: u32,
    index: u32,
    point: GridPoint,
) -> Inverse
    requires { IsOk (step store.old (Edit.MoveVertex layer id part ring index point)) }
    ensures { Carries store.old (Edit.MoveVertex layer id part ring index point) (Ok result) store.new }
{
    let place = store.place(layer.as_str()).unwrap();
    // Shows the proof that the point is on the grid.
    point.x();
    let old = store.move_vertex_back(alloc, place, id, part, ring, index, point);
    Inverse::MoveVertex {
        layer,
        id,
        part,
        ring,
        index,
        old,
    }
}

// Removes a vertex again.
fn redo_remove_vertex(
    alloc: Global,
    store: &mut Store,
    layer: Text,
    id: u32,
    part: u32,
    ring: u32,
    index: u32,
) -> Inverse
    requires { IsOk (step store.old (Edit.RemoveVertex layer id part ring index)) }
    ensures { Carries store.old (Edit.RemoveVertex layer id part ring index) (Ok result) store.new }
{
    let place = store.place(layer.as_str()).unwrap();
    let old = store.take_vertex_back(alloc, place, id, part, ring, index);
    Inverse::PutVertex {
        layer,
        id,
        part,
        ring,
        index,
        old,
    }
}
