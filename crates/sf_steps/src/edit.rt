ghost use Rattle.std.specs.Prelude.{◌≡◌};
ghost use Rattle.sf_steps.specs.Steps.{edit_layer};

use sf_geometry::Geometry;
use sf_grid::GridPoint;
use sf_layers::{AttrValue, ColumnType, LayerKind, Text};

/// A change of a store. Layers and columns are named by their texts, features by their identifiers, vertices by
/// part, ring and index.
#[derive(Debug, Drop)]
pub enum Edit {
    /// Puts an empty layer last.
    AddLayer {
        name: Text,
        kind: LayerKind,
    },
    /// Removes a layer, with all that it has.
    DropLayer {
        name: Text,
    },
    /// Gives a layer another name, in its place.
    RenameLayer {
        name: Text,
        new_name: Text,
    },
    /// Moves a layer so that it stands at a place of the order.
    MoveLayer {
        name: Text,
        place: u32,
    },
    /// Puts a column last, under the layer's next column number.
    AddColumn {
        layer: Text,
        name: Text,
        column_type: ColumnType,
    },
    /// Removes a column, with all values in it.
    DropColumn {
        layer: Text,
        name: Text,
    },
    /// Puts a feature with no values into a layer, under the layer's next identifier.
    AddFeature {
        layer: Text,
        geometry: Geometry,
    },
    /// Removes a feature. Its identifier is not given again.
    DeleteFeature {
        layer: Text,
        id: u32,
    },
    /// Puts another geometry in the place of a feature's; the values stay.
    ReplaceGeometry {
        layer: Text,
        id: u32,
        geometry: Geometry,
    },
    /// Puts a vertex before an index, or last where the index is their number.
    InsertVertex {
        layer: Text,
        id: u32,
        part: u32,
        ring: u32,
        index: u32,
        point: GridPoint,
    },
    /// Moves the vertex at an index.
    MoveVertex {
        layer: Text,
        id: u32,
        part: u32,
        ring: u32,
        index: u32,
        point: GridPoint,
    },
    /// Removes the vertex at an index.
    RemoveVertex {
        layer: Text,
        id: u32,
        part: u32,
        ring: u32,
        index: u32,
    },
    /// Puts a value into a column of a feature.
    SetValue {
        layer: Text,
        id: u32,
        column: Text,
        value: AttrValue,
    },
    /// Removes the value of a feature in a column, if there is one.
    ClearValue {
        layer: Text,
        id: u32,
        column: Text,
    },
}

impl Edit {
    /// The name of the layer that it adds, changes or removes.
    pub fn layer_name(&self) -> &Text
        ensures { result.now ≡ edit_layer self.now }
    {
        match self {
            Edit::AddLayer { name, .. }
            | Edit::DropLayer { name }
            | Edit::RenameLayer { name, .. }
            | Edit::MoveLayer { name, .. } => name,
            Edit::AddColumn { layer, .. }
            | Edit::DropColumn { layer, .. }
            | Edit::AddFeature { layer, .. }
            | Edit::DeleteFeature { layer, .. }
            | Edit::ReplaceGeometry { layer, .. }
            | Edit::InsertVertex { layer, .. }
            | Edit::MoveVertex { layer, .. }
            | Edit::RemoveVertex { layer, .. }
            | Edit::SetValue { layer, .. }
            | Edit::ClearValue { layer, .. } => layer,
        }
    }
}
