ghost use Rattle.std.specs.Prelude.{◌≡◌, IfNone as OnNone, IfSome, None, Some};
ghost use Rattle.sf_steps.specs.Inverses.{answer_of, inverse_layer, weight};

use super::answer::Answer;
use super::weight::{feature_weight, layer_weight};
use sf_grid::GridPoint;
use sf_layers::{AttrValue, BoxedLayer, BoxedValues, Column, Feature, Text};
use sf_validity::Valid;

/// What takes an accepted edit back. It holds what the edit removed, moved and not copied; what is
/// large stands behind a box, so that a list of inverses stays small.
#[derive(Debug, Drop)]
pub enum Inverse {
    /// Takes the last layer off.
    TakeLayer,
    /// Puts a layer back at its place, under its stored name. The edit's own name is kept for doing
    /// it again.
    PutLayer {
        name: Text,
        place: usize,
        stored: Text,
        layer: BoxedLayer,
    },
    /// Gives the layer at a place its stored old name back. The edit's own is kept for its redo.
    RenameLayer {
        name: Text,
        place: usize,
        stored: Text,
    },
    /// Moves a layer back to its old place.
    MoveLayer {
        name: Text,
        place: usize,
    },
    /// Takes the last column of a layer off, and the layer's counter back to its number.
    TakeColumn {
        layer: Text,
    },
    /// Puts a column back at its place, and its values into their features. The edit's own name is
    /// kept for its redo.
    PutColumn {
        layer: Text,
        name: Text,
        place: usize,
        column: Column,
        values: BoxedValues,
    },
    /// Takes a feature off, and the layer's counter back to its identifier.
    TakeFeature {
        layer: Text,
        id: u32,
    },
    /// Puts a feature back.
    PutFeature {
        layer: Text,
        id: u32,
        feature: Feature,
    },
    /// Puts a feature's old geometry back.
    PutGeometry {
        layer: Text,
        id: u32,
        old: Valid,
    },
    /// Removes the vertex at an index.
    TakeVertex {
        layer: Text,
        id: u32,
        part: u32,
        ring: u32,
        index: u32,
    },
    /// Moves the vertex at an index back.
    MoveVertex {
        layer: Text,
        id: u32,
        part: u32,
        ring: u32,
        index: u32,
        old: GridPoint,
    },
    /// Puts a vertex back before an index.
    PutVertex {
        layer: Text,
        id: u32,
        part: u32,
        ring: u32,
        index: u32,
        old: GridPoint,
    },
    /// Puts the old value back into a column of a feature, or leaves none there.
    PutValue {
        layer: Text,
        id: u32,
        column: Text,
        old: Option<AttrValue>,
    },
}

impl Inverse {
    /// The name of the layer that it changes; None where that is the last one, one that isn't there, or one
    /// that it knows by its place.
    pub fn layer_name(&self) -> Option<&Text>
        ensures some { IfSome result (λ name. inverse_layer self.now ≡ Some name.now) }
        ensures none { OnNone result (inverse_layer self.now ≡ None) }
    {
        match self {
            Inverse::TakeLayer | Inverse::PutLayer { .. } | Inverse::RenameLayer { .. } => None,
            Inverse::MoveLayer { name, .. } => Some(name),
            Inverse::TakeColumn { layer }
            | Inverse::PutColumn { layer, .. }
            | Inverse::TakeFeature { layer, .. }
            | Inverse::PutFeature { layer, .. }
            | Inverse::PutGeometry { layer, .. }
            | Inverse::TakeVertex { layer, .. }
            | Inverse::MoveVertex { layer, .. }
            | Inverse::PutVertex { layer, .. }
            | Inverse::PutValue { layer, .. } => Some(layer),
        }
    }

    /// What the edit answered.
    pub fn answer(&self) -> Answer
        ensures { result ≡ answer_of self.now }
    {
        match self {
            Inverse::TakeFeature { id, .. } => Answer::Id(*id),
            _ => Answer::Done,
        }
    }

    /// How many grid points, values and columns the inverse holds.
    pub fn weight(&self) -> u64
        ensures { result ≡ weight self.now }
    {
        match self {
            Inverse::PutLayer { layer, .. } => layer_weight(layer.layer()),
            Inverse::PutColumn { values, .. } => values.values().count() as u64 + 1,
            Inverse::PutFeature { feature, .. } => feature_weight(feature),
            Inverse::PutGeometry { old, .. } => old.geometry().point_count() as u64,
            Inverse::MoveVertex { .. } | Inverse::PutVertex { .. } => 1,
            Inverse::PutValue { old, .. } => u64::from(old.is_some()),
            Inverse::TakeLayer
            | Inverse::RenameLayer { .. }
            | Inverse::MoveLayer { .. }
            | Inverse::TakeColumn { .. }
            | Inverse::TakeFeature { .. }
            | Inverse::TakeVertex { .. } => 0,
        }
    }
}
