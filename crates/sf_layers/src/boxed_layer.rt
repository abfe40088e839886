ghost use Rattle.std.specs.Prelude.{◌≡◌, IfOk};
ghost use Rattle.sf_layers.specs.Content.{empty_layer};
ghost use Rattle.sf_layers.specs.declared.layer_kind.LayerKind.{LayerKind as Kind};
ghost use Rattle.sf_layers.specs.declared.layer_kind.LayerKind.TheVariants.{Any};

use super::layer::Layer;
use super::layer_kind::LayerKind;
use std::alloc::{AllocError, Global};
use std::marker::Model;

/// A layer behind a box, so that what holds it stays small. Contracts see it as the layer.
#[derive(Debug, Drop)]
pub struct BoxedLayer {
    layer: Box<Layer>,
}

impl Model for BoxedLayer {
    ghost use Rattle.std.specs.Prelude.{box_value};
    ghost use Rattle.sf_layers.specs.Content.{LayerContent};

    ghost Value = { LayerContent };

    ghost view = { λ a. box_value a.layer };
}

impl BoxedLayer {
    /// Room for a layer, which has an empty one of any kind.
    pub fn new(alloc: Global) -> Result<BoxedLayer, AllocError>
        ensures { IfOk result (λ boxed. boxed ≡ empty_layer Any) }
    {
        let layer = Box::new(alloc, Layer::new(alloc, LayerKind::Any))?;
        Ok(BoxedLayer { layer })
    }

    /// The layer.
    pub fn layer(&self) -> &Layer
        ensures { result.now ≡ self.now }
    {
        &self.layer
    }

    /// Puts another layer in the place of the one that is there, and gives that.
    pub fn replace(&mut self, layer: Layer) -> Layer
        ensures given { result ≡ self.old }
        ensures put { self.new ≡ layer }
    {
        std::mem::replace(&mut *self.layer, layer)
    }
}
