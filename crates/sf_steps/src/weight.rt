//! How many grid points, attribute values and columns features and layers hold.
ghost use Rattle.std.specs.Prelude.{◌≡◌, ◌<◌, ◌^◌};
ghost use Rattle.sf_steps.specs.Inverses.{feature_weight as feature_weight_of, layer_weight as layer_weight_of};

use sf_layers::{Feature, Layer};

/// How many points and values the feature holds.
pub(crate) fn feature_weight(feature: &Feature) -> u64
    ensures weight { result ≡ feature_weight_of feature.now }
    ensures bound { result < 2 ^ 21 }
{
    let points = feature.valid().geometry().point_count();
    (points + feature.value_count()) as u64
}

/// How many points, values and columns the layer holds.
pub(crate) fn layer_weight(layer: &Layer) -> u64
    ensures { result ≡ layer_weight_of layer.now }
{
    layer.has_few_features();
    let mut weight = layer.column_count() as u64;
    for (_, feature) in layer.features() {
        weight += feature_weight(feature);
    }
    weight
}
