//! The index of a layer's features by their boxes. It is lost where memory runs out, and never in the way of a
//! change: what is lost is built anew.
ghost use Rattle.std.specs.Prelude.{◌≡◌, None, Some, IfOk, IfSome, IsSomeAnd, OnOk, nat_eq};
ghost use Rattle.std.specs.List.Sorted.{IsStrictlySortedBy};
ghost use Rattle.std.specs.Map.{keys_of, set_value};
ghost use Rattle.std.specs.Ordering.{nat_cmp};
ghost use Rattle.sf_geometry.specs.Envelope.{envelope_of};
ghost use Rattle.sf_layers.specs.Boxes.{boxes_of};
ghost use Rattle.sf_rtree.specs.Indexes.{box_of, with_box, without_box};

use sf_features::Feature;
use sf_geometry::Extent;
use sf_rtree::{RTree, SpatialIndex};
use std::alloc::{AllocError, Global};
use std::collections::BTreeMap;

/// The box of a feature.
pub(crate) fn extent_of(feature: &Feature) -> Extent
    ensures { result ≡ envelope_of feature.now.geometry }
{
    feature.valid().geometry().envelope()
}

/// The boxes of these features, by identifier.
fn boxes_of(
    alloc: Global,
    features: &BTreeMap<u32, Feature>,
) -> Result<Vec<(u32, Extent)>, AllocError>
    ensures boxes { IfOk result (λ boxes. boxes.items ≡ boxes_of features.now.entries) }
    ensures rising { OnOk result (IsStrictlySortedBy nat_cmp (keys_of features.now.entries)) }
{
    let mut boxes = Vec::with_capacity(alloc, features.len())?;
    for (id, feature) in features.iter() {
        boxes.push((*id, extent_of(feature)))?;
    }
    Ok(boxes)
}

/// The index of these features.
pub(crate) fn index_of(
    alloc: Global,
    features: &BTreeMap<u32, Feature>,
) -> Result<RTree, AllocError>
    ensures { IfOk result (λ index. index ≡ boxes_of features.now.entries) }
{
    let boxes = boxes_of(alloc, features)?;
    RTree::from_boxes(alloc, boxes)
}

/// Puts a box into the index, if there is one.
pub(crate) fn put_box(alloc: Global, index: &mut Option<RTree>, id: u32, extent: Extent)
    requires { IfSome index.old (λ boxes. box_of boxes id ≡ None) }
    ensures { IfSome index.new (λ boxes. IsSomeAnd index.old (λ old.
        boxes ≡ with_box id extent old)) }
{
    *index = match index.take() {
        Some(tree) => tree.insert(alloc, id, extent).ok(),
        None => None,
    };
}

/// Removes a box from the index, if there is one.
pub(crate) fn take_box(alloc: Global, index: &mut Option<RTree>, id: u32, extent: Extent)
    requires { IfSome index.old (λ boxes. box_of boxes id ≡ Some extent) }
    ensures { IfSome index.new (λ boxes. IsSomeAnd index.old (λ old. boxes ≡ without_box id old)) }
{
    *index = match index.take() {
        Some(tree) => tree.remove(alloc, id, extent).ok(),
        None => None,
    };
}

/// Puts another box in the place of an identifier's, if there is an index.
pub(crate) fn move_box(alloc: Global, index: &mut Option<RTree>, id: u32, from: Extent, to: Extent)
    requires there { IfSome index.old (λ boxes. box_of boxes id ≡ Some from) }
    requires rising { IfSome index.old (λ boxes. IsStrictlySortedBy nat_cmp (keys_of boxes)) }
    ensures { IfSome index.new (λ boxes. IsSomeAnd index.old (λ old.
        boxes ≡ set_value (nat_eq id) old to)) }
{
    // Most vertices that move leave the box as it is.
    if from != to {
        take_box(alloc, index, id, from);
        put_box(alloc, index, id, to);
    }
}
