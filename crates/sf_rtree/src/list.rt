ghost use Rattle.std.specs.Prelude.{◌≡◌, ℕ, ◌<◌, ◌≤◌, None, MatchOption, length};
ghost use Rattle.std.specs.List.{insert, remove};
ghost use Rattle.sf_geometry.specs.declared.extent.Extent.{Extent as TheExtent};
ghost use Rattle.sf_rtree.specs.Indexes.{box_of, with_box, without_box};

use crate::index::SpatialIndex;
use sf_geometry::Extent;
use std::alloc::{AllocError, Global};
use std::marker::Model;

/// The boxes in a list, rising by identifier: the plainest index, to compare another with.
#[derive(Drop)]
pub struct ListIndex {
    boxes: Vec<(u32, Extent)>,
}

impl Model for ListIndex {
    ghost use Rattle.sf_rtree.specs.Indexes.{Boxes};

    ghost Value = { Boxes };

    ghost view = { λ a. a.boxes.items };
}

impl SpatialIndex for ListIndex {
    ghost boxes = { λ index. index };

    fn new(alloc: Global) -> ListIndex {
        ListIndex {
            boxes: Vec::new(alloc),
        }
    }

    fn insert(self, _alloc: Global, id: u32, extent: Extent) -> Result<ListIndex, AllocError> {
        let mut boxes = self.boxes;
        let place = free_place(boxes.as_slice(), id);
        boxes.insert(place, (id, extent))?;
        Ok(ListIndex { boxes })
    }

    fn remove(self, _alloc: Global, id: u32, _extent: Extent) -> Result<ListIndex, AllocError> {
        let mut boxes = self.boxes;
        if let Some(place) = place_of_id(boxes.as_slice(), id) {
            boxes.remove(place);
        }
        Ok(ListIndex { boxes })
    }

    fn meeting(&self, alloc: Global, extent: &Extent) -> Result<Vec<u32>, AllocError> {
        let mut ids = Vec::new(alloc);
        for entry in self.boxes.as_slice() {
            if entry.1.meets(*extent) {
                ids.push(entry.0)?;
            }
        }
        Ok(ids)
    }
}

/// Where an identifier that is free goes among the others.
fn free_place(boxes: &[(u32, Extent)], id: u32) -> usize
    requires { box_of boxes.now id ≡ None }
    ensures bound { result ≤ length boxes.now }
    ensures put { (extent : TheExtent) → with_box id extent boxes.now ≡ insert boxes.now result (id, extent) }
{
    for (place, entry) in boxes.iter().enumerate() {
        if entry.0 > id {
            return place;
        }
    }
    boxes.len()
}

/// Where an identifier is.
fn place_of_id(boxes: &[(u32, Extent)], id: u32) -> Option<usize>
    ensures { MatchOption result (without_box id boxes.now ≡ boxes.now)
        (λ place. (place < length boxes.now) × (without_box id boxes.now ≡ remove boxes.now place)) }
{
    for (place, entry) in boxes.iter().enumerate() {
        if entry.0 == id {
            return Some(place);
        }
    }
    None
}
