ghost use Rattle.std.specs.Prelude.{◌≡◌, ℕ, ◌*◌, ◌-◌, ◌^◌, ◌<◌, ◌≤◌, [], length, IfOk};
ghost use Rattle.std.specs.List.Sorted.{IsStrictlySortedBy};
ghost use Rattle.std.specs.Map.{keys_of};
ghost use Rattle.std.specs.Ordering.{nat_cmp};
ghost use Rattle.sf_geometry.specs.Envelope.{extents_meet};
ghost use Rattle.sf_rtree.specs.Nodes.{fewest_members, most_members};

use crate::build::build;
use crate::entry::{Entry, Key};
use crate::index::SpatialIndex;
use crate::node::Node;
use sf_geometry::Extent;
use std::alloc::{AllocError, Global};
use std::marker::Model;

/// An R-tree (Guttman 1984): entries in the leaves alone, all leaves at one depth, a box over all
/// that is below each node. Entries stand in the order of a space-filling curve.
#[derive(Drop)]
pub struct RTree {
    root: Node,
}

impl Model for RTree {
    ghost use Rattle.sf_rtree.specs.Indexes.{Boxes};
    ghost use Rattle.sf_rtree.specs.Subtrees.{IsRoot, boxes_of};

    ghost Value = { Boxes };

    ghost view = { λ a. boxes_of a.root.entries };

    ghost invariant = { λ a. IsRoot a.root };
}

impl RTree {
    /// The tree of these boxes, which rise by identifier.
    pub fn from_boxes(alloc: Global, boxes: Vec<(u32, Extent)>) -> Result<RTree, AllocError>
        requires { IsStrictlySortedBy nat_cmp (keys_of boxes.items) }
        ensures { IfOk result (λ index. index ≡ boxes.items) }
    {
        let mut entries = Vec::with_capacity(alloc, boxes.len())?;
        for entry in boxes.as_slice() {
            entries.push(Entry::new(entry.0, entry.1))?;
        }
        entries.sort_unstable_by_key(|entry| entry.key());
        Ok(RTree {
            root: build(alloc, entries)?,
        })
    }

    /// How many levels there are: 1 where the root is a leaf.
    pub fn height(&self) -> u32
        ensures some { 1 ≤ result }
        ensures few { length self.now ≤ most_members ^ result }
        ensures enough { 1 < result → 2 * fewest_members ^ (result - 1) ≤ length self.now }
    {
        self.root.levels()
    }
}

impl SpatialIndex for RTree {
    ghost boxes = { λ index. index };

    fn new(alloc: Global) -> RTree {
        RTree {
            root: Node::new(alloc),
        }
    }

    fn insert(self, alloc: Global, id: u32, extent: Extent) -> Result<RTree, AllocError> {
        let grown = self.root.insert(alloc, Entry::new(id, extent))?;
        Ok(RTree {
            root: Node::over(alloc, grown)?,
        })
    }

    fn remove(self, alloc: Global, id: u32, extent: Extent) -> Result<RTree, AllocError> {
        Ok(RTree {
            root: self.root.remove(alloc, Key::new(id, &extent))?,
        })
    }

    fn meeting(&self, alloc: Global, extent: &Extent) -> Result<Vec<u32>, AllocError> {
        let mut ids = Vec::new(alloc);
        self.root.collect(extent, &mut ids)?;
        ids.sort_unstable();
        Ok(ids)
    }
}
