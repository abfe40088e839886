//! Indexes of boxes by identifier: the trait, an R-tree and a list.
#![tactic(auto)]

mod build;
mod entry;
mod index;
mod list;
mod members;
mod node;
mod tree;

pub use index::SpatialIndex;
pub use list::ListIndex;
pub use tree::RTree;
