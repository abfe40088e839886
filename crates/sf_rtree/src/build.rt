//! A tree built at once from its entries, level by level.

ghost use Rattle.std.specs.Prelude.{◌≡◌, ◌<◌, ◌≤◌, ◌-◌, ◌++◌, length, IfOk, OnOk};
ghost use Rattle.sf_rtree.specs.Curves.{AreInOrder};
ghost use Rattle.sf_rtree.specs.Levels.{CanPart, IsLevel, IsPart};
ghost use Rattle.sf_rtree.specs.Nodes.{entries_below, most_members};

use crate::entry::Entry;
use crate::members::MEMBERS_MAX;
use crate::node::{Branch, Node};
use std::alloc::{AllocError, Global};

/// A node over all of the entries.
pub fn build(alloc: Global, entries: Vec<Entry>) -> Result<Node, AllocError>
    requires { AreInOrder entries.items }
    ensures { IfOk result (λ node. node.entries ≡ entries.items) }
{
    if entries.len() <= MEMBERS_MAX {
        return Ok(Node::leaf(entries));
    }
    let mut branches = leaves(alloc, entries)?;
    while branches.len() > MEMBERS_MAX {
        branches = level_above(alloc, branches)?;
    }
    Ok(Node::inner(branches))
}

/// The leaves of the entries.
fn leaves(alloc: Global, mut entries: Vec<Entry>) -> Result<Vec<Branch>, AllocError>
    requires many { most_members < length entries.items }
    requires in_order { AreInOrder entries.items }
    ensures { IfOk result (λ leaves. IsLevel entries.items leaves.items) }
{
    let mut parts = entries.len().div_ceil(MEMBERS_MAX);
    let mut leaves = Vec::with_capacity(alloc, parts)?;
    while parts > 0 {
        let part = take_last_part(&mut entries, parts)?;
        leaves.push(Node::leaf(part).into_branch())?;
        parts -= 1;
    }
    leaves.as_mut_slice().reverse();
    Ok(leaves)
}

/// The nodes over the branches, which are of one level.
fn level_above(alloc: Global, mut branches: Vec<Branch>) -> Result<Vec<Branch>, AllocError>
    requires many { most_members < length branches.items }
    requires level { IsLevel (entries_below branches.items) branches.items }
    requires in_order { AreInOrder (entries_below branches.items) }
    ensures level { IfOk result (λ above. IsLevel (entries_below branches.items) above.items) }
    ensures fewer { IfOk result (λ above. length above.items < length branches.items) }
{
    let mut parts = branches.len().div_ceil(MEMBERS_MAX);
    let mut above = Vec::with_capacity(alloc, parts)?;
    while parts > 0 {
        let part = take_last_part(&mut branches, parts)?;
        above.push(Node::inner(part).into_branch())?;
        parts -= 1;
    }
    above.as_mut_slice().reverse();
    Ok(above)
}

/// Takes off the last of so many parts, whose sizes differ by one at most.
fn take_last_part<T>(members: &mut Vec<T>, parts: usize) -> Result<Vec<T>, AllocError>
    requires some { 1 ≤ parts }
    requires can { CanPart parts (length members.old.items) }
    ensures members { IfOk result (λ part. members.new.items ++ part.items ≡ members.old.items) }
    ensures part { IfOk result (λ part. IsPart (length part.items)) }
    ensures can { OnOk result (CanPart (parts - 1) (length members.new.items)) }
{
    let size = members.len() / parts;
    members.split_off(members.len() - size)
}
