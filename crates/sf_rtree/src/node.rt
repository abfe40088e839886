//! Nodes of an R-tree.

ghost use Rattle.std.specs.Prelude.{◌≡◌, ◌≤◌, ◌<◌, ◌+◌, ◌-◌, ◌*◌, ◌^◌, ◌++◌, ◌∷◌, [], length, IfOk, OnOk, MatchOption, take, drop, get_or, if◌then◌else◌};
ghost use Rattle.std.specs.List.{AllByRecursion, insert, remove};
ghost use Rattle.sf_geometry.specs.Envelope.{extents_meet};
ghost use Rattle.sf_rtree.specs.Curves.{AreInOrder, IsLast, comes_before, put, taken};
ghost use Rattle.sf_rtree.specs.Nodes.{AreBranches, AreEntries, Covers, IsBranch, IsPlace, IsSized, entries_below, fewest_members, ids_among, inner_of, leaf_of, levels_below, most_members};
ghost use Rattle.sf_rtree.specs.Growths.{AreFilled, AreNodes, entries_of, nodes_of};

use crate::entry::{Entry, Key, join};
use crate::members::{MEMBERS_MAX, MEMBERS_MIN, put_member, take_half};
use sf_geometry::Extent;
use std::alloc::{AllocError, Global};
use std::marker::Model;

/// A node with all that is below it.
#[cycle(node)]
#[derive(Drop)]
pub struct Node {
    members: Members,
}

/// What a node has: entries, or further nodes, each with a box that covers all below it.
#[cycle(node)]
#[derive(Drop)]
enum Members {
    Leaf(Vec<Entry>),
    Inner(Vec<Branch>),
}

/// A node below another one, with its box and the key of its last entry.
#[cycle(node)]
#[derive(Drop)]
pub struct Branch {
    extent: Extent,
    last: Key,
    node: Node,
}

impl Model for Node {
    ghost use Rattle.sf_rtree.specs.Subtrees.{Subtree};

    ghost Value = { Subtree };

    ghost use Rattle.sf_rtree.specs.Nodes.{IsNode, subtree_of};

    ghost view = { λ a. subtree_of a.members };

    ghost invariant = { λ a. IsNode a.members };

    ghost size = { λ s. s.levels };

    ghost use Rattle.sf_rtree.specs.Falls.{levels_fall};

    ghost size_decreases = { λ a h. levels_fall a.members h };
}

impl Node {
    /// Adds the identifiers of the boxes that meet the given one.
    pub fn collect(&self, extent: &Extent, out: &mut Vec<u32>) -> Result<(), AllocError>
        ensures { OnOk result (out.new.items ≡ out.old.items ++ ids_among extent.now self.now.entries) }
    {
        match &self.members {
            Members::Leaf(entries) => {
                for entry in entries.as_slice() {
                    if entry.extent().meets(*extent) {
                        out.push(entry.id())?;
                    }
                }
                Ok(())
            }
            Members::Inner(branches) => {
                for branch in branches.as_slice() {
                    if branch.extent.meets(*extent) {
                        branch.node.collect(extent, out)?;
                    }
                }
                Ok(())
            }
        }
    }

    /// A leaf with no entry.
    pub fn new(alloc: Global) -> Node
        ensures { result.entries ≡ [] }
    {
        Node {
            members: Members::Leaf(Vec::new(alloc)),
        }
    }

    /// A leaf of entries.
    pub fn leaf(entries: Vec<Entry>) -> Node
        requires { AreEntries entries.items }
        ensures { result ≡ leaf_of entries.items }
    {
        Node {
            members: Members::Leaf(entries),
        }
    }

    /// A node over branches.
    pub fn inner(branches: Vec<Branch>) -> Node
        requires { AreBranches branches.items }
        ensures { result ≡ inner_of branches.items }
    {
        Node {
            members: Members::Inner(branches),
        }
    }

    /// How many levels there are from the node down.
    pub fn levels(&self) -> u32
        requires { length self.now.entries ≤ 2 ^ 32 }
        ensures levels { result ≡ self.now.levels }
        ensures some { 1 ≤ result }
        ensures few { length self.now.entries ≤ most_members ^ result }
        ensures enough { 1 < result → 2 * fewest_members ^ (result - 1) ≤ length self.now.entries }
    {
        match &self.members {
            Members::Leaf(_) => 1,
            Members::Inner(branches) => branches[0].node.levels() + 1,
        }
    }

    /// How many members the node has.
    fn len(&self) -> usize
        ensures { result ≡ self.now.members }
    {
        match &self.members {
            Members::Leaf(entries) => entries.len(),
            Members::Inner(branches) => branches.len(),
        }
    }

    /// A box over all entries below the node.
    fn extent(&self) -> Extent
        ensures covers { Covers result self.now.entries }
        ensures sized { IsSized self.now }
    {
        match &self.members {
            Members::Leaf(entries) => cover_entries(entries.as_slice()),
            Members::Inner(branches) => cover_branches(branches.as_slice()),
        }
    }

    /// The key of the last entry below the node.
    fn last(&self) -> Key
        requires { 1 ≤ self.now.members }
        ensures { IsLast result self.now.entries }
    {
        match &self.members {
            Members::Leaf(entries) => entries[entries.len() - 1].key(),
            Members::Inner(branches) => branches[branches.len() - 1].last,
        }
    }

    /// The branch of the node.
    pub fn into_branch(self) -> Branch
        requires { fewest_members ≤ self.members }
        ensures branch { IsBranch self.levels result }
        ensures node { result.node ≡ self }
    {
        Branch {
            extent: self.extent(),
            last: self.last(),
            node: self,
        }
    }

    /// The branch of the node, with a box and a key that are known to hold for it.
    fn into_branch_within(self, extent: Extent, last: Key) -> Branch
        requires members { fewest_members ≤ self.members }
        requires covered { Covers extent self.entries }
        requires last { IsLast last self.entries }
        ensures branch { IsBranch self.levels result }
        ensures node { result.node ≡ self }
    {
        // What holds of every node is known of this one once a field of it is read.
        let _ = &self.members;
        Branch {
            extent,
            last,
            node: self,
        }
    }

    /// One node over what came of a root.
    pub fn over(alloc: Global, grown: Grown) -> Result<Node, AllocError>
        requires filled { AreFilled grown.node.levels 0 grown }
        requires in_order { AreInOrder (entries_of (nodes_of grown)) }
        ensures { IfOk result (λ node. node.entries ≡ entries_of (nodes_of grown)) }
    {
        let Grown { node, split } = grown;
        match split {
            None => Ok(node),
            Some(second) => {
                let mut branches = Vec::with_capacity(alloc, 2)?;
                branches.push(node.into_branch())?;
                branches.push(second.into_branch())?;
                Ok(Node {
                    members: Members::Inner(branches),
                })
            }
        }
    }

    /// The node with an entry more, and a second node where its members became too many. After an
    /// Err the node is gone.
    pub fn insert(self, alloc: Global, entry: Entry) -> Result<Grown, AllocError>
        ensures { IfOk result (λ grown. AreNodes self.levels self.members (put entry self.entries) grown) }
    {
        match self.members {
            Members::Leaf(mut entries) => {
                let place = entry_place(entries.as_slice(), &entry);
                put_member(&mut entries, place, entry)?;
                split_leaf(entries)
            }
            Members::Inner(mut branches) => {
                let place = branch_place(branches.as_slice(), &entry.key());
                let branch = take_branch(alloc, &mut branches, place);
                let extent = join(&branch.extent, &entry.extent());
                let last = later(branch.last, entry.key());
                let grown = branch.node.insert(alloc, entry)?;
                put_grown(&mut branches, place, extent, last, grown)?;
                split_inner(branches)
            }
        }
    }

    /// The node without an entry of the key. It may be left with a member less than before, and one
    /// of two members may be left alone. After an Err the node is gone.
    pub fn remove(self, alloc: Global, key: Key) -> Result<Node, AllocError>
        ensures levels { IfOk result (λ node. fewest_members ≤ self.members → node.levels ≡ self.levels) }
        ensures members { IfOk result (λ node. fewest_members ≤ self.members → self.members ≤ node.members + 1) }
        ensures entries { IfOk result (λ node. node.entries ≡ taken key self.entries) }
    {
        match self.members {
            Members::Leaf(mut entries) => {
                match key_place(entries.as_slice(), &key) {
                    None => Ok(Node {
                        members: Members::Leaf(entries),
                    }),
                    Some(place) => {
                        entries.remove(place);
                        Ok(Node {
                            members: Members::Leaf(entries),
                        })
                    }
                }
            }
            Members::Inner(mut branches) => {
                let place = branch_place(branches.as_slice(), &key);
                let Branch { node, .. } = take_branch(alloc, &mut branches, place);
                let node = node.remove(alloc, key)?;
                put_back(&mut branches, place, node)?;
                Ok(over_branches(branches))
            }
        }
    }

    /// Two neighbours as one node, or as two where their members are too many for one.
    fn join(self, right: Node) -> Result<Grown, AllocError>
        requires levels { right.levels ≡ self.levels }
        requires members { 2 ≤ self.members + right.members }
        requires in_order { AreInOrder (self.entries ++ right.entries) }
        ensures { IfOk result (λ grown. AreNodes self.levels (self.members + right.members) (self.entries ++ right.entries) grown) }
    {
        match (self.members, right.members) {
            (Members::Leaf(mut entries), Members::Leaf(mut more)) => {
                entries.append(&mut more)?;
                split_leaf(entries)
            }
            (Members::Inner(mut branches), Members::Inner(mut more)) => {
                branches.append(&mut more)?;
                split_inner(branches)
            }
            _ => unreachable!(),
        }
    }
}

/// One node, or two where the members became too many for one.
#[derive(Drop)]
pub struct Grown {
    pub node: Node,
    pub split: Option<Node>,
}

/// A box over all entries.
fn cover_entries(entries: &[Entry]) -> Extent
    ensures { Covers result entries.now }
{
    let mut extent = NOWHERE;
    for entry in entries {
        extent = join(&extent, &entry.extent());
    }
    extent
}

/// A box over all entries below the branches.
fn cover_branches(branches: &[Branch]) -> Extent
    requires { AllByRecursion (λ b. Covers b.extent b.node.entries) branches.now }
    ensures { Covers result (entries_below branches.now) }
{
    let mut extent = NOWHERE;
    for branch in branches {
        extent = join(&extent, &branch.extent);
    }
    extent
}

/// A box with nothing in it.
const NOWHERE: Extent = Extent {
    min_x: i32::MAX,
    min_y: i32::MAX,
    max_x: i32::MIN,
    max_y: i32::MIN,
};

/// Where an entry goes among the entries of a leaf.
fn entry_place(entries: &[Entry], entry: &Entry) -> usize
    ensures bound { result ≤ length entries.now }
    ensures put { put entry.now entries.now ≡ insert entries.now result entry.now }
{
    let key = entry.key();
    for (place, other) in entries.iter().enumerate() {
        if !other.key().is_before(&key) {
            return place;
        }
    }
    entries.len()
}

/// Where the first entry of a key is.
fn key_place(entries: &[Entry], key: &Key) -> Option<usize>
    ensures { MatchOption result (taken key.now entries.now ≡ entries.now)
        (λ place. (place < length entries.now) × (taken key.now entries.now ≡ remove entries.now place)) }
{
    for (place, entry) in entries.iter().enumerate() {
        if entry.key().is(key) {
            return Some(place);
        }
    }
    None
}

/// The first branch whose last key isn't before the given one; else the last branch.
fn branch_place(branches: &[Branch], key: &Key) -> usize
    requires { 0 < length branches.now }
    ensures { IsPlace key.now branches.now result }
{
    for (place, branch) in branches.iter().enumerate() {
        if !branch.last.is_before(key) {
            return place;
        }
    }
    branches.len() - 1
}

/// Puts one or two nodes among the branches.
fn put_nodes(branches: &mut Vec<Branch>, place: usize, grown: Grown) -> Result<(), AllocError>
    requires within { place ≤ length branches.old.items }
    requires filled { AreFilled grown.node.levels fewest_members grown }
    requires branches { AllByRecursion (IsBranch grown.node.levels) branches.old.items }
    ensures members { OnOk result (length branches.new.items
        ≡ length branches.old.items + length (nodes_of grown)) }
    ensures branches { OnOk result (AllByRecursion (IsBranch grown.node.levels) branches.new.items) }
    ensures entries { OnOk result (entries_below branches.new.items
        ≡ entries_below (take place branches.old.items) ++ entries_of (nodes_of grown)
        ++ entries_below (drop place branches.old.items)) }
{
    let Grown { node, split } = grown;
    branches.insert(place, node.into_branch())?;
    match split {
        None => Ok(()),
        Some(second) => {
            branches.insert(place + 1, second.into_branch())?;
            Ok(())
        }
    }
}

/// The later of two keys.
fn later(a: Key, b: Key) -> Key
    ensures { result ≡ if comes_before a b then b else a }
{
    if a.is_before(&b) { b } else { a }
}

/// Takes the branch at a place. One with no entry stands there until another one is put.
fn take_branch(alloc: Global, branches: &mut Vec<Branch>, place: usize) -> Branch
    requires within { place < length branches.old.items }
    ensures branch { result ≡ get_or branches.old.items place result }
    ensures others { remove branches.new.items place ≡ remove branches.old.items place }
    ensures length { length branches.new.items ≡ length branches.old.items }
{
    let nothing = Branch {
        extent: NOWHERE,
        last: Key { place: 0, id: 0 },
        node: Node::new(alloc),
    };
    std::mem::replace(&mut branches[place], nothing)
}

/// Puts a branch in the place of the one that stands there.
fn put_branch(branches: &mut Vec<Branch>, place: usize, branch: Branch)
    requires within { place < length branches.old.items }
    ensures put { branches.new.items ≡ insert (remove branches.old.items place) place branch }
    ensures length { length branches.new.items ≡ length branches.old.items }
{
    branches[place] = branch;
}

/// Puts what came of the node of a branch in the branch's place. The box and the key are those of a
/// single node.
fn put_grown(
    branches: &mut Vec<Branch>,
    place: usize,
    extent: Extent,
    last: Key,
    grown: Grown,
) -> Result<(), AllocError>
    requires within { place < length branches.old.items }
    requires few { length branches.old.items ≤ most_members }
    requires filled { AreFilled grown.node.levels fewest_members grown }
    requires covered { Covers extent (entries_of (nodes_of grown)) }
    requires last { IsLast last (entries_of (nodes_of grown)) }
    requires branches { AllByRecursion (IsBranch grown.node.levels) (remove branches.old.items place) }
    ensures members { OnOk result (length branches.new.items + 1
        ≡ length branches.old.items + length (nodes_of grown)) }
    ensures branches { OnOk result (AllByRecursion (IsBranch grown.node.levels) branches.new.items) }
    ensures entries { OnOk result (entries_below branches.new.items
        ≡ entries_below (take place (remove branches.old.items place)) ++ entries_of (nodes_of grown)
        ++ entries_below (drop place (remove branches.old.items place))) }
{
    let Grown { node, split } = grown;
    match split {
        None => {
            put_branch(branches, place, node.into_branch_within(extent, last));
            Ok(())
        }
        Some(second) => {
            put_branch(branches, place, node.into_branch());
            put_member(branches, place + 1, second.into_branch())?;
            Ok(())
        }
    }
}

/// Puts a node in the place of a branch, joined with a neighbour where its members are too few.
fn put_back(branches: &mut Vec<Branch>, place: usize, node: Node) -> Result<(), AllocError>
    requires within { place < length branches.old.items }
    requires some { 2 ≤ length branches.old.items }
    requires members { 2 ≤ node.members }
    requires branches { AllByRecursion (IsBranch node.levels) (remove branches.old.items place) }
    requires in_order { AreInOrder (entries_below (take place (remove branches.old.items place)) ++ node.entries
        ++ entries_below (drop place (remove branches.old.items place))) }
    ensures enough { OnOk result (length branches.old.items ≤ length branches.new.items + 1) }
    ensures few { OnOk result (length branches.new.items ≤ length branches.old.items) }
    ensures branches { OnOk result (AllByRecursion (IsBranch node.levels) branches.new.items) }
    ensures entries { OnOk result (entries_below branches.new.items
        ≡ entries_below (take place (remove branches.old.items place)) ++ node.entries
        ++ entries_below (drop place (remove branches.old.items place))) }
{
    if node.len() >= MEMBERS_MIN {
        put_branch(branches, place, node.into_branch());
        return Ok(());
    }
    branches.remove(place);
    put_joined(branches, place, node)
}

/// Puts a node among the branches, joined with a neighbour.
fn put_joined(branches: &mut Vec<Branch>, place: usize, node: Node) -> Result<(), AllocError>
    requires within { place ≤ length branches.old.items }
    requires some { 1 ≤ length branches.old.items }
    requires members { 2 ≤ node.members }
    requires branches { AllByRecursion (IsBranch node.levels) branches.old.items }
    requires in_order { AreInOrder (entries_below (take place branches.old.items) ++ node.entries
        ++ entries_below (drop place branches.old.items)) }
    ensures enough { OnOk result (length branches.old.items ≤ length branches.new.items) }
    ensures few { OnOk result (length branches.new.items ≤ length branches.old.items + 1) }
    ensures branches { OnOk result (AllByRecursion (IsBranch node.levels) branches.new.items) }
    ensures entries { OnOk result (entries_below branches.new.items
        ≡ entries_below (take place branches.old.items) ++ node.entries
        ++ entries_below (drop place branches.old.items)) }
{
    if place < branches.len() {
        let Branch { node: right, .. } = branches.remove(place);
        let grown = node.join(right)?;
        return put_nodes(branches, place, grown);
    }
    let Branch { node: left, .. } = branches.remove(place - 1);
    let grown = left.join(node)?;
    put_nodes(branches, place - 1, grown)
}

/// One node of the branches: a single one is left alone.
fn over_branches(mut branches: Vec<Branch>) -> Node
    requires some { 1 ≤ length branches.items }
    requires few { length branches.items ≤ most_members }
    requires branches { AllByRecursion (IsBranch (levels_below branches.items)) branches.items }
    requires in_order { AreInOrder (entries_below branches.items) }
    ensures levels { 2 ≤ length branches.items → result.levels ≡ levels_below branches.items + 1 }
    ensures members { 2 ≤ length branches.items → result.members ≡ length branches.items }
    ensures entries { result.entries ≡ entries_below branches.items }
{
    if branches.len() == 1 {
        let Branch { node, .. } = branches.remove(0);
        return node;
    }
    Node {
        members: Members::Inner(branches),
    }
}

/// One leaf of the entries, or two where they are too many for one.
fn split_leaf(mut entries: Vec<Entry>) -> Result<Grown, AllocError>
    requires few { length entries.items ≤ 2 * most_members }
    requires in_order { AreInOrder entries.items }
    ensures { IfOk result (λ grown. AreNodes 1 (length entries.items) entries.items grown) }
{
    if entries.len() <= MEMBERS_MAX {
        return Ok(Grown {
            node: Node {
                members: Members::Leaf(entries),
            },
            split: None,
        });
    }
    let second = take_half(&mut entries)?;
    Ok(Grown {
        node: Node {
            members: Members::Leaf(entries),
        },
        split: Some(Node {
            members: Members::Leaf(second),
        }),
    })
}

/// One node of the branches, or two where they are too many for one.
fn split_inner(mut branches: Vec<Branch>) -> Result<Grown, AllocError>
    requires few { length branches.items ≤ 2 * most_members }
    requires enough { 2 ≤ length branches.items }
    requires branches { AllByRecursion (IsBranch (levels_below branches.items)) branches.items }
    requires in_order { AreInOrder (entries_below branches.items) }
    ensures { IfOk result (λ grown. AreNodes (levels_below branches.items + 1)
        (length branches.items) (entries_below branches.items) grown) }
{
    if branches.len() <= MEMBERS_MAX {
        return Ok(Grown {
            node: Node {
                members: Members::Inner(branches),
            },
            split: None,
        });
    }
    let second = take_half(&mut branches)?;
    Ok(Grown {
        node: Node {
            members: Members::Inner(branches),
        },
        split: Some(Node {
            members: Members::Inner(second),
        }),
    })
}
