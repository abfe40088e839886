//! Lists of the members of nodes. There is a node for every few entries, so a list keeps no room that its
//! node has no use for.

ghost use Rattle.std.specs.Prelude.{◌≡◌, ◌/◌, ◌≤◌, length, IfOk, OnOk, take, drop};
ghost use Rattle.std.specs.List.{insert};
ghost use Rattle.sf_rtree.specs.Nodes.{most_members};

use std::alloc::AllocError;

/// How many members a node has at most.
pub const MEMBERS_MAX: usize = 8;

/// How many members a node below another one has at least.
pub const MEMBERS_MIN: usize = 3;

/// Puts a member at a place, with room for all that a node has and the one more that splits it.
pub fn put_member<T: Drop>(members: &mut Vec<T>, place: usize, member: T) -> Result<(), AllocError>
    requires within { place ≤ length members.old.items }
    requires few { length members.old.items ≤ most_members }
    ensures { OnOk result (members.new.items ≡ insert members.old.items place member) }
{
    members.reserve_exact(MEMBERS_MAX + 1 - members.len())?;
    members.insert(place, member)?;
    Ok(())
}

/// Takes the second half of the members off, and gives back the room that it had.
pub fn take_half<T>(members: &mut Vec<T>) -> Result<Vec<T>, AllocError>
    ensures first { OnOk result (members.new.items
        ≡ take (length members.old.items / 2) members.old.items) }
    ensures second { IfOk result (λ second.
        second.items ≡ drop (length members.old.items / 2) members.old.items) }
{
    let second = members.split_off(members.len() / 2)?;
    members.shrink_to_fit();
    Ok(second)
}
