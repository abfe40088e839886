//! Several edits on one text: a head, and members behind it, with carriage returns between them.
ghost use Rattle.std.specs.Prelude.{◌≡◌, [], ◌∷◌, List, MatchOption, MatchResult, None, Some, Ok, Err, Result, length};
ghost use Rattle.sf_groups.specs.declared.member.Member.{Member};
ghost use Rattle.sf_commands.specs.Commands.{OrMemory};
ghost use Rattle.sf_commands.specs.GroupTexts.{group_of, members_behind, members_of, placed, refusal_of_member, refusal_of_not_taken, OrNoMemory, WasPlaced};
ghost use Rattle.sf_commands.specs.Members.{member_of};
ghost use Rattle.sf_words.specs.Parts.{parts_of};

use super::head::{begins_as_head, head_of};
use super::members::parse_member;
use sf_groups::{Group, Member, NotTaken};
use sf_refusals::Refusal;
use sf_words::{parts_count, split_part};
use std::alloc::Global;

/// Why the texts of members are no group.
#[derive(Clone, Copy, Debug, PartialEq, Eq)]
pub enum GroupRefusal {
    /// The first member that its text alone refuses, by its number from 1, and why.
    Member { number: usize, refusal: Refusal },
    /// No memory was found.
    Memory,
}

/// The group that a text is, where it is one: whose step it is, and its members, as many as its head says. None where the
/// text is no group.
///
/// # Errors
///
/// Of the members: the first one that its text alone refuses, `BadCommand` for one that may not stand there, or that
/// no memory was found.
pub fn parse_group(alloc: Global, text: &str) -> Option<(u8, Result<Group, GroupRefusal>)>
    ensures { MatchOption result
        (group_of text.now ≡ None)
        (λ group. (expected : Result (List Member) GroupRefusal) × (group_of text.now ≡ Some (group.0, expected))
        × OrNoMemory expected group.1) }
{
    if begins_as_head(text.as_bytes()) {
        split_group(alloc, text)
    } else {
        None
    }
}

/// The same of a text that is searched for a carriage return.
fn split_group(alloc: Global, text: &str) -> Option<(u8, Result<Group, GroupRefusal>)>
    ensures { MatchOption result
        (group_of text.now ≡ None)
        (λ group. (expected : Result (List Member) GroupRefusal) × (group_of text.now ≡ Some (group.0, expected))
        × OrNoMemory expected group.1) }
{
    let (head, members) = split_part(text)?;
    let head = head_of(head)?;
    let group = group_of_parts(alloc, members);
    if members_count(&group, members) != usize::from(head.members) {
        return None;
    }
    Some((head.editor, group))
}

/// How many parts a text has, of which this came: where it is a group, as many as members.
fn members_count(group: &Result<Group, GroupRefusal>, text: &str) -> usize
    ensures { OrNoMemory (members_behind [] (parts_of text.now)) group.now → result ≡ length (parts_of text.now) }
{
    match group {
        Ok(group) => group.members().len(),
        Err(_) => parts_count(text),
    }
}

/// The members of a text, which stand behind its first carriage return; none where it has none.
///
/// # Errors
///
/// The first one that its text alone refuses, `BadCommand` for one that may not stand there, or that no memory was found.
pub fn parse_members(alloc: Global, text: &str) -> Result<Group, GroupRefusal>
    ensures { OrNoMemory (members_of text.now) result }
{
    match split_part(text) {
        Some((_, members)) => group_of_parts(alloc, members),
        None => Ok(Group::new(alloc)),
    }
}

/// The members that the parts of a text spell, between carriage returns.
fn group_of_parts(alloc: Global, text: &str) -> Result<Group, GroupRefusal>
    ensures { OrNoMemory (members_behind [] (parts_of text.now)) result }
{
    let mut group = Group::new(alloc);
    let mut rest = text;
    while let Some((member, more)) = split_part(rest) {
        push_member(alloc, &mut group, member)?;
        rest = more;
    }
    push_member(alloc, &mut group, rest)?;
    Ok(group)
}

/// Puts the member of a text behind others.
fn push_member(alloc: Global, group: &mut Group, text: &str) -> Result<(), GroupRefusal>
    ensures { MatchResult result
        (λ _. members_behind group.old (text.now ∷ []) ≡ Ok group.new)
        (λ refusal. OrNoMemory (members_behind group.old (text.now ∷ [])) (Err refusal)) }
{
    let number = group.members().len() + 1;
    take_text(alloc, group, text).map_err(|refusal| refused(number, refusal))
}

/// Takes the member of a text, where it may stand behind the others.
fn take_text(alloc: Global, group: &mut Group, text: &str) -> Result<(), Refusal>
    ensures { MatchResult result
        (λ _. WasPlaced group.old (member_of text.now) group.new)
        (λ refusal. OrMemory (placed group.old (member_of text.now)) (Err refusal)) }
{
    let member = parse_member(alloc, text)?;
    take_member(alloc, group, member)
}

/// Takes a member, where it may stand behind the others.
fn take_member(alloc: Global, group: &mut Group, member: Member) -> Result<(), Refusal>
    ensures { MatchResult result
        (λ _. WasPlaced group.old (Ok member) group.new)
        (λ refusal. OrMemory (placed group.old (Ok member)) (Err refusal)) }
{
    match group.push(alloc, member) {
        Ok(()) => Ok(()),
        Err(not_taken) => Err(why_not_taken(&not_taken)),
    }
}

/// Why a member was not taken.
fn why_not_taken(not_taken: &NotTaken) -> Refusal
    ensures { result ≡ refusal_of_not_taken not_taken.now }
{
    match not_taken {
        NotTaken::Misplaced(_) => Refusal::BadCommand,
        NotTaken::Memory(_) => Refusal::Memory,
    }
}

/// The refusal of a member: that no memory was found is no fault of its text.
fn refused(number: usize, refusal: Refusal) -> GroupRefusal
    ensures { result ≡ refusal_of_member number refusal }
{
    match refusal {
        Refusal::Memory => GroupRefusal::Memory,
        refusal => GroupRefusal::Member { number, refusal },
    }
}
