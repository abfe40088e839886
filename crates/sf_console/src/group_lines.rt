//! Groups of edits whose lines are still coming.
ghost use Rattle.std.specs.Prelude.{◌≡◌, ◌↔◌, IsTrue, ℕ, [], ◌∷◌, List, MatchOption, None, Option, OnOk, Some, option_copied, replicate, string_bytes, ◌++◌, ◌+◌, if◌then◌else◌};
ghost use Rattle.sf_commands.specs.declared.head.Head.{Head as HeadOf};
ghost use Rattle.sf_text_lines.specs.Lines.{HasNoFeed, line_max};
ghost use Rattle.sf_commands.specs.GroupTexts.{group_of, is_return};
ghost use Rattle.std.specs.List.{list_any};
ghost use Rattle.std.specs.Str.{is_utf8};
ghost use Rattle.sf_console.specs.Requests.{Closed, Comes, Gathering, Open, gathered, gathered_on, is_passed_over as is_passed_over_of, line_head, member_text as member_text_of, with_member};
ghost use Rattle.sf_console.specs.Gatherings.{Asks, IsGrown, IsHeld, IsOpen, IsUnfed, stands_alone as stands_alone_of};

use sf_commands::{Head, are_blanks, begins_as_head, head_of};
use sf_text_lines::LINE_MAX;
use std::alloc::{AllocError, Global};
use std::mem::replace;
use std::str::from_utf8;

/// The lines of a group whose last member has not come yet.
#[derive(Debug, Drop)]
pub enum GroupLines {
    /// No group is open.
    Closed,
    /// The lines so far, with carriage returns between them, and how many members are to come.
    Open { text: String, left: u16 },
    /// No memory was found for the lines. So many members are to come.
    Lost { left: u16 },
}

/// What a line asks.
#[derive(Debug, Drop)]
pub enum LineAsks {
    /// Nothing yet: it begins a group, or is within one.
    Nothing,
    /// What it says by itself.
    Itself,
    /// A group, of which it is the last member: the text of all its lines.
    Group(String),
    /// A group for whose lines no memory was found.
    Lost,
}

impl GroupLines {
    /// Takes a further line, which is None where it is too long, and says what it asks.
    pub fn take(&mut self, alloc: Global, line: Option<&[u8]>) -> LineAsks
        ensures { (gathering : Gathering) → IsHeld gathering self.old → IsUnfed (option_copied line.entry) →
            IsHeld (gathered gathering (Comes (option_copied line.entry))).0 self.new
            × Asks (option_copied line.entry) (gathered gathering (Comes (option_copied line.entry))).1 result }
    {
        let (next, asks) = replace(self, GroupLines::Closed).with_line(alloc, line);
        *self = next;
        asks
    }

    /// Whether no group is open.
    pub fn is_closed(&self) -> bool
        ensures { (gathering : Gathering) → IsHeld gathering self.now → IsTrue result ↔ (gathering ≡ Closed) }
    {
        match self {
            GroupLines::Closed => true,
            GroupLines::Open { .. } | GroupLines::Lost { .. } => false,
        }
    }

    /// Whether a line is asked by itself: no group is open, and it begins as no head.
    pub fn is_alone(&self, line: Option<&[u8]>) -> bool
        ensures value { self.now ≡ GroupLines.Closed → result ≡ stands_alone_of (option_copied line.entry) }
        ensures outside { (gathering : Gathering) → IsHeld gathering self.now → IsTrue result →
            (gathering ≡ Closed) × (line_head (option_copied line.entry) ≡ None) }
        ensures group { (bytes : List ℕ) → IsTrue result → option_copied line.entry ≡ Some bytes → group_of bytes ≡ None }
    {
        match self {
            GroupLines::Closed => stands_alone(line),
            GroupLines::Open { .. } | GroupLines::Lost { .. } => false,
        }
    }

    /// The lines with a further one, and what that asks.
    fn with_line(self, alloc: Global, line: Option<&[u8]>) -> (GroupLines, LineAsks)
        ensures { (gathering : Gathering) → IsHeld gathering self → IsUnfed (option_copied line.entry) →
            IsHeld (gathered gathering (Comes (option_copied line.entry))).0 result.0
            × Asks (option_copied line.entry) (gathered gathering (Comes (option_copied line.entry))).1 result.1 }
    {
        match self {
            GroupLines::Closed => begun(alloc, line),
            GroupLines::Open { text, left } => grown(text, left, line),
            GroupLines::Lost { left } => lost(left, line),
        }
    }
}

/// Whether a line is neither a head nor a group, as its first byte tells of most lines.
fn stands_alone(line: Option<&[u8]>) -> bool
    ensures value { result ≡ stands_alone_of (option_copied line.entry) }
    ensures head { IsTrue result → line_head (option_copied line.entry) ≡ None }
    ensures group { (bytes : List ℕ) → IsTrue result → option_copied line.entry ≡ Some bytes → group_of bytes ≡ None }
{
    match line {
        Some(bytes) => !begins_as_head(bytes),
        None => true,
    }
}

/// What a line leaves that stands outside of groups, and what it asks.
fn begun(alloc: Global, line: Option<&[u8]>) -> (GroupLines, LineAsks)
    ensures { IsUnfed (option_copied line.entry) → IsHeld (gathered Closed (Comes (option_copied line.entry))).0 result.0
        × Asks (option_copied line.entry) (gathered Closed (Comes (option_copied line.entry))).1 result.1 }
{
    match head_in(line) {
        None => (GroupLines::Closed, LineAsks::Itself),
        Some((text, head)) => (opened(alloc, text, head.members), LineAsks::Nothing),
    }
}

/// The head of a group that a line is, behind its text.
fn head_in(line: Option<&[u8]>) -> Option<(&str, Head)>
    ensures { MatchOption result
        (line_head (option_copied line.entry) ≡ None)
        (λ head. (option_copied line.entry ≡ Some head.0.now) × (line_head (option_copied line.entry) ≡ Some head.1)) }
{
    match line {
        Some(bytes) => head_of_bytes(bytes),
        None => None,
    }
}

/// The same of the bytes of a line.
fn head_of_bytes(bytes: &[u8]) -> Option<(&str, Head)>
    ensures { MatchOption result
        (line_head (Some bytes.now) ≡ None)
        (λ head. (bytes.now ≡ head.0.now) × (line_head (Some bytes.now) ≡ Some head.1)) }
{
    if begins_as_head(bytes) {
        head_of_text(bytes)
    } else {
        None
    }
}

/// The same, where the bytes are a text.
fn head_of_text(bytes: &[u8]) -> Option<(&str, Head)>
    ensures { MatchOption result
        (line_head (Some bytes.now) ≡ None)
        (λ head. (bytes.now ≡ head.0.now) × (line_head (Some bytes.now) ≡ Some head.1)) }
{
    let Ok(text) = from_utf8(bytes) else {
        return None;
    };
    match head_of(text) {
        Some(head) => Some((text, head)),
        None => None,
    }
}

/// A group of which the head alone has come.
fn opened(alloc: Global, text: &str, members: u16) -> GroupLines
    ensures { (head : HeadOf) → line_head (Some text.now) ≡ Some head → head.members ≡ members → HasNoFeed text.now → IsHeld (Open text.now members) result }
{
    match String::from_str(alloc, text) {
        Ok(text) => GroupLines::Open {
            text,
            left: members,
        },
        Err(_) => GroupLines::Lost { left: members },
    }
}

/// What a line leaves of an open group, and what it asks.
fn grown(text: String, left: u16, line: Option<&[u8]>) -> (GroupLines, LineAsks)
    ensures { IsOpen (string_bytes text) left → IsUnfed (option_copied line.entry) →
        IsHeld (gathered (Open (string_bytes text) left) (Comes (option_copied line.entry))).0 result.0
        × Asks (option_copied line.entry) (gathered (Open (string_bytes text) left) (Comes (option_copied line.entry))).1 result.1 }
{
    if is_passed_over(line) {
        return (GroupLines::Open { text, left }, LineAsks::Nothing);
    }
    let mut text = text;
    match push_member(&mut text, line) {
        Ok(()) => with_fewer(text, left.saturating_sub(1)),
        Err(_) => lost_with_fewer(left.saturating_sub(1)),
    }
}

/// A group behind a further member, where so many more are to come.
fn with_fewer(text: String, left: u16) -> (GroupLines, LineAsks)
    ensures { IsGrown (string_bytes text) left →
        IsHeld (gathered_on (string_bytes text) left).0 result.0 × ((line : Option (List ℕ)) → Asks line (gathered_on (string_bytes text) left).1 result.1) }
{
    if left == 0 {
        (GroupLines::Closed, LineAsks::Group(text))
    } else {
        (GroupLines::Open { text, left }, LineAsks::Nothing)
    }
}

/// What a line leaves of a group whose lines were lost, and what it asks.
fn lost(left: u16, line: Option<&[u8]>) -> (GroupLines, LineAsks)
    ensures { (text : List ℕ) → IsOpen text left → IsUnfed (option_copied line.entry) →
        IsHeld (gathered (Open text left) (Comes (option_copied line.entry))).0 result.0
        × Asks (option_copied line.entry) (gathered (Open text left) (Comes (option_copied line.entry))).1 result.1 }
{
    if is_passed_over(line) {
        (GroupLines::Lost { left }, LineAsks::Nothing)
    } else {
        lost_with_fewer(left.saturating_sub(1))
    }
}

/// A group whose lines were lost, behind a further member, where so many more are to come.
fn lost_with_fewer(left: u16) -> (GroupLines, LineAsks)
    ensures { (text : List ℕ) → IsGrown text left →
        IsHeld (gathered_on text left).0 result.0 × ((line : Option (List ℕ)) → Asks line (gathered_on text left).1 result.1) }
{
    if left == 0 {
        (GroupLines::Closed, LineAsks::Lost)
    } else {
        (GroupLines::Lost { left }, LineAsks::Nothing)
    }
}

/// Whether a line of a group is passed over, since it has blanks alone.
fn is_passed_over(line: Option<&[u8]>) -> bool
    ensures { result ≡ is_passed_over_of (option_copied line.entry) }
{
    match line {
        Some(bytes) => is_blank_line(bytes),
        None => false,
    }
}

/// Whether bytes are a text that has blanks alone.
fn is_blank_line(bytes: &[u8]) -> bool
    ensures { result ≡ is_passed_over_of (Some bytes.now) }
{
    // The first byte of most lines tells that they have more than blanks.
    are_blanks(bytes) && is_text(bytes)
}

/// Whether bytes are UTF-8.
fn is_text(bytes: &[u8]) -> bool
    ensures { result ≡ is_utf8 bytes.now }
{
    match from_utf8(bytes) {
        Ok(_) => true,
        Err(_) => false,
    }
}

/// Puts a further member behind the lines of a group.
fn push_member(text: &mut String, line: Option<&[u8]>) -> Result<(), AllocError>
    ensures { OnOk result (string_bytes text.new ≡ with_member (string_bytes text.old) (option_copied line.entry)) }
{
    text.push_str("\r")?;
    push_line(text, line)
}

/// Puts a line behind a text, as the text of a member.
fn push_line(text: &mut String, line: Option<&[u8]>) -> Result<(), AllocError>
    ensures { OnOk result (string_bytes text.new ≡ string_bytes text.old ++ member_text_of (option_copied line.entry)) }
{
    match line {
        Some(bytes) => text.push_str(member_text(bytes)),
        None => push_too_many_blanks(text),
    }
}

/// The text of a member that bytes are; nothing where they are none.
fn member_text(bytes: &[u8]) -> &str
    ensures { result.now ≡ member_text_of (Some bytes.now) }
{
    match from_utf8(bytes) {
        Ok(text) => unless_returned(text),
        Err(_) => "",
    }
}

/// A text, or nothing where it has a carriage return.
fn unless_returned(text: &str) -> &str
    ensures { result.now ≡ (if list_any is_return text.now then [] else text.now) }
{
    if has_return(text) { "" } else { text }
}

/// Whether a text has a carriage return.
fn has_return(text: &str) -> bool
    ensures { result ≡ list_any is_return text.now }
{
    text.as_bytes().iter().any(|byte| *byte == b'\r')
}

/// Puts more blanks behind a text than a line may have bytes.
fn push_too_many_blanks(text: &mut String) -> Result<(), AllocError>
    ensures { OnOk result (string_bytes text.new ≡ string_bytes text.old ++ replicate (line_max + 1) 32) }
{
    for _ in 0..LINE_MAX + 1 {
        push_blank(text)?;
    }
    Ok(())
}

fn push_blank(text: &mut String) -> Result<(), AllocError>
    ensures { OnOk result (string_bytes text.new ≡ string_bytes text.old ++ 32 ∷ []) }
{
    text.push_str(" ")
}
