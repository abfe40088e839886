//! Groups of edits carried out, and the texts of their answers.
ghost use Rattle.std.specs.Prelude.{◌≡◌, ◌≤◌, ◌+◌, ◌*◌, ◌++◌, ◌⊎◌, ℕ, [], List, Ok, Result, codes, decimal, flat_map, length, vec_capacity, Err, IfErr, IfOk, OnErr};
ghost use Rattle.sf_groups.specs.declared.member.Member.{Member as GroupMember};
ghost use Rattle.sf_commands.specs.declared.group_text.GroupRefusal.{GroupRefusal as GroupRefusalOf};
ghost use Rattle.sf_commands.specs.GroupTexts.{OrNoMemory, members_of};
ghost use Rattle.sf_history.specs.History.{grouped};
ghost use Rattle.sf_console.specs.Answers.{cut_line, group_refusal_line, identifiers_line, refusal_line, reply_text};
ghost use Rattle.sf_console.specs.Readings.{Grouped};
ghost use Rattle.sf_console.specs.Session.{IsAnswered};

use super::one_line::AnswerLine;
use super::reply::Reply;
use super::rules::refused_by_rules;
use sf_commands::{GroupRefusal, parse_members};
use sf_groups::Group;
use sf_history::{Editor, StepRefusal};
use sf_refusals::Refusal;
use std::alloc::{AllocError, Global};

/// How many bytes the answer of an accepted group has beside its identifiers: `ok` and a line feed.
const ACCEPTED_LEN: usize = 3;

/// How many bytes an identifier has at most in the answer: a blank and ten digits.
const IDENTIFIER_MAX: usize = 11;

/// Answers a group of the editor of that number, or why its text is none.
pub(crate) fn answer_group(
    alloc: Global,
    editor: &mut Editor,
    asker: u8,
    group: Result<Group, GroupRefusal>,
) -> Result<Reply, Refusal>
    ensures { (expected : Result (List GroupMember) GroupRefusalOf) → OrNoMemory expected group →
        IsAnswered editor.old (Grouped asker expected) (reply_text result) editor.new }
{
    match group {
        Ok(group) => execute_group(alloc, editor, asker, group),
        Err(refusal) => refused(refusal),
    }
}

/// Answers a group that the end of the input cut off. So much of its text has come.
pub(crate) fn answer_cut(alloc: Global, text: &str) -> Result<Reply, Refusal>
    ensures { (reply_text result ≡ cut_line (members_of text.now)) ⊎ (reply_text result ≡ refusal_line Refusal.Memory) }
{
    match parse_members(alloc, text) {
        Ok(_) => Err(Refusal::Unfinished),
        Err(refusal) => refused(refusal),
    }
}

/// The reply to a refused group.
pub fn refused(refusal: GroupRefusal) -> Result<Reply, Refusal>
    ensures { reply_text result ≡ group_refusal_line refusal }
{
    match refusal {
        GroupRefusal::Member { number, refusal } => Ok(Reply::MemberRefused(number, refusal)),
        GroupRefusal::Memory => Err(Refusal::Memory),
    }
}

/// Carries a group out, of the editor of that number.
fn execute_group(
    alloc: Global,
    editor: &mut Editor,
    asker: u8,
    group: Group,
) -> Result<Reply, Refusal>
    ensures { IsAnswered editor.old (Grouped asker (Ok group)) (reply_text result) editor.new }
{
    match carry_out_group(alloc, editor, asker, group) {
        Ok(answer) => Ok(Reply::Identifiers(answer)),
        Err(refusal) => refused_by_rules(alloc, editor.rules(), refusal),
    }
}

/// Carries a group out, as one step of the editor of that number, and gives the line that answers it.
///
/// # Errors
///
/// The first member that is refused, then the first rule that would be broken; or `Memory`. Nothing is changed then.
pub fn carry_out_group(
    alloc: Global,
    editor: &mut Editor,
    asker: u8,
    group: Group,
) -> Result<Vec<u8>, StepRefusal>
    ensures accepted { IfOk result (λ answer. (ids : List ℕ) × (grouped asker editor.old group ≡ Ok (editor.new, ids)) × (answer.items ≡ identifiers_line ids)) }
    ensures refused { IfErr result (λ refusal. (grouped asker editor.old group ≡ Err refusal) ⊎ (refusal ≡ StepRefusal.Memory)) }
    ensures unchanged { OnErr result (editor.new ≡ editor.old) }
{
    let Ok(mut answer) = room_for(alloc, group.members().len()) else {
        return Err(StepRefusal::Memory);
    };
    match editor.group_as(alloc, asker, group) {
        Ok(ids) => {
            write_identifiers(&mut answer, ids.as_slice());
            Ok(answer)
        }
        Err(refusal) => Err(refusal),
    }
}

/// Room for the answer of a group of so many members.
fn room_for(alloc: Global, members: usize) -> Result<Vec<u8>, AllocError>
    ensures empty { IfOk result (λ answer. answer.items ≡ []) }
    ensures room { IfOk result (λ answer. ACCEPTED_LEN + IDENTIFIER_MAX * members ≤ vec_capacity answer) }
{
    let identifiers = members.checked_mul(IDENTIFIER_MAX).ok_or(AllocError)?;
    let room = identifiers.checked_add(ACCEPTED_LEN).ok_or(AllocError)?;
    Vec::with_capacity(alloc, room)
}

/// Writes the answer of an accepted group. There is room for it.
fn write_identifiers(answer: &mut Vec<u8>, ids: &[u32])
    requires empty { answer.old.items ≡ [] }
    requires room { ACCEPTED_LEN + IDENTIFIER_MAX * length ids.now ≤ vec_capacity answer.old }
    ensures { answer.new.items ≡ identifiers_line ids.now }
{
    answer.extend_from_slice(b"ok").unwrap();
    push_identifiers(answer, ids);
    answer.push(b'\n').unwrap();
}

/// Puts identifiers behind a text, in order. There is room for them.
fn push_identifiers(text: &mut Vec<u8>, ids: &[u32])
    requires { length text.old.items + IDENTIFIER_MAX * length ids.now ≤ vec_capacity text.old }
    ensures ids { text.new.items ≡ text.old.items ++ flat_map (λ id. codes " " ++ decimal id) ids.now }
    ensures len { length text.new.items ≤ length text.old.items + IDENTIFIER_MAX * length ids.now }
    ensures room { vec_capacity text.old ≤ vec_capacity text.new }
{
    for id in ids {
        text.extend_from_slice(AnswerLine::identifier(*id).as_bytes())
            .unwrap();
    }
}
