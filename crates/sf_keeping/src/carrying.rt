//! A text carried out, and whether it is one to be kept.
ghost use Rattle.std.specs.Prelude.{◌≡◌, ◌≢◌, IsTrue, List, Ok, Result, false};
ghost use Rattle.sf_console.specs.Carried.{GroupRefusal as GroupRefusalOf, Member, OrNoMemory};
ghost use Rattle.sf_keeping.specs.Outcomes.{Becomes, BecomesGrouped, IsOutcome};

use sf_console::{
    Answer, Command, Editor, Group, GroupRefusal, Reply, StepRefusal, carry_out_group, execute,
    is_blank_text, parse, parse_group, refused, refused_by_rules, refused_step,
};
use sf_refusals::Refusal;
use std::alloc::Global;
use std::str::from_utf8;

/// What became of a text.
#[derive(Drop)]
pub(crate) enum Outcome {
    /// It was accepted as an edit, a rule that is added or dropped, an undo or a redo.
    Changed(Answer),
    /// It was accepted as a group, and this is the line that answers it.
    Grouped(Vec<u8>),
    /// It changed nothing, and this is its reply.
    Told(Result<Reply, Refusal>),
}

/// Carries out a text.
pub(crate) fn carry_out(alloc: Global, editor: &mut Editor, bytes: &[u8]) -> Outcome
    ensures { IsOutcome editor.old bytes.now result editor.new }
{
    let Ok(text) = from_utf8(bytes) else {
        return Outcome::Told(Err(Refusal::BadCommand));
    };
    if is_blank_text(text) {
        return Outcome::Told(Ok(Reply::Nothing));
    }
    if let Some((asker, group)) = parse_group(alloc, text) {
        return carry_out_members(alloc, editor, asker, group);
    }
    match parse(alloc, text) {
        Ok((asker, command)) => carry_out_command(alloc, editor, asker, command),
        Err(refusal) => Outcome::Told(Err(refusal)),
    }
}

/// Carries out a group of the editor of that number, where its text is one.
fn carry_out_members(
    alloc: Global,
    editor: &mut Editor,
    asker: u8,
    group: Result<Group, GroupRefusal>,
) -> Outcome
    ensures { (expected : Result (List Member) GroupRefusalOf) → OrNoMemory expected group →
        BecomesGrouped editor.old asker expected result editor.new }
{
    match group {
        Ok(group) => match carry_out_group(alloc, editor, asker, group) {
            Ok(answer) => Outcome::Grouped(answer),
            Err(refusal) if wants_memory(&refusal) => Outcome::Told(Err(Refusal::Memory)),
            Err(refusal) => Outcome::Told(refused_by_rules(alloc, editor.rules(), refusal)),
        },
        Err(GroupRefusal::Memory) => Outcome::Told(Err(Refusal::Memory)),
        Err(refusal) => Outcome::Told(refused(refusal)),
    }
}

/// Whether a step found no memory. A journal is told so that has its text, in the place of a text that is not accepted.
fn wants_memory(refusal: &StepRefusal) -> bool
    ensures is { IsTrue result → refusal.now ≡ StepRefusal.Memory }
    ensures none { result ≡ false → refusal.now ≢ StepRefusal.Memory }
{
    matches!(refusal, StepRefusal::Memory)
}

/// Carries out a command of the editor of that number.
fn carry_out_command(alloc: Global, editor: &mut Editor, asker: u8, command: Command) -> Outcome
    ensures { Becomes editor.old asker command result editor.new }
{
    match command {
        Command::Edit(edit) => match editor.edit_as(alloc, asker, edit) {
            Ok(answer) => Outcome::Changed(answer),
            Err(refusal) if wants_memory(&refusal) => Outcome::Told(Err(Refusal::Memory)),
            Err(refusal) => Outcome::Told(refused_by_rules(alloc, editor.rules(), refusal)),
        },
        Command::AddRule(rule) => match editor.add_rule_as(alloc, asker, rule.into_rule()) {
            Ok(()) => Outcome::Changed(Answer::Done),
            Err((_, refusal)) if wants_memory(&refusal) => Outcome::Told(Err(Refusal::Memory)),
            Err((rule, refusal)) => {
                Outcome::Told(refused_step(alloc, rule.name.as_str(), refusal))
            }
        },
        Command::DropRule(name) => match editor.drop_rule_as(asker, name.as_str()) {
            Ok(()) => Outcome::Changed(Answer::Done),
            Err(refusal) if wants_memory(&refusal) => Outcome::Told(Err(Refusal::Memory)),
            Err(refusal) => Outcome::Told(refused_step(alloc, name.as_str(), refusal)),
        },
        Command::Undo => match editor.undo_as(alloc, asker) {
            Ok(()) => Outcome::Changed(Answer::Done),
            Err(refusal) => Outcome::Told(Err(refusal)),
        },
        Command::Redo => match editor.redo_as(alloc, asker) {
            Ok(()) => Outcome::Changed(Answer::Done),
            Err(refusal) => Outcome::Told(Err(refusal)),
        },
        question => Outcome::Told(execute(alloc, editor, asker, question)),
    }
}
