//! Rules added, dropped and listed, and the answers to steps that would break one.
ghost use Rattle.std.specs.Prelude.{◌≡◌, ◌++◌, ◌⊎◌, codes, false, map, string_bytes, IfOk, Ok, OnOk};
ghost use Rattle.sf_known.specs.Patterns.{pattern_text};
ghost use Rattle.sf_commands.specs.declared.command.Command.TheVariants as commands;
ghost use Rattle.sf_console.specs.Answers.{IsSaidAlways, broken_line as broken_line_of, line, refusal_line, reply_text, rows, step_refusal_line};
ghost use Rattle.sf_console.specs.Readings.{Asked};
ghost use Rattle.sf_console.specs.RuleRows.{ask_word, pair_ask_words, between_words, break_words, broken_name as broken_name_of, demand_words as demand_words_of, form_words as form_words_of, from_words, front_words, list_words, named_words, rule_name as rule_name_of, rule_row, said_words, second_words as second_words_of, to_words, values_words};
ghost use Rattle.sf_console.specs.Session.{IsAnswered};

use super::reply::Reply;
use sf_distance::writing::push_reach;
use sf_history::{
    Break, Demand, Editor, Form, LayerRule, Rule, Rules, Says, StepRefusal, ValueRule,
};
use sf_known::Letter;
use sf_layers::{AttrValue, Text, ValueRange};
use sf_near::PairAsk;
use sf_query::Ask;
use sf_refusals::Refusal;
use sf_steps::Answer;
use sf_values::push_value;
use std::alloc::{AllocError, Global};

/// Adds a rule, as a step of the editor of that number.
pub(crate) fn add_rule(
    alloc: Global,
    editor: &mut Editor,
    asker: u8,
    rule: Rule,
) -> Result<Reply, Refusal>
    ensures { IsAnswered editor.old (Asked false (Ok (asker, commands.AddRule rule))) (reply_text result) editor.new }
{
    match editor.add_rule_as(alloc, asker, rule) {
        Ok(()) => Ok(Reply::Accepted(Answer::Done)),
        Err((rule, refusal)) => refused_step(alloc, rule.name.as_str(), refusal),
    }
}

/// Drops the rule of a name, as a step of the editor of that number.
pub(crate) fn drop_rule(
    alloc: Global,
    editor: &mut Editor,
    asker: u8,
    name: &Text,
) -> Result<Reply, Refusal>
    ensures { IsAnswered editor.old (Asked false (Ok (asker, commands.DropRule name.now))) (reply_text result) editor.new }
{
    match editor.drop_rule_as(asker, name.as_str()) {
        Ok(()) => Ok(Reply::Accepted(Answer::Done)),
        Err(refusal) => refused_step(alloc, name.as_str(), refusal),
    }
}

/// The rules, in the order in which they were added.
pub(crate) fn rules(alloc: Global, rules: &Rules) -> Result<Reply, Refusal>
    ensures { (reply_text result ≡ rows (map rule_row rules.now)) ⊎ (reply_text result ≡ refusal_line Refusal.Memory) }
{
    Ok(Reply::Lines(rule_rows(alloc, rules.as_slice())?))
}

/// The reply to a step that is refused under these rules. Only the line of a rule that would be broken takes memory.
pub fn refused_by_rules(
    alloc: Global,
    rules: &Rules,
    refusal: StepRefusal,
) -> Result<Reply, Refusal>
    ensures said { (reply_text result ≡ step_refusal_line (broken_name_of rules.now refusal) refusal) ⊎ (reply_text result ≡ refusal_line Refusal.Memory) }
    ensures always { IsSaidAlways refusal → reply_text result ≡ step_refusal_line (broken_name_of rules.now refusal) refusal }
{
    let name = broken_name(rules.as_slice(), &refusal);
    refused_step(alloc, name, refusal)
}

/// The name of the rule that a step would break, or no text where it would break none.
fn broken_name<'a>(rules: &'a [Rule], refusal: &StepRefusal) -> &'a str
    ensures { result.now ≡ broken_name_of rules.now refusal.now }
{
    match refusal {
        StepRefusal::RuleBroken(broken) => rule_name(rules, broken.place),
        _ => "",
    }
}

/// The name of the rule at a place, or no text where none stands there.
fn rule_name(rules: &[Rule], place: usize) -> &str
    ensures { result.now ≡ rule_name_of rules.now place }
{
    match rules.get(place) {
        Some(rule) => rule.name.as_str(),
        None => "",
    }
}

/// The reply to a step that is refused. The name is that of the rule that it would break, where it would break one; only the line
/// of such a rule takes memory.
pub fn refused_step(alloc: Global, name: &str, refusal: StepRefusal) -> Result<Reply, Refusal>
    ensures said { (reply_text result ≡ step_refusal_line name.now refusal) ⊎ (reply_text result ≡ refusal_line Refusal.Memory) }
    ensures always { IsSaidAlways refusal → reply_text result ≡ step_refusal_line name.now refusal }
{
    match refusal {
        StepRefusal::ByEdit(refusal) => Err(refusal.into()),
        StepRefusal::ByMember { number, refusal } => {
            Ok(Reply::MemberRefused(number, refusal.into()))
        }
        StepRefusal::RuleBroken(broken) => {
            Ok(Reply::Lines(broken_line(alloc, name, &broken.least)?))
        }
        StepRefusal::NoRule => Err(Refusal::NoRule),
        StepRefusal::RuleExists => Err(Refusal::RuleExists),
        StepRefusal::LayerRuled => Err(Refusal::LayerRuled),
        StepRefusal::ColumnRuled => Err(Refusal::ColumnRuled),
        StepRefusal::BadName => Err(Refusal::BadName),
        StepRefusal::NoLayer => Err(Refusal::NoLayer),
        StepRefusal::NoColumn => Err(Refusal::NoColumn),
        StepRefusal::WrongValue => Err(Refusal::WrongValue),
        StepRefusal::TooManyRules => Err(Refusal::IdsExhausted),
        StepRefusal::Memory => Err(Refusal::Memory),
    }
}

/// The line of a step that would break the rule of a name: with the features that would.
fn broken_line(alloc: Global, name: &str, least: &Break) -> Result<String, AllocError>
    ensures { IfOk result (λ text. string_bytes text ≡ broken_line_of name.now least.now) }
{
    let mut text = String::new(alloc);
    write!(
        text,
        "refused {} {} {name}",
        Refusal::RuleBroken.number(),
        Refusal::RuleBroken.name()
    )?;
    push_break(&mut text, least)?;
    text.push('\n')?;
    Ok(text)
}

/// The features that break a rule.
fn push_break(text: &mut String, least: &Break) -> Result<(), AllocError>
    ensures { OnOk result (string_bytes text.new ≡ string_bytes text.old ++ break_words least.now) }
{
    match least {
        Break::Pair { first, second } => write!(text, " {first} {second}"),
        Break::Alone { id } => write!(text, " {id}"),
    }
}

/// A row for each rule, in order.
fn rule_rows(alloc: Global, rules: &[Rule]) -> Result<String, AllocError>
    ensures { IfOk result (λ text. string_bytes text ≡ rows (map rule_row rules.now)) }
{
    let mut text = String::new(alloc);
    writeln!(text, "rows {}", rules.len())?;
    for rule in rules {
        push_rule(&mut text, rule)?;
    }
    Ok(text)
}

/// The row of a rule, with its line feed.
fn push_rule(text: &mut String, rule: &Rule) -> Result<(), AllocError>
    ensures { OnOk result (string_bytes text.new ≡ string_bytes text.old ++ line (rule_row rule.now)) }
{
    text.push_str(rule.name.as_str())?;
    push_said(text, &rule.says)?;
    text.push('\n')
}

/// What a rule says.
fn push_said(text: &mut String, says: &Says) -> Result<(), AllocError>
    ensures { OnOk result (string_bytes text.new ≡ string_bytes text.old ++ said_words says.now) }
{
    match says {
        Says::OfLayers(rule) => push_between(text, rule),
        Says::OfValues(rule) => push_values(text, rule),
    }
}

/// What a rule between layers says.
fn push_between(text: &mut String, rule: &LayerRule) -> Result<(), AllocError>
    ensures { OnOk result (string_bytes text.new ≡ string_bytes text.old ++ between_words rule.now) }
{
    push_front(text, rule)?;
    push_pair_ask(text, &rule.ask)?;
    text.push_str(second_words(rule.form))?;
    text.push_str(rule.second.as_str())
}

/// What stands in the row of a rule between layers before what is asked.
fn push_front(text: &mut String, rule: &LayerRule) -> Result<(), AllocError>
    ensures { OnOk result (string_bytes text.new ≡ string_bytes text.old ++ front_words rule.now) }
{
    text.push_str(form_words(rule.form))?;
    text.push_str(rule.first.as_str())?;
    text.push(' ')
}

/// What a rule on values says.
fn push_values(text: &mut String, rule: &ValueRule) -> Result<(), AllocError>
    ensures { OnOk result (string_bytes text.new ≡ string_bytes text.old ++ values_words rule.now) }
{
    text.push_str(demand_words(&rule.demand))?;
    text.push_str(rule.layer.as_str())?;
    text.push(' ')?;
    text.push_str(rule.column.as_str())?;
    push_named(text, &rule.demand)
}

/// The word of a demand, with the blanks around it.
fn demand_words(demand: &Demand) -> &'static str
    ensures { result.now ≡ demand_words_of demand.now }
{
    match demand {
        Demand::Unique => " unique ",
        Demand::Required => " required ",
        Demand::OneOf(_) => " one-of ",
        Demand::InRange(_) => " range ",
    }
}

/// The values that a demand names, as they stand behind the column.
fn push_named(text: &mut String, demand: &Demand) -> Result<(), AllocError>
    ensures { OnOk result (string_bytes text.new ≡ string_bytes text.old ++ named_words demand.now) }
{
    match demand {
        Demand::Unique | Demand::Required => Ok(()),
        Demand::OneOf(allowed) => push_list(text, allowed.as_slice()),
        Demand::InRange(range) => push_range(text, range.range()),
    }
}

/// The values of a list, a blank before the first of them and a comma before each other.
fn push_list(text: &mut String, values: &[AttrValue]) -> Result<(), AllocError>
    ensures { OnOk result (string_bytes text.new ≡ string_bytes text.old ++ list_words (codes " ") values.now) }
{
    let mut before = " ";
    for value in values {
        text.push_str(before)?;
        push_value(text, value)?;
        before = ", ";
    }
    Ok(())
}

/// The ends of a range, where they are given, around `to`.
fn push_range(text: &mut String, range: &ValueRange) -> Result<(), AllocError>
    ensures { OnOk result (string_bytes text.new ≡ string_bytes text.old ++ (codes " " ++ (from_words range.now.from ++ (codes "to" ++ to_words range.now.to)))) }
{
    text.push(' ')?;
    push_from(text, &range.from)?;
    text.push_str("to")?;
    push_to(text, &range.to)
}

/// The first end of a range, as it stands before `to`.
fn push_from(text: &mut String, from: &Option<AttrValue>) -> Result<(), AllocError>
    ensures { OnOk result (string_bytes text.new ≡ string_bytes text.old ++ from_words from.now) }
{
    match from {
        Some(value) => {
            push_value(text, value)?;
            text.push(' ')
        }
        None => Ok(()),
    }
}

/// The last end of a range, as it stands behind `to`.
fn push_to(text: &mut String, to: &Option<AttrValue>) -> Result<(), AllocError>
    ensures { OnOk result (string_bytes text.new ≡ string_bytes text.old ++ to_words to.now) }
{
    match to {
        Some(value) => {
            text.push(' ')?;
            push_value(text, value)
        }
        None => Ok(()),
    }
}

/// What is asked of two features: a word, or `near` and a distance.
fn push_pair_ask(text: &mut String, ask: &PairAsk) -> Result<(), AllocError>
    ensures { OnOk result (string_bytes text.new ≡ string_bytes text.old ++ pair_ask_words ask.now) }
{
    match ask {
        PairAsk::Matrix(ask) => push_ask(text, ask),
        PairAsk::Near(reach) => {
            text.push_str("near ")?;
            push_reach(text, *reach)
        }
    }
}

/// What is asked of a matrix, as one word.
fn push_ask(text: &mut String, ask: &Ask) -> Result<(), AllocError>
    ensures { OnOk result (string_bytes text.new ≡ string_bytes text.old ++ ask_word ask.now) }
{
    match ask {
        Ask::Named(predicate) => text.push_str(predicate.name()),
        Ask::Matching(pattern) => push_letters(text, pattern.letters()),
    }
}

/// The letters of a pattern, in order.
fn push_letters(text: &mut String, letters: &[Letter]) -> Result<(), AllocError>
    ensures { OnOk result (string_bytes text.new ≡ string_bytes text.old ++ pattern_text letters.now) }
{
    for letter in letters {
        text.push_str(letter.text())?;
    }
    Ok(())
}

/// The words of a form, with the blanks around them.
fn form_words(form: Form) -> &'static str
    ensures { result.now ≡ form_words_of form }
{
    match form {
        Form::Never => " never ",
        Form::Each => " each ",
    }
}

/// What stands before the second layer.
fn second_words(form: Form) -> &'static str
    ensures { result.now ≡ second_words_of form }
{
    match form {
        Form::Never => " ",
        Form::Each => " some ",
    }
}
