//! Commands about rules between the features of layers, and on their values.
ghost use Rattle.std.specs.Prelude.{◌≡◌, ◌≢◌, [], Ok, Err, MatchResult};
ghost use Rattle.sf_commands.specs.Commands.{rule_arguments as rule_command_of, add_rule as add_rule_of, demand_by as demand_by_of, drop_rule as drop_rule_of, form_of as form_named, layer_rule as layer_rule_of, made, matrix_ask_of, near_rule as near_rule_of, range_between as range_spelled, rule_asked as rule_asked_of, rule_behind, rule_on_values as rule_on_values_of, second_of as second_spelled, value_rule as value_rule_of, values_of as values_spelled, alone as alone_of, OrMemory};
ghost use Rattle.sf_words.specs.Naming.{given};
ghost use Rattle.sf_commands.specs.declared.command.Command.TheVariants.{Rules};
ghost use Rattle.sf_commands.specs.ValueLists.{around_to as around_to_of};
ghost use Rattle.sf_refusals.specs.declared.refusal.Refusal.TheVariants.{BadCommand};
ghost use Rattle.sf_rules.specs.declared.rule.Demand.TheVariants.{InRange, OneOf};
ghost use Rattle.sf_words.specs.Words.{words as words_of, skip_blanks, skip_word};

use super::boxed::BoxedRule;
use super::command::Command;
use super::named_values::{range_between, values_of};
use super::spelling::{DemandWord, demand_of, form_of, matrix_ask, near_ask};
use super::value_lists::around_to;
use sf_refusals::Refusal;
use sf_rules::{BoxedRange, Demand, Form, LayerRule, PairAsk, Rule, Says, ValueRule};
use sf_values::text_of;
use sf_words::{Action, Words, action_of, is_near};
use std::alloc::Global;

/// The command of the words after `rule`.
pub(crate) fn rule_arguments(alloc: Global, mut words: Words<'_>) -> Result<Command, Refusal>
    ensures { OrMemory (rule_command_of (words_of words.entry) (skip_blanks (skip_word (skip_word (skip_word (skip_word (skip_word words.entry))))))) result }
{
    match action_of(words.next()?) {
        Some(Action::Add) => add_rule(alloc, words),
        Some(Action::Drop) => drop_rule(alloc, words),
        _ => Err(Refusal::BadCommand),
    }
}

fn add_rule(alloc: Global, mut words: Words<'_>) -> Result<Command, Refusal>
    ensures { OrMemory (add_rule_of (words_of words.entry) (skip_blanks (skip_word (skip_word (skip_word (skip_word words.entry)))))) result }
{
    let name = words.next()?;
    let word = words.next()?;
    match demand_of(word) {
        Some(demand) => value_rule(alloc, name, demand, words),
        None => rule_of_form(alloc, name, word, words),
    }
}

/// A rule on values, from the words behind its demand.
fn value_rule(
    alloc: Global,
    name: &str,
    demand: DemandWord,
    mut words: Words<'_>,
) -> Result<Command, Refusal>
    ensures { OrMemory (value_rule_of name.now demand (words_of words.entry) (skip_blanks (skip_word (skip_word words.entry)))) result }
{
    let layer = words.next()?;
    let column = words.next()?;
    let demand = demand_by(alloc, demand, words)?;
    rule_on_values(alloc, name, layer, column, demand)
}

/// What is demanded, of a word and the words behind the column: the values that it names, where it does.
fn demand_by(alloc: Global, word: DemandWord, words: Words<'_>) -> Result<Demand, Refusal>
    ensures { OrMemory (demand_by_of word (words_of words.entry) (skip_blanks words.entry)) result }
{
    match word {
        DemandWord::Unique => alone(words, Demand::Unique),
        DemandWord::Required => alone(words, Demand::Required),
        DemandWord::OneOf => one_of(alloc, words.rest()?),
        DemandWord::Range => in_range(alloc, words.rest()?),
    }
}

/// A demand behind whose column no word stands.
fn alone(words: Words<'_>, demand: Demand) -> Result<Demand, Refusal>
    ensures { MatchResult result (λ made. (words_of words.entry ≡ []) × (made ≡ demand)) (λ refusal. (words_of words.entry ≢ []) × (refusal ≡ BadCommand)) }
{
    words.finish()?;
    Ok(demand)
}

/// The demand that each value is one of those that a text lists.
fn one_of(alloc: Global, text: &str) -> Result<Demand, Refusal>
    ensures { OrMemory (given (values_spelled text.now) (λ values. Ok (OneOf values))) result }
{
    Ok(Demand::OneOf(values_of(alloc, text)?))
}

/// The demand that each value is in the range that a text names.
fn in_range(alloc: Global, text: &str) -> Result<Demand, Refusal>
    ensures { OrMemory (given (around_to_of text.now) (λ ends. made (range_spelled ends) (λ range. Ok (InRange range)))) result }
{
    let Some((from, to)) = around_to(text) else {
        return Err(Refusal::BadCommand);
    };
    let range = range_between(alloc, from, to)?;
    Ok(Demand::InRange(BoxedRange::new(alloc, range)?))
}

/// The command of a new rule on values.
fn rule_on_values(
    alloc: Global,
    name: &str,
    layer: &str,
    column: &str,
    demand: Demand,
) -> Result<Command, Refusal>
    ensures { OrMemory (rule_on_values_of name.now layer.now column.now demand) result }
{
    let name = text_of(alloc, name)?;
    let layer = text_of(alloc, layer)?;
    let column = text_of(alloc, column)?;
    let rule = Rule {
        name,
        says: Says::OfValues(ValueRule {
            demand,
            layer,
            column,
        }),
    };
    Ok(Command::AddRule(BoxedRule::new(alloc, rule)?))
}

/// A rule between layers, whose form a word spells.
fn rule_of_form(alloc: Global, name: &str, word: &str, words: Words<'_>) -> Result<Command, Refusal>
    ensures { OrMemory (given (form_named word.now) (λ form. layer_rule_of name.now form (words_of words.entry))) result }
{
    let Some(form) = form_of(word) else {
        return Err(Refusal::BadCommand);
    };
    layer_rule(alloc, name, form, words)
}

/// A rule between layers, from the words behind its form.
fn layer_rule(
    alloc: Global,
    name: &str,
    form: Form,
    mut words: Words<'_>,
) -> Result<Command, Refusal>
    ensures { OrMemory (layer_rule_of name.now form (words_of words.entry)) result }
{
    let first = words.next()?;
    let ask = words.next()?;
    if is_near(ask) {
        near_rule(alloc, name, form, first, words)
    } else {
        matrix_rule(alloc, name, form, first, ask, words)
    }
}

/// A rule by a distance, which is the next of the words.
fn near_rule(
    alloc: Global,
    name: &str,
    form: Form,
    first: &str,
    mut words: Words<'_>,
) -> Result<Command, Refusal>
    ensures { OrMemory (near_rule_of name.now form first.now (words_of words.entry)) result }
{
    let distance = words.next()?;
    let second = second_of(form, words)?;
    let ask = near_ask(distance)?;
    rule_between(alloc, name, form, first, ask, second)
}

/// A rule by a matrix.
fn matrix_rule(
    alloc: Global,
    name: &str,
    form: Form,
    first: &str,
    ask: &str,
    words: Words<'_>,
) -> Result<Command, Refusal>
    ensures { OrMemory (rule_behind name.now form first.now (matrix_ask_of ask.now) (words_of words.entry)) result }
{
    let second = second_of(form, words)?;
    let ask = matrix_ask(ask)?;
    rule_between(alloc, name, form, first, ask, second)
}

/// The second layer of a rule, from the words behind what is asked: `some` stands before it in a rule for each.
fn second_of(form: Form, mut words: Words<'_>) -> Result<&str, Refusal>
    ensures { MatchResult result
        (λ second. second_spelled form (words_of words.entry) ≡ Ok second.now)
        (λ refusal. second_spelled form (words_of words.entry) ≡ Err refusal) }
{
    if form == Form::Each && words.next()? != "some" {
        return Err(Refusal::BadCommand);
    }
    let second = words.next()?;
    words.finish()?;
    Ok(second)
}

/// The command of a new rule between layers.
fn rule_between(
    alloc: Global,
    name: &str,
    form: Form,
    first: &str,
    ask: PairAsk,
    second: &str,
) -> Result<Command, Refusal>
    ensures { OrMemory (rule_asked_of name.now form first.now (Ok ask) second.now) result }
{
    let rule = Rule {
        name: text_of(alloc, name)?,
        says: Says::OfLayers(LayerRule {
            form,
            first: text_of(alloc, first)?,
            ask,
            second: text_of(alloc, second)?,
        }),
    };
    Ok(Command::AddRule(BoxedRule::new(alloc, rule)?))
}

fn drop_rule(alloc: Global, mut words: Words<'_>) -> Result<Command, Refusal>
    ensures { OrMemory (drop_rule_of (words_of words.entry)) result }
{
    let name = words.next()?;
    words.finish()?;
    Ok(Command::DropRule(text_of(alloc, name)?))
}

/// The command of the words after `rules`.
pub(crate) fn rules_arguments(words: Words<'_>) -> Result<Command, Refusal>
    ensures { result ≡ alone_of Rules (words_of words.entry) }
{
    words.finish()?;
    Ok(Command::Rules)
}
