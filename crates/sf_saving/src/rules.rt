//! The rules of a store.
ghost use Rattle.std.specs.Prelude.{◌≡◌, ◌++◌, flat_map, OnErr, OnOk};
ghost use Rattle.byteorder.specs.Endian.{big_bytes};
ghost use Rattle.sf_known.specs.Patterns.{pattern_text};
ghost use Rattle.sf_format.specs.Canonical.{ask_bytes, demand_byte as demand_byte_of, pair_bytes, pair_form_byte, predicate_byte as predicate_byte_of, rule_bytes, rules_bytes, says_bytes};
ghost use Rattle.sf_format.specs.Stored.{OfLayers, OfValues};
ghost use Rattle.sf_saving.specs.Parts.{letter_bytes};
ghost use Rattle.sf_streams.specs.Streams.{Puts, WritesFront};

use super::demands::put_demand;
use super::fields::put_name;
use sf_format::{Ask, Demand, Form, LayerRule, PairAsk, Rule, Says, ValueRule};
use sf_known::{Letter, Pattern, Predicate};
use sf_streams::{Output, WriteFault};
use std::io::Write;

/// The byte of the form of a rule between layers, by what it asks.
fn form_byte(ask: &PairAsk, form: Form) -> u8
    ensures { result ≡ pair_form_byte ask.now form }
{
    match (ask, form) {
        (PairAsk::Matrix(_), Form::Never) => 1,
        (PairAsk::Matrix(_), Form::Each) => 2,
        (PairAsk::Near(_), Form::Never) => 7,
        (PairAsk::Near(_), Form::Each) => 8,
    }
}

/// The byte of what a rule demands of values.
fn demand_byte(demand: &Demand) -> u8
    ensures { result ≡ demand_byte_of demand.now }
{
    match demand {
        Demand::Unique => 3,
        Demand::Required => 4,
        Demand::OneOf(_) => 5,
        Demand::InRange(_) => 6,
    }
}

/// The byte of a named predicate.
fn predicate_byte(predicate: Predicate) -> u8
    ensures { result ≡ predicate_byte_of predicate }
{
    match predicate {
        Predicate::Equals => 1,
        Predicate::Disjoint => 2,
        Predicate::Intersects => 3,
        Predicate::Touches => 4,
        Predicate::Within => 5,
        Predicate::Contains => 6,
        Predicate::Crosses => 7,
        Predicate::Overlaps => 8,
    }
}

/// Puts the character of a letter.
fn put_letter<W: Write>(
    output: &mut Output,
    writer: &mut W,
    letter: &Letter,
) -> Result<(), WriteFault>
    ensures ok { OnOk result (Puts (W.contents writer.old) (W.contents writer.new) output.old output.new
        (letter_bytes letter.now)) }
    ensures broken { OnErr result (WritesFront (W.contents writer.old) (W.contents writer.new)
        (output.old ++ letter_bytes letter.now)) }
{
    output.put(writer, letter.text().as_bytes())
}

/// Puts letters, in order.
fn put_letters<W: Write>(
    output: &mut Output,
    writer: &mut W,
    letters: &[Letter],
) -> Result<(), WriteFault>
    ensures ok { OnOk result (Puts (W.contents writer.old) (W.contents writer.new) output.old output.new
        (flat_map letter_bytes letters.now)) }
    ensures broken { OnErr result (WritesFront (W.contents writer.old) (W.contents writer.new)
        (output.old ++ flat_map letter_bytes letters.now)) }
{
    for letter in letters {
        put_letter(output, writer, letter)?;
    }
    Ok(())
}

/// Puts the text of a pattern behind the byte 0.
fn put_pattern<W: Write>(
    output: &mut Output,
    writer: &mut W,
    pattern: &Pattern,
) -> Result<(), WriteFault>
    ensures ok { OnOk result (Puts (W.contents writer.old) (W.contents writer.new) output.old output.new
        (big_bytes 1 0 ++ pattern_text pattern.now)) }
    ensures broken { OnErr result (WritesFront (W.contents writer.old) (W.contents writer.new)
        (output.old ++ (big_bytes 1 0 ++ pattern_text pattern.now))) }
{
    output.put_u8(writer, 0)?;
    put_letters(output, writer, pattern.letters().as_slice())
}

/// Puts what is asked: the byte of a named predicate, or a pattern.
fn put_ask<W: Write>(output: &mut Output, writer: &mut W, ask: &Ask) -> Result<(), WriteFault>
    ensures ok { OnOk result (Puts (W.contents writer.old) (W.contents writer.new) output.old output.new
        (ask_bytes ask.now)) }
    ensures broken { OnErr result (WritesFront (W.contents writer.old) (W.contents writer.new)
        (output.old ++ ask_bytes ask.now)) }
{
    match ask {
        Ask::Named(predicate) => output.put_u8(writer, predicate_byte(*predicate)),
        Ask::Matching(pattern) => put_pattern(output, writer, pattern),
    }
}

/// Puts what is asked of two features: of their matrix, or a distance in thousandths of a grid step.
fn put_pair_ask<W: Write>(
    output: &mut Output,
    writer: &mut W,
    ask: &PairAsk,
) -> Result<(), WriteFault>
    ensures ok { OnOk result (Puts (W.contents writer.old) (W.contents writer.new) output.old output.new
        (pair_bytes ask.now)) }
    ensures broken { OnErr result (WritesFront (W.contents writer.old) (W.contents writer.new)
        (output.old ++ pair_bytes ask.now)) }
{
    match ask {
        PairAsk::Matrix(ask) => put_ask(output, writer, ask),
        PairAsk::Near(reach) => output.put_u64(writer, reach.thousandths()),
    }
}

/// Puts a rule between layers: its form, its layers and what is asked of them.
fn put_between<W: Write>(
    output: &mut Output,
    writer: &mut W,
    rule: &LayerRule,
) -> Result<(), WriteFault>
    ensures ok { OnOk result (Puts (W.contents writer.old) (W.contents writer.new) output.old output.new
        (says_bytes (OfLayers rule.now))) }
    ensures broken { OnErr result (WritesFront (W.contents writer.old) (W.contents writer.new)
        (output.old ++ says_bytes (OfLayers rule.now))) }
{
    output.put_u8(writer, form_byte(&rule.ask, rule.form))?;
    put_name(output, writer, rule.first.as_str())?;
    put_pair_ask(output, writer, &rule.ask)?;
    put_name(output, writer, rule.second.as_str())
}

/// Puts a rule on values: its form, its layer, its column and the values that it names.
fn put_on_values<W: Write>(
    output: &mut Output,
    writer: &mut W,
    rule: &ValueRule,
) -> Result<(), WriteFault>
    ensures ok { OnOk result (Puts (W.contents writer.old) (W.contents writer.new) output.old output.new
        (says_bytes (OfValues rule.now))) }
    ensures broken { OnErr result (WritesFront (W.contents writer.old) (W.contents writer.new)
        (output.old ++ says_bytes (OfValues rule.now))) }
{
    output.put_u8(writer, demand_byte(&rule.demand))?;
    put_name(output, writer, rule.layer.as_str())?;
    put_name(output, writer, rule.column.as_str())?;
    put_demand(output, writer, &rule.demand)
}

/// Puts what a rule says, behind the byte of its form.
fn put_says<W: Write>(output: &mut Output, writer: &mut W, says: &Says) -> Result<(), WriteFault>
    ensures ok { OnOk result (Puts (W.contents writer.old) (W.contents writer.new) output.old output.new
        (says_bytes says.now)) }
    ensures broken { OnErr result (WritesFront (W.contents writer.old) (W.contents writer.new)
        (output.old ++ says_bytes says.now)) }
{
    match says {
        Says::OfLayers(rule) => put_between(output, writer, rule),
        Says::OfValues(rule) => put_on_values(output, writer, rule),
    }
}

/// Puts a rule behind its name.
fn put_rule<W: Write>(output: &mut Output, writer: &mut W, rule: &Rule) -> Result<(), WriteFault>
    ensures ok { OnOk result (Puts (W.contents writer.old) (W.contents writer.new) output.old output.new
        (rule_bytes rule.now)) }
    ensures broken { OnErr result (WritesFront (W.contents writer.old) (W.contents writer.new)
        (output.old ++ rule_bytes rule.now)) }
{
    put_name(output, writer, rule.name.as_str())?;
    put_says(output, writer, &rule.says)
}

/// Puts rules, in order.
fn put_each<W: Write>(output: &mut Output, writer: &mut W, rules: &[Rule]) -> Result<(), WriteFault>
    ensures ok { OnOk result (Puts (W.contents writer.old) (W.contents writer.new) output.old output.new
        (flat_map rule_bytes rules.now)) }
    ensures broken { OnErr result (WritesFront (W.contents writer.old) (W.contents writer.new)
        (output.old ++ flat_map rule_bytes rules.now)) }
{
    for rule in rules {
        put_rule(output, writer, rule)?;
    }
    Ok(())
}

/// Puts the rules of a store behind their number, which has two bytes, as there are never more.
pub(crate) fn put_rules<W: Write>(
    output: &mut Output,
    writer: &mut W,
    rules: &[Rule],
) -> Result<(), WriteFault>
    ensures ok { OnOk result (Puts (W.contents writer.old) (W.contents writer.new) output.old output.new
        (rules_bytes rules.now)) }
    ensures broken { OnErr result (WritesFront (W.contents writer.old) (W.contents writer.new)
        (output.old ++ rules_bytes rules.now)) }
{
    output.put_u16(writer, (rules.len() % 65536) as u16)?;
    put_each(output, writer, rules)
}
