//! Values that texts name: single ones, several in a list, and the ends of a range.
ghost use Rattle.std.specs.Prelude.{◌≡◌, ◌++◌, ◌∷◌, ◌⊎◌, [], MatchResult, None, OnOk, Some, ok_or};
ghost use Rattle.sf_refusals.specs.declared.refusal.Refusal.TheVariants.{BadCommand, Memory};
ghost use Rattle.sf_features.specs.declared.attr_value.AttrValue.{AttrValue};
ghost use Rattle.sf_commands.specs.Commands.{end_of as end_spelled, range_between as range_spelled, value_between as value_spelled, values_of as values_spelled, OrMemory};

use super::value_lists::{split_at_comma, trimmed};
use sf_features::AttrValue;
use sf_layers::ValueRange;
use sf_refusals::Refusal;
use sf_rules::{AllowedValues, VALUES_MAX};
use sf_values::value_of;
use sf_words::is_blank_text;
use std::alloc::{AllocError, Global};

/// The value that a text spells, with blanks around it or without.
pub(crate) fn value_between(alloc: Global, text: &str) -> Result<AttrValue, Refusal>
    ensures { OrMemory (ok_or (value_spelled text.now) BadCommand) result }
{
    value_of(alloc, trimmed(text))?.ok_or(Refusal::BadCommand)
}

/// The values that a text lists between commas, one to 1,000 of them.
pub(crate) fn values_of(alloc: Global, text: &str) -> Result<AllowedValues, Refusal>
    ensures { OrMemory (ok_or (values_spelled text.now) BadCommand) result }
{
    let mut values = Vec::new(alloc);
    let mut rest = text;
    for _ in 0..VALUES_MAX {
        let Some((part, more)) = split_at_comma(rest) else {
            push_value(alloc, &mut values, rest)?;
            return Ok(AllowedValues::new(values));
        };
        push_value(alloc, &mut values, part)?;
        rest = more;
    }
    Err(Refusal::BadCommand)
}

/// Puts the value that a text spells behind others.
fn push_value(alloc: Global, values: &mut Vec<AttrValue>, text: &str) -> Result<(), Refusal>
    ensures { MatchResult result
        (λ _. (value : AttrValue) × (value_spelled text.now ≡ Some value) × (values.new.items ≡ values.old.items ++ value ∷ []))
        (λ refusal. (refusal ≡ Memory) ⊎ ((refusal ≡ BadCommand) × (value_spelled text.now ≡ None))) }
{
    let value = value_between(alloc, text)?;
    push(values, value)?;
    Ok(())
}

/// Puts a value behind others.
fn push(values: &mut Vec<AttrValue>, value: AttrValue) -> Result<(), AllocError>
    ensures { OnOk result (values.new.items ≡ values.old.items ++ value ∷ []) }
{
    values.push(value)?;
    Ok(())
}

/// The range whose ends two texts spell, one of them at least.
pub(crate) fn range_between(alloc: Global, from: &str, to: &str) -> Result<ValueRange, Refusal>
    ensures { OrMemory (range_spelled (from.now, to.now)) result }
{
    let from = end_of(alloc, from)?;
    let to = end_of(alloc, to)?;
    if from.is_none() && to.is_none() {
        return Err(Refusal::BadCommand);
    }
    Ok(ValueRange { from, to })
}

/// The end of a range that a text spells, or None where it has blanks alone, or nothing.
fn end_of(alloc: Global, text: &str) -> Result<Option<AttrValue>, Refusal>
    ensures { OrMemory (end_spelled text.now) result }
{
    if is_blank_text(text) {
        return Ok(None);
    }
    Ok(Some(value_between(alloc, text)?))
}
