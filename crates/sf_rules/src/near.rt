//! Whether rules hold after a change, by what was changed and what is near it.

ghost use Rattle.std.specs.Prelude.{◌≡◌, IfOk, None};
ghost use Rattle.sf_layers.specs.WellFormed.{IsLayer};
ghost use Rattle.sf_layers.specs.Content.{Content};
ghost use Rattle.sf_patches.specs.Patches.{patched};
ghost use Rattle.sf_rules.specs.Breaks.{least_from};
ghost use Rattle.sf_rules.specs.Looks.{looked_at};
ghost use Rattle.sf_rules.specs.Underway.{CanLeave, ComesOf};
ghost use Rattle.sf_rules.specs.Rules.{break_between, break_of, break_of_values, first_broken};

use super::alone::least_alone;
use super::between::Between;
use super::breaks::{Break, Broken};
use super::column::{column_of, least_in_column};
use super::leaving::Leaving;
use super::pairs::least_pair;
use super::rule::{Form, LayerRule, Rule, Says, ValueRule};
use super::whole::layers_of;
use sf_layers::Store;
use sf_patches::Slot;
use std::alloc::{AllocError, Global};

/// The first rule that would be broken once the features that leave are removed, where all rules held before the exchanges that were
/// made. Features are looked at that were changed, and those beside them, by the layers' indexes.
///
/// `made` takes the exchanges back that were made: it holds what was there before. `leaving` are still to be made, each removes a
/// feature.
///
/// # Errors
///
/// Out of memory alone.
pub(crate) fn first_broken_near(
    alloc: Global,
    store: &Store,
    rules: &[Rule],
    made: &[Slot],
    leaving: &[Slot],
) -> Result<Option<Broken>, AllocError>
    requires held { (old : Content) × ComesOf old store.now made.now × (first_broken old rules.now ≡ None) }
    requires leave { CanLeave store.now leaving.now }
    ensures { IfOk result (λ found. found ≡ first_broken (patched store.now leaving.now) rules.now) }
{
    if rules.is_empty() {
        return Ok(None);
    }
    let leaving = Leaving::of(alloc, leaving)?;
    first_broken_of(alloc, store, rules, made, &leaving)
}

/// The same, with a set of the features that leave.
fn first_broken_of(
    alloc: Global,
    store: &Store,
    rules: &[Rule],
    made: &[Slot],
    leaving: &Leaving<'_>,
) -> Result<Option<Broken>, AllocError>
    requires held { (old : Content) × ComesOf old store.now made.now × (first_broken old rules.now ≡ None) }
    requires leave { CanLeave store.now leaving.now }
    ensures { IfOk result (λ found. found ≡ first_broken (patched store.now leaving.now) rules.now) }
{
    for place in 0..rules.len() {
        if let Some(least) = break_near(alloc, store, &rules[place], made, leaving)? {
            return Ok(Some(Broken { place, least }));
        }
    }
    Ok(None)
}

/// What would break a rule first, where it held before.
fn break_near(
    alloc: Global,
    store: &Store,
    rule: &Rule,
    made: &[Slot],
    leaving: &Leaving<'_>,
) -> Result<Option<Break>, AllocError>
    requires held { (old : Content) × ComesOf old store.now made.now × (break_of old rule.now ≡ None) }
    requires leave { CanLeave store.now leaving.now }
    ensures { IfOk result (λ found. found ≡ break_of (patched store.now leaving.now) rule.now) }
{
    match &rule.says {
        Says::OfLayers(rule) => break_near_between(alloc, store, rule, made, leaving),
        Says::OfValues(rule) => break_near_values(alloc, store, rule, made, leaving),
    }
}

/// The same of a rule between layers.
fn break_near_between(
    alloc: Global,
    store: &Store,
    rule: &LayerRule,
    made: &[Slot],
    leaving: &Leaving<'_>,
) -> Result<Option<Break>, AllocError>
    requires held { (old : Content) × ComesOf old store.now made.now × (break_between old rule.now ≡ None) }
    requires leave { CanLeave store.now leaving.now }
    ensures { IfOk result (λ found. found ≡ break_between (patched store.now leaving.now) rule.now) }
{
    let Some(between) = layers_of(store, rule, leaving) else {
        return Ok(None);
    };
    least_near(alloc, rule.form, &between, made)
}

/// The same of a rule on the values in a column.
fn break_near_values(
    alloc: Global,
    store: &Store,
    rule: &ValueRule,
    made: &[Slot],
    leaving: &Leaving<'_>,
) -> Result<Option<Break>, AllocError>
    requires held { (old : Content) × ComesOf old store.now made.now × (break_of_values old rule.now ≡ None) }
    requires leave { CanLeave store.now leaving.now }
    ensures { IfOk result (λ found. found ≡ break_of_values (patched store.now leaving.now) rule.now) }
{
    let Some(column) = column_of(store, rule, leaving) else {
        return Ok(None);
    };
    least_in_column(alloc, &rule.demand, &column, made)
}

/// The least break of those that are looked at.
fn least_near(
    alloc: Global,
    form: Form,
    between: &Between<'_>,
    made: &[Slot],
) -> Result<Option<Break>, AllocError>
    requires first { IsLayer between.now.first.now }
    requires second { IsLayer between.now.second.now }
    ensures { IfOk result (λ found. found ≡ least_from None (looked_at form between.now made.now)) }
{
    match form {
        Form::Never => least_pair(alloc, between, made),
        Form::Each => least_alone(alloc, between, made),
    }
}
