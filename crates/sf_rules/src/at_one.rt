//! Whether rules hold after one feature was changed that no rule between layers looks at.

ghost use Rattle.std.specs.Prelude.{◌≡◌, [], IfOk, None};
ghost use Rattle.sf_layers.specs.Content.{Content};
ghost use Rattle.sf_rules.specs.Rules.{break_of, break_of_values, first_broken};
ghost use Rattle.sf_rules.specs.Underway.{DiffersAt, HeldBefore, HeldSaid};

use super::breaks::{Break, Broken};
use super::column::{column_of, least_at};
use super::leaving::Leaving;
use super::rule::{Rule, Says, ValueRule};
use sf_layers::Store;
use std::alloc::{AllocError, Global};

/// The first rule that is broken once the feature under an identifier of a layer was changed, put in or removed. Before that the
/// rules on values held; those between layers are none that it could break, and hold still. Only this feature is looked at.
///
/// # Errors
///
/// Out of memory alone.
pub fn first_broken_at(
    alloc: Global,
    store: &Store,
    rules: &[Rule],
    layer: &str,
    id: u32,
) -> Result<Option<Broken>, AllocError>
    requires { HeldBefore layer.now id store.now rules.now }
    ensures { IfOk result (λ found. found ≡ first_broken store.now rules.now) }
{
    let leaving = Leaving::none(alloc);
    first_broken_of(alloc, store, rules, layer, id, &leaving)
}

/// The same, where no feature leaves.
fn first_broken_of(
    alloc: Global,
    store: &Store,
    rules: &[Rule],
    layer: &str,
    id: u32,
    leaving: &Leaving<'_>,
) -> Result<Option<Broken>, AllocError>
    requires held { HeldBefore layer.now id store.now rules.now }
    requires none_leaves { leaving.now ≡ [] }
    ensures { IfOk result (λ found. found ≡ first_broken store.now rules.now) }
{
    for place in 0..rules.len() {
        if let Some(least) = break_at(alloc, store, &rules[place], layer, id, leaving)? {
            return Ok(Some(Broken { place, least }));
        }
    }
    Ok(None)
}

/// What breaks a rule first, where it held before.
fn break_at(
    alloc: Global,
    store: &Store,
    rule: &Rule,
    layer: &str,
    id: u32,
    leaving: &Leaving<'_>,
) -> Result<Option<Break>, AllocError>
    requires held { (old : Content) × DiffersAt layer.now id old store.now × HeldSaid old store.now rule.now.says }
    requires none_leaves { leaving.now ≡ [] }
    ensures { IfOk result (λ found. found ≡ break_of store.now rule.now) }
{
    match &rule.says {
        Says::OfLayers(_) => Ok(None),
        Says::OfValues(rule) => break_of_values_at(alloc, store, rule, layer, id, leaving),
    }
}

/// The same of a rule on the values in a column.
fn break_of_values_at(
    alloc: Global,
    store: &Store,
    rule: &ValueRule,
    layer: &str,
    id: u32,
    leaving: &Leaving<'_>,
) -> Result<Option<Break>, AllocError>
    requires held { (old : Content) × DiffersAt layer.now id old store.now × (break_of_values old rule.now ≡ None) }
    requires none_leaves { leaving.now ≡ [] }
    ensures { IfOk result (λ found. found ≡ break_of_values store.now rule.now) }
{
    let Some(column) = column_of(store, rule, leaving) else {
        return Ok(None);
    };
    if layer == rule.layer.as_str() {
        return least_at(alloc, &rule.demand, &column, column.place, id, None);
    }
    Ok(None)
}
