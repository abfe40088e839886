//! Rules that are kept.

ghost use Rattle.std.specs.Prelude.{◌≡◌, ◌≤◌, ◌<◌, ◌-◌, ◌&&◌, ◌||◌, ◌++◌, ◌∷◌, [], Err, IfErr, IfNone, IfOk, IfSome, Ok, OnErr, OnOk, bytes_eq, insert, length, map, option_copied, remove, slice_get, Some, take};
ghost use Rattle.sf_layers.specs.Content.{Content, has_layer};
ghost use Rattle.sf_rules.specs.declared.rule.Says.TheVariants.{OfLayers, OfValues};
ghost use Rattle.sf_ruled_store.specs.Ruled.{AddRule, DropRule, added, fits_column as fits_column_of, fits_layer as fits_layer_of, has_column_in, has_columns_said, has_layers_said, has_said, place_of_rule, renamed, renamed_said, ruled_step, with_renamed, with_rule};
ghost use Rattle.sf_ruled_store.specs.InPlace.{is_seen_between, sees_between as sees_between_of};
ghost use Rattle.sf_ruled_store.specs.Outcomes.{IsRefusedAs, ruled};
ghost use Rattle.sf_ruled_store.specs.Undos.{changes_column as changes_column_of, changes_geometries as changes_geometries_of, ends_name as ends_name_of, is_seen, sees as sees_edit};

use super::refusal::Refusal;
use sf_layers::{Column, Layer, Store, Text, is_name};
use sf_rules::{Broken, Demand, LayerRule, Rule, Says, ValueRule, first_break};
use sf_steps::Edit;
use std::alloc::{AllocError, Global};
use std::marker::Model;

/// How many rules there are at most.
pub const RULES_MAX: usize = 65535;

/// Rules in the order in which they were added. Contracts see the list of them.
#[derive(Debug, Drop)]
pub struct Rules {
    rules: Vec<Rule>,
}

impl Model for Rules {
    ghost use Rattle.std.specs.Prelude.{List};
    ghost use Rattle.sf_rules.specs.declared.rule.Rule.{Rule};

    ghost Value = { List Rule };

    ghost view = { λ a. a.rules.items };
}

impl Rules {
    /// No rule.
    pub fn new(alloc: Global) -> Rules
        ensures { result ≡ [] }
    {
        Rules {
            rules: Vec::new(alloc),
        }
    }

    /// The rules, in order.
    pub fn as_slice(&self) -> &[Rule]
        ensures { result.now ≡ self.now }
    {
        self.rules.as_slice()
    }

    /// The place of the rule of a name, or None where no rule has it.
    pub fn place(&self, name: &str) -> Option<usize>
        ensures { result ≡ place_of_rule name.now self.now }
    {
        self.as_slice()
            .iter()
            .position(|rule| name == rule.name.as_str())
    }

    /// Whether a rule sees an edit: it may break the rule, or ends what that names.
    pub(crate) fn see(&self, edit: &Edit) -> bool
        ensures { result ≡ is_seen edit.now self.now }
    {
        self.as_slice().iter().any(|rule| sees(rule, edit))
    }

    /// Whether a rule between layers sees an edit.
    pub(crate) fn see_between(&self, edit: &Edit) -> bool
        ensures { result ≡ is_seen_between edit.now self.now }
    {
        self.as_slice().iter().any(|rule| sees_between(rule, edit))
    }

    /// The rules with another name for a layer, each copied.
    ///
    /// # Errors
    ///
    /// Out of memory alone.
    pub(crate) fn renamed(
        &self,
        alloc: Global,
        layer: &str,
        new_name: &str,
    ) -> Result<Rules, AllocError>
        ensures { IfOk result (λ rules. rules ≡ map (with_renamed layer.now new_name.now) self.now) }
    {
        let mut rules = Vec::with_capacity(alloc, self.as_slice().len())?;
        for rule in self.as_slice() {
            rules.push(copy_renamed(alloc, rule, layer, new_name)?)?;
        }
        Ok(Rules { rules })
    }

    /// Adds a rule behind the others, where it holds of all features.
    ///
    /// # Errors
    ///
    /// In this order: `BadName`, `RuleExists`, `NoLayer` of a layer that it names, `NoColumn`, `WrongValue`, `TooManyRules`, and `RuleBroken`
    /// with what breaks it first; out of memory in the place of any. The rule is given back, and nothing is changed then.
    pub fn add(&mut self, alloc: Global, store: &Store, rule: Rule) -> Result<(), (Rule, Refusal)>
        ensures added { OnOk result (self.new ≡ self.old ++ rule ∷ []) }
        ensures accepted { OnOk result
            (ruled_step (ruled store.now self.old) (AddRule rule) ≡ Ok (ruled store.now self.new)) }
        ensures refused { IfErr result (λ e.
            IsRefusedAs (ruled_step (ruled store.now self.old) (AddRule rule)) e.1) }
        ensures given_back { IfErr result (λ e. e.0 ≡ rule) }
        ensures unchanged { OnErr result (self.new ≡ self.old) }
    {
        if let Err(refusal) = self.check(alloc, store, &rule) {
            return Err((rule, refusal));
        }
        match self.rules.push(rule) {
            Ok(()) => Ok(()),
            Err(failed) => Err((failed.value, Refusal::Memory)),
        }
    }

    /// Removes the rule of a name, and gives it with its place.
    ///
    /// # Errors
    ///
    /// `NoRule` exactly where no rule has the name; nothing is changed then.
    pub fn remove(&mut self, name: &str) -> Result<(usize, Rule), Refusal>
        ensures removed { IfOk result (λ taken. slice_get self.old taken.0 ≡ Some taken.1) }
        ensures rest { IfOk result (λ taken. self.new ≡ remove self.old taken.0) }
        ensures accepted { OnOk result ((content : Content) →
            ruled_step (ruled content self.old) (DropRule name.now) ≡ Ok (ruled content self.new)) }
        ensures refused { IfErr result (λ refusal. (content : Content) →
            ruled_step (ruled content self.old) (DropRule name.now) ≡ Err refusal) }
        ensures unchanged { OnErr result (self.new ≡ self.old) }
    {
        let Some(place) = self.place(name) else {
            return Err(Refusal::NoRule);
        };
        let rule = self.rules.remove(place);
        Ok((place, rule))
    }

    /// Takes the last rule off.
    pub(crate) fn take_last(&mut self) -> Option<Rule>
        ensures rest { self.new ≡ take (length self.old - 1) self.old }
        ensures taken { IfSome result (λ rule. self.old ≡ self.new ++ rule ∷ []) }
        ensures none { IfNone result (self.old ≡ []) }
    {
        self.rules.pop()
    }

    /// Puts a rule back at a place.
    ///
    /// # Errors
    ///
    /// Where no memory is found, the rule is given back and nothing is changed.
    pub(crate) fn put_back(&mut self, place: usize, rule: Rule) -> Result<(), Rule>
        requires { place ≤ length self.old }
        ensures put { OnOk result (self.new ≡ insert self.old place rule) }
        ensures given_back { IfErr result (λ back. back ≡ rule) }
        ensures unchanged { OnErr result (self.new ≡ self.old) }
    {
        match self.rules.insert(place, rule) {
            Ok(()) => Ok(()),
            Err(failed) => Err(failed.value),
        }
    }

    /// Takes the rule at a place off.
    pub(crate) fn take_at(&mut self, place: usize) -> Rule
        requires { place < length self.old }
        ensures taken { slice_get self.old place ≡ Some result }
        ensures rest { self.new ≡ remove self.old place }
    {
        self.rules.remove(place)
    }

    /// Whether a rule can be added.
    ///
    /// # Errors
    ///
    /// Those of `add`.
    fn check(&self, alloc: Global, store: &Store, rule: &Rule) -> Result<(), Refusal>
        ensures accepted { OnOk result
            (added (ruled store.now self.now) rule.now ≡ Ok (with_rule (ruled store.now self.now) rule.now)) }
        ensures refused { IfErr result (IsRefusedAs (added (ruled store.now self.now) rule.now)) }
    {
        if !is_name(rule.name.as_str()) {
            return Err(Refusal::BadName);
        }
        if self.place(rule.name.as_str()).is_some() {
            return Err(Refusal::RuleExists);
        }
        if !has_layers(store, &rule.says) {
            return Err(Refusal::NoLayer);
        }
        if !has_columns(store, &rule.says) {
            return Err(Refusal::NoColumn);
        }
        if !has_named(store, &rule.says) {
            return Err(Refusal::WrongValue);
        }
        let place = self.as_slice().len();
        if place >= RULES_MAX {
            return Err(Refusal::TooManyRules);
        }
        match first_break(alloc, store, rule)? {
            None => Ok(()),
            Some(least) => Err(Refusal::RuleBroken(Broken { place, least })),
        }
    }
}

/// Whether the layers that a rule names are there.
fn has_layers(store: &Store, says: &Says) -> bool
    ensures { result ≡ has_layers_said store.now says.now }
{
    match says {
        Says::OfLayers(rule) => has_both(store, rule),
        Says::OfValues(rule) => store.layer(rule.layer.as_str()).is_some(),
    }
}

/// Whether both layers of a rule between layers are there.
fn has_both(store: &Store, rule: &LayerRule) -> bool
    ensures { result ≡ (has_layer store.now rule.now.first && has_layer store.now rule.now.second) }
{
    store.layer(rule.first.as_str()).is_some() && store.layer(rule.second.as_str()).is_some()
}

/// Whether the column of a rule on values is there.
fn has_columns(store: &Store, says: &Says) -> bool
    ensures { result ≡ has_columns_said store.now says.now }
{
    match says {
        Says::OfLayers(_) => true,
        Says::OfValues(rule) => has_column(store.layer(rule.layer.as_str()), rule.column.as_str()),
    }
}

/// Whether all that a rule names is there, its layers, or its layer and the column, and the values that it names fit the column.
fn has_named(store: &Store, says: &Says) -> bool
    ensures { result ≡ has_said store.now says.now }
{
    match says {
        Says::OfLayers(rule) => has_both(store, rule),
        Says::OfValues(rule) => fits_layer(rule, store.layer(rule.layer.as_str())),
    }
}

/// Whether a layer is there, has the column of the rule, and that may be demanded of it.
fn fits_layer(rule: &ValueRule, layer: Option<&Layer>) -> bool
    ensures { result ≡ fits_layer_of rule.now (option_copied layer.entry) }
{
    match layer {
        Some(layer) => fits_column(&rule.demand, layer.column(rule.column.as_str())),
        None => false,
    }
}

/// Whether a column is there, and may be demanded this of.
fn fits_column(demand: &Demand, column: Option<&Column>) -> bool
    ensures { result ≡ fits_column_of demand.now (option_copied column.entry) }
{
    match column {
        Some(column) => demand.fits(column.column_type),
        None => false,
    }
}

/// Whether a layer is there and has the column of a name.
fn has_column(layer: Option<&Layer>, name: &str) -> bool
    ensures { result ≡ has_column_in name.now (option_copied layer.entry) }
{
    match layer {
        Some(layer) => layer.column_place(name).is_some(),
        None => false,
    }
}

/// Whether a rule sees an edit.
fn sees(rule: &Rule, edit: &Edit) -> bool
    ensures { result ≡ sees_edit edit.now rule.now }
{
    let layer = edit.layer_name().as_str();
    match &rule.says {
        Says::OfLayers(rule) => is_of(rule, layer) && changes_shapes(edit),
        Says::OfValues(rule) => {
            layer == rule.layer.as_str() && changes_values(edit, rule.column.as_str())
        }
    }
}

/// Whether a layer of the rule has the name.
fn is_of(rule: &LayerRule, layer: &str) -> bool
    ensures { result ≡ (bytes_eq layer.now rule.now.first || bytes_eq layer.now rule.now.second) }
{
    layer == rule.first.as_str() || layer == rule.second.as_str()
}

/// Whether an edit changes geometries of its layer, or ends its name.
fn changes_shapes(edit: &Edit) -> bool
    ensures { result ≡ (changes_geometries_of edit.now || ends_name_of edit.now) }
{
    changes_geometries(edit) || ends_name(edit)
}

/// Whether an edit changes what its layer has in the column of a name, or ends its name.
fn changes_values(edit: &Edit, column: &str) -> bool
    ensures { result ≡ (changes_column_of column.now edit.now || ends_name_of edit.now) }
{
    changes_column(edit, column) || ends_name(edit)
}

/// Whether a rule is one between layers, and sees an edit.
fn sees_between(rule: &Rule, edit: &Edit) -> bool
    ensures { result ≡ sees_between_of edit.now rule.now.says }
{
    match &rule.says {
        Says::OfLayers(rule) => is_of(rule, edit.layer_name().as_str()) && changes_shapes(edit),
        Says::OfValues(_) => false,
    }
}

/// Whether an edit puts a geometry into its layer, changes one or removes one.
fn changes_geometries(edit: &Edit) -> bool
    ensures { result ≡ changes_geometries_of edit.now }
{
    match edit {
        Edit::AddFeature { .. }
        | Edit::DeleteFeature { .. }
        | Edit::ReplaceGeometry { .. }
        | Edit::InsertVertex { .. }
        | Edit::MoveVertex { .. }
        | Edit::RemoveVertex { .. } => true,
        Edit::AddLayer { .. }
        | Edit::DropLayer { .. }
        | Edit::RenameLayer { .. }
        | Edit::MoveLayer { .. }
        | Edit::AddColumn { .. }
        | Edit::DropColumn { .. }
        | Edit::SetValue { .. }
        | Edit::ClearValue { .. } => false,
    }
}

/// Whether an edit changes which features its layer has, or which values they have in the column of a name, or drops that.
fn changes_column(edit: &Edit, column: &str) -> bool
    ensures { result ≡ changes_column_of column.now edit.now }
{
    match edit {
        Edit::AddFeature { .. } | Edit::DeleteFeature { .. } => true,
        Edit::SetValue { column: other, .. }
        | Edit::ClearValue { column: other, .. }
        | Edit::DropColumn { name: other, .. } => column == other.as_str(),
        Edit::ReplaceGeometry { .. }
        | Edit::InsertVertex { .. }
        | Edit::MoveVertex { .. }
        | Edit::RemoveVertex { .. }
        | Edit::AddLayer { .. }
        | Edit::DropLayer { .. }
        | Edit::RenameLayer { .. }
        | Edit::MoveLayer { .. }
        | Edit::AddColumn { .. } => false,
    }
}

/// Whether an edit drops its layer, or gives it another name.
fn ends_name(edit: &Edit) -> bool
    ensures { result ≡ ends_name_of edit.now }
{
    matches!(edit, Edit::DropLayer { .. } | Edit::RenameLayer { .. })
}

/// A copy of a rule with another name for a layer.
///
/// # Errors
///
/// Out of memory alone.
fn copy_renamed(alloc: Global, rule: &Rule, layer: &str, new_name: &str) -> Result<Rule, AllocError>
    ensures { IfOk result (λ copy. copy ≡ with_renamed layer.now new_name.now rule.now) }
{
    Ok(Rule {
        name: rule.name.copy(alloc)?,
        says: says_renamed(alloc, &rule.says, layer, new_name)?,
    })
}

/// A copy of what a rule says, with another name for a layer.
///
/// # Errors
///
/// Out of memory alone.
fn says_renamed(alloc: Global, says: &Says, layer: &str, new_name: &str) -> Result<Says, AllocError>
    ensures { IfOk result (λ copy. copy ≡ renamed_said layer.now new_name.now says.now) }
{
    match says {
        Says::OfLayers(rule) => {
            let copy = layer_rule_renamed(alloc, rule, layer, new_name)?;
            Ok(Says::OfLayers(copy))
        }
        Says::OfValues(rule) => {
            let copy = value_rule_renamed(alloc, rule, layer, new_name)?;
            Ok(Says::OfValues(copy))
        }
    }
}

/// The same of a rule between layers.
fn layer_rule_renamed(
    alloc: Global,
    rule: &LayerRule,
    layer: &str,
    new_name: &str,
) -> Result<LayerRule, AllocError>
    ensures { IfOk result (λ copy. OfLayers copy ≡ renamed_said layer.now new_name.now (OfLayers rule.now)) }
{
    Ok(LayerRule {
        form: rule.form,
        first: copy_unless_renamed(alloc, &rule.first, layer, new_name)?,
        ask: rule.ask,
        second: copy_unless_renamed(alloc, &rule.second, layer, new_name)?,
    })
}

/// The same of a rule on values.
fn value_rule_renamed(
    alloc: Global,
    rule: &ValueRule,
    layer: &str,
    new_name: &str,
) -> Result<ValueRule, AllocError>
    ensures { IfOk result (λ copy. OfValues copy ≡ renamed_said layer.now new_name.now (OfValues rule.now)) }
{
    Ok(ValueRule {
        demand: rule.demand.copy(alloc)?,
        layer: copy_unless_renamed(alloc, &rule.layer, layer, new_name)?,
        column: rule.column.copy(alloc)?,
    })
}

/// A copy of a name; of the new name where it is the old one.
///
/// # Errors
///
/// Out of memory alone.
fn copy_unless_renamed(
    alloc: Global,
    name: &Text,
    old: &str,
    new_name: &str,
) -> Result<Text, AllocError>
    ensures { IfOk result (λ copy. copy ≡ renamed old.now new_name.now name.now) }
{
    if old == name.as_str() {
        let copy = String::from_str(alloc, new_name)?;
        Ok(Text::from_string(copy))
    } else {
        name.copy(alloc)
    }
}
