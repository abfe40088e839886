//! A store with the rules that hold in it.

ghost use Rattle.std.specs.Prelude.{◌≡◌, [], IfErr, IfOk, IsOk, OnErr, length};
ghost use Rattle.sf_ruled_store.specs.Ruled.{AddRule, DropRule, OfChange, ruled_step};
ghost use Rattle.sf_ruled_store.specs.Laws.{IsKept};
ghost use Rattle.sf_ruled_store.specs.Outcomes.{IsRefusedAs, ruled};
ghost use Rattle.sf_ruled_store.specs.Undos.{FitsRedoUnder, FitsUndoUnder, FreesOnlyUnder, IsEdited, IsGrouped, IsLed, MakesAgainUnder, TakesBackUnder, TakesNoMemoryUnder};
ghost use Rattle.sf_ruled_store.specs.Changes.{OfEdit, OfGroup};

use super::edits::{Edited, Grouped, carry_out_group, carry_out_ruled, carry_out_unseen};
use super::redo::Redo;
use super::refusal::Refusal;
use super::rules::Rules;
use super::undo::Undo;
use sf_groups::Group;
use sf_layers::Store;
use sf_rules::Rule;
use sf_steps::Edit;
use std::alloc::Global;
use std::marker::Model;

/// A store with rules, which hold in it. Contracts see the content and the list of rules.
#[derive(Drop)]
pub struct Ruled {
    store: Store,
    rules: Rules,
}

impl Model for Ruled {
    ghost use Rattle.sf_ruled_store.specs.Ruled.{Ruled as RuledContent};
    ghost use Rattle.sf_ruled_store.specs.Outcomes.{ruled};
    ghost use Rattle.sf_ruled_store.specs.Undos.{IsSettled};

    ghost Value = { RuledContent };

    ghost view = { λ a. ruled a.store a.rules };

    ghost invariant = { λ a. IsSettled (ruled a.store a.rules) };
}

impl Ruled {
    /// A store with no rule.
    pub fn from_store(alloc: Global, store: Store) -> Ruled
        ensures { result ≡ ruled store [] }
    {
        Ruled {
            store,
            rules: Rules::new(alloc),
        }
    }

    /// The store.
    pub fn store(&self) -> &Store
        ensures { result.now ≡ self.now.content }
    {
        &self.store
    }

    /// The rules, in the order in which they were added.
    pub fn rules(&self) -> &Rules
        ensures { result.now ≡ self.now.rules }
    {
        &self.rules
    }

    /// How many rules there are. All of them hold.
    pub fn rule_count(&self) -> usize
        ensures count { result ≡ length self.now.rules }
        ensures kept { IsKept self.now }
    {
        // The store's type keeps its content well formed. Asked for a number, it shows the proof so.
        let _ = self.store.layer_count();
        self.rules.as_slice().len()
    }

    /// The store, moved out of its rules.
    pub fn into_store(self) -> Store
        ensures { result ≡ self.content }
    {
        self.store
    }

    /// Carries out an edit.
    ///
    /// # Errors
    ///
    /// `ByEdit` as `step` has it; then `LayerRuled` for a layer that is dropped, `ColumnRuled` for a column; then `RuleBroken` with the
    /// first rule that would be broken, and what breaks it first. Out of memory in the place of any. Nothing is changed then.
    pub fn edit(&mut self, alloc: Global, edit: Edit) -> Result<Edited, Refusal>
        ensures accepted { IfOk result (λ done. IsEdited self.old edit done.answer done.undo self.new) }
        ensures refused { IfErr result (IsRefusedAs (ruled_step self.old (OfChange (OfEdit edit)))) }
        ensures unchanged { OnErr result (self.new ≡ self.old) }
    {
        if self.rules.see(&edit) {
            carry_out_ruled(alloc, &mut self.store, &mut self.rules, edit)
        } else {
            carry_out_unseen(alloc, &mut self.store, &self.rules, edit)
        }
    }

    /// Carries out a group, as one step.
    ///
    /// # Errors
    ///
    /// `ByMember`, of the first member that is refused; then `RuleBroken`. Out of memory in the place of any. Nothing is changed
    /// then.
    pub fn group(&mut self, alloc: Global, group: Group) -> Result<Grouped, Refusal>
        ensures accepted { IfOk result (λ done. IsGrouped self.old group done.ids.items done.undo self.new) }
        ensures refused { IfErr result (IsRefusedAs (ruled_step self.old (OfChange (OfGroup group)))) }
        ensures unchanged { OnErr result (self.new ≡ self.old) }
    {
        carry_out_group(alloc, &mut self.store, &self.rules, group)
    }

    /// Adds a rule behind the others, where it holds.
    ///
    /// # Errors
    ///
    /// Those of `Rules::add`. The rule is given back, and nothing is changed then.
    pub fn add_rule(&mut self, alloc: Global, rule: Rule) -> Result<Undo, (Rule, Refusal)>
        ensures accepted { IfOk result (λ undo. IsLed self.old (ruled_step self.old (AddRule rule)) undo self.new) }
        ensures refused { IfErr result (λ e. IsRefusedAs (ruled_step self.old (AddRule rule)) e.1) }
        ensures given_back { IfErr result (λ e. e.0 ≡ rule) }
        ensures unchanged { OnErr result (self.new ≡ self.old) }
    {
        self.rules.add(alloc, &self.store, rule)?;
        Ok(Undo::AddedRule)
    }

    /// Makes the index by value of a column of the layer at a place, by the column's number, where there is none. Where no memory
    /// is found, or no layer is there, nothing is done.
    pub fn index_values(&mut self, alloc: Global, place: usize, number: u16)
        ensures { self.new ≡ self.old }
    {
        self.store.index_values(alloc, place, number);
    }

    /// Drops the rule of a name.
    ///
    /// # Errors
    ///
    /// `NoRule` exactly where no rule has the name. Nothing is changed then.
    pub fn drop_rule(&mut self, name: &str) -> Result<Undo, Refusal>
        ensures accepted { IfOk result (λ undo. IsLed self.old (ruled_step self.old (DropRule name.now)) undo self.new) }
        ensures refused { IfErr result (λ refusal. ruled_step self.old (DropRule name.now) ≡ Err refusal) }
        ensures unchanged { OnErr result (self.new ≡ self.old) }
    {
        let (place, rule) = self.rules.remove(name)?;
        Ok(Undo::DroppedRule { place, rule })
    }

    /// Takes a step back, and gives what makes it again. No rule is looked at: all held before the step.
    ///
    /// # Errors
    ///
    /// Where no memory is found, what was to be carried out is given back and nothing is changed. What only removes or exchanges is
    /// never refused so.
    pub fn take_back(&mut self, alloc: Global, undo: Undo) -> Result<Redo, Undo>
        requires { FitsUndoUnder self.old undo }
        ensures taken { IfOk result (λ redo. TakesBackUnder self.old undo redo self.new) }
        ensures given_back { IfErr result (λ back. back ≡ undo) }
        ensures unchanged { OnErr result (self.new ≡ self.old) }
        ensures always { FreesOnlyUnder self.old undo → IsOk result }
    {
        super::undoing::take_back(alloc, &mut self.store, &mut self.rules, undo)
    }

    /// Makes a step again that was taken back, and gives what takes it back. No rule is looked at: all held behind the step.
    ///
    /// # Errors
    ///
    /// Where no memory is found, what was to be carried out is given back and nothing is changed. What only removes or exchanges is
    /// never refused so.
    pub fn make_again(&mut self, alloc: Global, redo: Redo) -> Result<Undo, Redo>
        requires { FitsRedoUnder self.old redo }
        ensures made { IfOk result (λ undo. MakesAgainUnder self.old redo undo self.new) }
        ensures given_back { IfErr result (λ back. back ≡ redo) }
        ensures unchanged { OnErr result (self.new ≡ self.old) }
        ensures always { TakesNoMemoryUnder self.old redo → IsOk result }
    {
        super::redoing::make_again(alloc, &mut self.store, &mut self.rules, redo)
    }
}
