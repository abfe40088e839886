ghost use Rattle.std.specs.Prelude.{◌≡◌, ◌⊎◌, ◌+◌, ◌≤◌, ◌∷◌, ◌++◌, [], length, take, Ok, Err, IsOk, OnOk, OnErr, IfOk, IfErr, vec_capacity};
ghost use Rattle.sf_ruled_store.specs.declared.refusal.Refusal.TheVariants.{Memory};
ghost use Rattle.sf_ruled_store.specs.Ruled.{AddRule, DropRule};
ghost use Rattle.sf_history.specs.History.{edited, fresh, fresh_under, grouped, redone, ruled_now, stepped, undone};

use sf_layers::Store;
use sf_refusals::Refusal;
use sf_ruled_store::{
    Answer, Edit, Edited, Group, Grouped, Redo, Refusal as StepRefusal, Rule, Ruled, Rules, Undo,
};
use std::alloc::{AllocError, Global};
use std::marker::Model;

/// A store and its rules with the history of their steps, which several editors make in turn, each known by a number.
/// Contracts see the content and the rules now with the past and future ones, and whose step stands beside each.
#[derive(Drop)]
pub struct Editor {
    ruled: Ruled,
    // The last one is that of the last step.
    done: Vec<Undo>,
    // The last one is the next to be redone.
    undone: Vec<Redo>,
    // Whose steps these are: of those done the first one first, then of those undone the next one first. So
    // undo and redo leave them as they are.
    editors: Vec<u8>,
}

/// How many steps can be undone, and how many redone.
#[derive(Clone, Copy, Debug, PartialEq, Eq)]
pub struct Depths {
    pub past: usize,
    pub future: usize,
}

impl Model for Editor {
    ghost use Rattle.std.specs.Prelude.{◌≡◌, ◌+◌, length, reverse, take, drop};
    ghost use Rattle.sf_history.specs.History.{Machine, past_of, future_of, FitInTurn, LeadOnInTurn};

    ghost Value = { Machine };

    ghost view = { λ a. record {
      past = past_of a.ruled (reverse a.done.items) (reverse (take (length a.done.items) a.editors.items));
      now = a.ruled.content;
      rules = a.ruled.rules;
      future = future_of a.ruled (reverse a.undone.items) (drop (length a.done.items) a.editors.items);
    } };

    ghost invariant = { λ a.
        FitInTurn a.ruled (reverse a.done.items) × LeadOnInTurn a.ruled (reverse a.undone.items)
        × (length a.editors.items ≡ length a.done.items + length a.undone.items) };
}

impl Editor {
    /// An editor of a store with no layer and no rule, with neither past nor future.
    pub fn new(alloc: Global) -> Editor
        ensures { result ≡ fresh [] }
    {
        Editor::from_store(alloc, Store::new(alloc))
    }

    /// An editor of a store with no rule, with neither past nor future.
    pub fn from_store(alloc: Global, store: Store) -> Editor
        ensures { result ≡ fresh store }
    {
        Editor::from_ruled(alloc, Ruled::from_store(alloc, store))
    }

    /// An editor of a store with rules, with neither past nor future.
    pub fn from_ruled(alloc: Global, ruled: Ruled) -> Editor
        ensures { result ≡ fresh_under ruled }
    {
        Editor {
            ruled,
            done: Vec::new(alloc),
            undone: Vec::new(alloc),
            editors: Vec::new(alloc),
        }
    }

    /// Makes the index by value of a column of the layer at a place, by the column's number, where there is none. Where no memory
    /// is found, or no layer is there, nothing is done.
    pub fn index_values(&mut self, alloc: Global, place: usize, number: u16)
        ensures { self.new ≡ self.old }
    {
        self.ruled.index_values(alloc, place, number);
    }

    /// Carries out an edit of the editor, and empties the future.
    ///
    /// # Errors
    ///
    /// Those of `Ruled::edit`. Nothing is changed then.
    pub fn edit_as(&mut self, alloc: Global, editor: u8, edit: Edit) -> Result<Answer, StepRefusal>
        ensures accepted { IfOk result (λ answer. edited editor self.old edit ≡ Ok (self.new, answer)) }
        ensures refused { IfErr result (λ refusal.
            (edited editor self.old edit ≡ Err refusal) ⊎ (refusal ≡ Memory)) }
        ensures unchanged { OnErr result (self.new ≡ self.old) }
    {
        reserve_step(&mut self.done, &mut self.editors)?;
        match self.ruled.edit(alloc, edit) {
            Ok(Edited { answer, undo }) => {
                advance(
                    &mut self.done,
                    &mut self.undone,
                    &mut self.editors,
                    undo,
                    editor,
                );
                Ok(answer)
            }
            Err(refusal) => Err(refusal),
        }
    }

    /// Carries out several edits of features as one step of the editor, and empties the future. Gives the identifiers of
    /// their additions, in order.
    ///
    /// # Errors
    ///
    /// Those of `Ruled::group`. Nothing is changed then.
    pub fn group_as(
        &mut self,
        alloc: Global,
        editor: u8,
        group: Group,
    ) -> Result<Vec<u32>, StepRefusal>
        ensures accepted { IfOk result (λ ids. grouped editor self.old group ≡ Ok (self.new, ids.items)) }
        ensures refused { IfErr result (λ refusal.
            (grouped editor self.old group ≡ Err refusal) ⊎ (refusal ≡ Memory)) }
        ensures unchanged { OnErr result (self.new ≡ self.old) }
    {
        reserve_step(&mut self.done, &mut self.editors)?;
        match self.ruled.group(alloc, group) {
            Ok(Grouped { ids, undo }) => {
                advance(
                    &mut self.done,
                    &mut self.undone,
                    &mut self.editors,
                    undo,
                    editor,
                );
                Ok(ids)
            }
            Err(refusal) => Err(refusal),
        }
    }

    /// Adds a rule as a step of the editor, and empties the future.
    ///
    /// # Errors
    ///
    /// Those of `Ruled::add_rule`. The rule is given back, and nothing is changed then.
    pub fn add_rule_as(
        &mut self,
        alloc: Global,
        editor: u8,
        rule: Rule,
    ) -> Result<(), (Rule, StepRefusal)>
        ensures accepted { OnOk result (stepped editor self.old (AddRule rule) ≡ Ok self.new) }
        ensures refused { IfErr result (λ e.
            (stepped editor self.old (AddRule rule) ≡ Err e.1) ⊎ (e.1 ≡ Memory)) }
        ensures given_back { IfErr result (λ e. e.0 ≡ rule) }
        ensures unchanged { OnErr result (self.new ≡ self.old) }
    {
        if reserve_step(&mut self.done, &mut self.editors).is_err() {
            return Err((rule, StepRefusal::Memory));
        }
        match self.ruled.add_rule(alloc, rule) {
            Ok(undo) => {
                advance(
                    &mut self.done,
                    &mut self.undone,
                    &mut self.editors,
                    undo,
                    editor,
                );
                Ok(())
            }
            Err(refused) => Err(refused),
        }
    }

    /// Drops the rule of a name as a step of the editor, and empties the future.
    ///
    /// # Errors
    ///
    /// `NoRule` where no rule has the name; out of memory in its place, and in the place of success. Nothing is changed then.
    pub fn drop_rule_as(&mut self, editor: u8, name: &str) -> Result<(), StepRefusal>
        ensures accepted { OnOk result (stepped editor self.old (DropRule name.now) ≡ Ok self.new) }
        ensures refused { IfErr result (λ refusal.
            (stepped editor self.old (DropRule name.now) ≡ Err refusal) ⊎ (refusal ≡ Memory)) }
        ensures unchanged { OnErr result (self.new ≡ self.old) }
    {
        reserve_step(&mut self.done, &mut self.editors)?;
        match self.ruled.drop_rule(name) {
            Ok(undo) => {
                advance(
                    &mut self.done,
                    &mut self.undone,
                    &mut self.editors,
                    undo,
                    editor,
                );
                Ok(())
            }
            Err(refusal) => Err(refusal),
        }
    }

    /// Takes the last step back, where it was editor 0's.
    pub fn undo(&mut self, alloc: Global) -> Result<(), Refusal>
        ensures done { OnOk result (undone 0 self.old ≡ Ok self.new) }
        ensures refused { IfErr result (λ refusal. (undone 0 self.old ≡ Err refusal)
            ⊎ ((refusal ≡ Refusal.Memory) × IsOk (undone 0 self.old))) }
        ensures unchanged { OnErr result (self.new ≡ self.old) }
    {
        self.undo_as(alloc, 0)
    }

    /// Takes the last step back, where it was the editor's: `NothingToUndo` without a past, `NotYours` where it
    /// was another's. A refused undo changes nothing, and but for `Memory` it takes no memory.
    pub fn undo_as(&mut self, alloc: Global, editor: u8) -> Result<(), Refusal>
        ensures done { OnOk result (undone editor self.old ≡ Ok self.new) }
        ensures refused { IfErr result (λ refusal. (undone editor self.old ≡ Err refusal)
            ⊎ ((refusal ≡ Refusal.Memory) × IsOk (undone editor self.old))) }
        ensures unchanged { OnErr result (self.new ≡ self.old) }
    {
        let Some(last) = self.done.len().checked_sub(1) else {
            return Err(Refusal::NothingToUndo);
        };
        let owner = self.editors[last];
        if owner != editor {
            return Err(Refusal::NotYours(owner));
        }
        // The place among the steps to be redone comes first.
        if self.undone.reserve(1).is_err() {
            return Err(Refusal::Memory);
        }
        let undo = self.done.pop().unwrap();
        match self.ruled.take_back(alloc, undo) {
            Ok(redo) => {
                self.undone.push(redo).unwrap();
                Ok(())
            }
            Err(undo) => {
                self.done.push(undo).unwrap();
                Err(Refusal::Memory)
            }
        }
    }

    /// Redoes the last step that was taken back, where it was editor 0's.
    pub fn redo(&mut self, alloc: Global) -> Result<(), Refusal>
        ensures done { OnOk result (redone 0 self.old ≡ Ok self.new) }
        ensures refused { IfErr result (λ refusal. (redone 0 self.old ≡ Err refusal)
            ⊎ ((refusal ≡ Refusal.Memory) × IsOk (redone 0 self.old))) }
        ensures unchanged { OnErr result (self.new ≡ self.old) }
    {
        self.redo_as(alloc, 0)
    }

    /// Redoes the last step that was taken back, where it was the editor's: `NothingToRedo` without a
    /// future, `NotYours` where it was another's. A refused redo changes nothing, and but for `Memory` it takes
    /// no memory.
    pub fn redo_as(&mut self, alloc: Global, editor: u8) -> Result<(), Refusal>
        ensures done { OnOk result (redone editor self.old ≡ Ok self.new) }
        ensures refused { IfErr result (λ refusal. (redone editor self.old ≡ Err refusal)
            ⊎ ((refusal ≡ Refusal.Memory) × IsOk (redone editor self.old))) }
        ensures unchanged { OnErr result (self.new ≡ self.old) }
    {
        if self.undone.is_empty() {
            return Err(Refusal::NothingToRedo);
        }
        let owner = self.editors[self.done.len()];
        if owner != editor {
            return Err(Refusal::NotYours(owner));
        }
        if self.done.reserve(1).is_err() {
            return Err(Refusal::Memory);
        }
        let redo = self.undone.pop().unwrap();
        match self.ruled.make_again(alloc, redo) {
            Ok(undo) => {
                self.done.push(undo).unwrap();
                Ok(())
            }
            // It was accepted once, from this very content: only memory can run out.
            Err(redo) => {
                self.undone.push(redo).unwrap();
                Err(Refusal::Memory)
            }
        }
    }

    /// The store as it is now.
    pub fn store(&self) -> &Store
        ensures { result.now ≡ self.now.now }
    {
        self.ruled.store()
    }

    /// The rules as they are now.
    pub fn rules(&self) -> &Rules
        ensures { result.now ≡ self.now.rules }
    {
        self.ruled.rules()
    }

    /// The store with its rules as they are now.
    pub fn ruled(&self) -> &Ruled
        ensures { result.now ≡ ruled_now self.now }
    {
        &self.ruled
    }

    /// The store as it is now, moved out of its editor.
    pub fn into_store(self) -> Store
        ensures { result ≡ self.now }
    {
        self.ruled.into_store()
    }

    /// The store with its rules as they are now, moved out of their editor.
    pub fn into_ruled(self) -> Ruled
        ensures { result ≡ ruled_now self }
    {
        self.ruled
    }

    /// How many steps can be undone, and how many redone.
    pub fn depths(&self) -> Depths
        ensures { result ≡ record { past = length self.now.past; future = length self.now.future } }
    {
        Depths {
            past: self.done.len(),
            future: self.undone.len(),
        }
    }
}

// Finds room for one more step.
fn reserve_step(done: &mut Vec<Undo>, editors: &mut Vec<u8>) -> Result<(), AllocError>
    ensures done { OnOk result (length done.new.items + 1 ≤ vec_capacity done.new) }
    ensures editors { OnOk result (length editors.new.items + 1 ≤ vec_capacity editors.new) }
    ensures same_done { done.new.items ≡ done.old.items }
    ensures same_editors { editors.new.items ≡ editors.old.items }
{
    done.reserve(1)?;
    editors.reserve(1)
}

// Puts what takes a step of the editor back behind the others, and empties the future. There is room for it.
fn advance(
    done: &mut Vec<Undo>,
    undone: &mut Vec<Redo>,
    editors: &mut Vec<u8>,
    undo: Undo,
    editor: u8,
)
    requires done { length done.old.items + 1 ≤ vec_capacity done.old }
    requires editors { length editors.old.items + 1 ≤ vec_capacity editors.old }
    ensures done { done.new.items ≡ done.old.items ++ undo ∷ [] }
    ensures undone { undone.new.items ≡ [] }
    ensures editors { editors.new.items ≡ take (length done.old.items) editors.old.items ++ editor ∷ [] }
{
    editors.truncate(done.len());
    editors.push(editor).unwrap();
    done.push(undo).unwrap();
    undone.clear();
}
