//! Steps of a store with rules taken back.

ghost use Rattle.std.specs.Prelude.{◌≡◌, IfErr, IfOk, IsOk, OnErr};
ghost use Rattle.sf_ruled_store.specs.Outcomes.{ruled};
ghost use Rattle.sf_ruled_store.specs.Undos.{FitsUndoUnder, FreesOnlyUnder, TakesBackUnder};
ghost use Rattle.sf_ruled_store.specs.Undos.{IsSettled};
ghost use Rattle.sf_ruled_store.specs.declared.undo.Undo.TheVariants as undos;

use super::redo::Redo;
use super::rules::Rules;
use super::undo::Undo;
use sf_edits::revert;
use sf_layers::Store;
use sf_rules::Rule;
use sf_steps::Inverse;
use std::alloc::Global;
use std::mem::swap;

/// Takes a step back, and gives what makes it again.
///
/// # Errors
///
/// Those of `Ruled::take_back`.
pub(crate) fn take_back(
    alloc: Global,
    store: &mut Store,
    rules: &mut Rules,
    undo: Undo,
) -> Result<Redo, Undo>
    requires fits { FitsUndoUnder (ruled store.old rules.old) undo }
    requires settled { IsSettled (ruled store.old rules.old) }
    ensures taken { IfOk result (λ redo.
        TakesBackUnder (ruled store.old rules.old) undo redo (ruled store.new rules.new)) }
    ensures given_back { IfErr result (λ back. back ≡ undo) }
    ensures unchanged { OnErr result (store.new ≡ store.old) }
    ensures kept { OnErr result (rules.new ≡ rules.old) }
    ensures always { FreesOnlyUnder (ruled store.old rules.old) undo → IsOk result }
{
    match undo {
        Undo::Change(undo) => match super::changes::take_back(alloc, store, undo) {
            Ok(redo) => Ok(Redo::Change(redo)),
            Err(undo) => Err(Undo::Change(undo)),
        },
        Undo::Renamed {
            inverse,
            rules: before,
        } => { take_name_back(alloc, store, rules, inverse, before) }
        Undo::AddedRule => {
            let rule = rules.take_last().unwrap();
            Ok(Redo::AddRule(rule))
        }
        Undo::DroppedRule { place, rule } => match rules.put_back(place, rule) {
            Ok(()) => Ok(Redo::DropRule { place }),
            Err(rule) => Err(Undo::DroppedRule { place, rule }),
        },
    }
}

/// Gives a layer its old name back, in the rules too.
fn take_name_back(
    alloc: Global,
    store: &mut Store,
    rules: &mut Rules,
    inverse: Inverse,
    before: Rules,
) -> Result<Redo, Undo>
    requires fits { FitsUndoUnder (ruled store.old rules.old) (undos.Renamed inverse before) }
    requires settled { IsSettled (ruled store.old rules.old) }
    ensures taken { IfOk result (λ redo.
        TakesBackUnder (ruled store.old rules.old) (undos.Renamed inverse before) redo (ruled store.new rules.new)) }
    ensures given_back { IfErr result (λ back. back ≡ undos.Renamed inverse before) }
    ensures unchanged { OnErr result (store.new ≡ store.old) }
    ensures kept { OnErr result (rules.new ≡ rules.old) }
    ensures always { FreesOnlyUnder (ruled store.old rules.old) (undos.Renamed inverse before) → IsOk result }
{
    let mut exchanged = before;
    match revert(alloc, store, inverse) {
        Ok(reverted) => {
            swap(rules, &mut exchanged);
            Ok(Redo::Renamed {
                reverted,
                rules: exchanged,
            })
        }
        Err(inverse) => Err(Undo::Renamed {
            inverse,
            rules: exchanged,
        }),
    }
}
