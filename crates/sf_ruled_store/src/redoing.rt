//! Steps of a store with rules made again.

ghost use Rattle.std.specs.Prelude.{◌≡◌, IfErr, IfOk, IsOk, OnErr};
ghost use Rattle.sf_ruled_store.specs.Outcomes.{ruled};
ghost use Rattle.sf_ruled_store.specs.Undos.{FitsRedoUnder, IsSettled, MakesAgainUnder, TakesNoMemoryUnder};
ghost use Rattle.sf_ruled_store.specs.declared.redo.Redo.TheVariants as redos;

use super::redo::Redo;
use super::rules::Rules;
use super::undo::Undo;
use sf_edits::{Reverted, reapply};
use sf_layers::Store;
use std::alloc::Global;
use std::mem::swap;

/// Makes a step again that was taken back, and gives what takes it back.
///
/// # Errors
///
/// Those of `Ruled::make_again`.
pub(crate) fn make_again(
    alloc: Global,
    store: &mut Store,
    rules: &mut Rules,
    redo: Redo,
) -> Result<Undo, Redo>
    requires fits { FitsRedoUnder (ruled store.old rules.old) redo }
    requires settled { IsSettled (ruled store.old rules.old) }
    ensures made { IfOk result (λ undo.
        MakesAgainUnder (ruled store.old rules.old) redo undo (ruled store.new rules.new)) }
    ensures given_back { IfErr result (λ back. back ≡ redo) }
    ensures unchanged { OnErr result (store.new ≡ store.old) }
    ensures kept { OnErr result (rules.new ≡ rules.old) }
    ensures always { TakesNoMemoryUnder (ruled store.old rules.old) redo → IsOk result }
{
    match redo {
        Redo::Change(redo) => match super::changes::make_again(alloc, store, redo) {
            Ok(undo) => Ok(Undo::Change(undo)),
            Err(redo) => Err(Redo::Change(redo)),
        },
        Redo::Renamed {
            reverted,
            rules: after,
        } => { make_name_again(alloc, store, rules, reverted, after) }
        Redo::AddRule(rule) => {
            let place = rules.as_slice().len();
            match rules.put_back(place, rule) {
                Ok(()) => Ok(Undo::AddedRule),
                Err(rule) => Err(Redo::AddRule(rule)),
            }
        }
        Redo::DropRule { place } => {
            let rule = rules.take_at(place);
            Ok(Undo::DroppedRule { place, rule })
        }
    }
}

/// Gives a layer another name again, in the rules too.
fn make_name_again(
    alloc: Global,
    store: &mut Store,
    rules: &mut Rules,
    reverted: Reverted,
    after: Rules,
) -> Result<Undo, Redo>
    requires fits { FitsRedoUnder (ruled store.old rules.old) (redos.Renamed reverted after) }
    requires settled { IsSettled (ruled store.old rules.old) }
    ensures made { IfOk result (λ undo.
        MakesAgainUnder (ruled store.old rules.old) (redos.Renamed reverted after) undo (ruled store.new rules.new)) }
    ensures given_back { IfErr result (λ back. back ≡ redos.Renamed reverted after) }
    ensures unchanged { OnErr result (store.new ≡ store.old) }
    ensures kept { OnErr result (rules.new ≡ rules.old) }
{
    let mut exchanged = after;
    match reapply(alloc, store, reverted) {
        Ok(inverse) => {
            swap(rules, &mut exchanged);
            Ok(Undo::Renamed {
                inverse,
                rules: exchanged,
            })
        }
        Err(reverted) => Err(Redo::Renamed {
            reverted,
            rules: exchanged,
        }),
    }
}
