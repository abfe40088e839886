//! Exchanges with a store under rules.

ghost use Rattle.std.specs.Prelude.{◌≡◌, IfErr, None, OnErr, OnOk};
ghost use Rattle.sf_rules.specs.Exchanging.{ComesOfGrowing, IsRefusedUnder};
ghost use Rattle.sf_rules.specs.Underway.{CanLeave};
ghost use Rattle.sf_rules.specs.Rules.{first_broken};
ghost use Rattle.sf_patches.specs.Halves.{FitsHalves, RemovesOnly, after_halves, back_halves};
ghost use Rattle.sf_patches.specs.Patches.{patched};
ghost use Rattle.sf_rules.specs.declared.exchanging.NotExchanged.TheVariants.{Memory};

use super::breaks::Broken;
use super::column::make_index;
use super::near::first_broken_near;
use super::rule::Rule;
use sf_layers::Store;
use sf_patches::{Halves, Patch};
use std::alloc::{AllocError, Global};
use std::mem::swap;

/// Why a patch is not exchanged under rules.
#[derive(Clone, Copy, Debug, PartialEq, Eq)]
pub enum NotExchanged {
    /// A rule would be broken.
    Broken(Broken),
    /// No memory was found.
    Memory,
}

impl From<AllocError> for NotExchanged {
    ghost from_gives = { λ _ refusal. refusal ≡ Memory };

    fn from(_error: AllocError) -> NotExchanged {
        NotExchanged::Memory
    }
}

/// Exchanges what the halves hold with what the store has there, if all rules hold then. The halves then hold what was there:
/// `Halves::exchange` takes it back. Rules are looked at once all is made that may need memory, and before the first feature is
/// removed: so nothing that is taken back needs memory.
///
/// # Errors
///
/// The first rule that would be broken, or out of memory; all is then as it was.
pub fn exchange_under(
    alloc: Global,
    store: &mut Store,
    rules: &[Rule],
    halves: &mut Halves,
) -> Result<(), NotExchanged>
    requires fits { FitsHalves store.old halves.old }
    requires leaves { RemovesOnly halves.old.removing }
    requires held { first_broken store.old rules.now ≡ None }
    ensures exchanged { OnOk result (store.new ≡ after_halves store.old halves.old) }
    ensures back { OnOk result (halves.new ≡ back_halves store.old halves.old) }
    ensures hold { OnOk result (first_broken store.new rules.now ≡ None) }
    ensures refused { IfErr result (IsRefusedUnder (after_halves store.old halves.old) rules.now) }
    ensures unchanged { OnErr result (store.new ≡ store.old) }
    ensures kept { OnErr result (halves.new ≡ halves.old) }
{
    make_indexes(alloc, store, rules);
    exchange_looked_at(alloc, store, rules, halves)
}

/// Makes the indexes that rules look into, where there are none and memory is found.
pub fn make_indexes(alloc: Global, store: &mut Store, rules: &[Rule])
    ensures { store.new ≡ store.old }
{
    for rule in rules {
        make_index(alloc, store, rule);
    }
}

/// The same, whatever indexes there are.
fn exchange_looked_at(
    alloc: Global,
    store: &mut Store,
    rules: &[Rule],
    halves: &mut Halves,
) -> Result<(), NotExchanged>
    requires fits { FitsHalves store.old halves.old }
    requires leaves { RemovesOnly halves.old.removing }
    requires held { first_broken store.old rules.now ≡ None }
    ensures exchanged { OnOk result (store.new ≡ after_halves store.old halves.old) }
    ensures back { OnOk result (halves.new ≡ back_halves store.old halves.old) }
    ensures hold { OnOk result (first_broken store.new rules.now ≡ None) }
    ensures refused { IfErr result (IsRefusedUnder (after_halves store.old halves.old) rules.now) }
    ensures unchanged { OnErr result (store.new ≡ store.old) }
    ensures kept { OnErr result (halves.new ≡ halves.old) }
{
    halves.growing.exchange(alloc, store)?;
    if let Err(refusal) = look(alloc, store, &halves.growing, &halves.removing, rules) {
        halves.growing.exchange(alloc, store).unwrap();
        return Err(refusal);
    }
    halves.removing.exchange(alloc, store).unwrap();
    swap(&mut halves.growing, &mut halves.removing);
    Ok(())
}

/// Whether rules hold once the second half is made too.
///
/// # Errors
///
/// The first rule that would be broken, or out of memory.
fn look(
    alloc: Global,
    store: &Store,
    made: &Patch,
    leaving: &Patch,
    rules: &[Rule],
) -> Result<(), NotExchanged>
    requires held { ComesOfGrowing store.now made.now rules.now }
    requires leaves { CanLeave store.now leaving.now }
    ensures hold { OnOk result (first_broken (patched store.now leaving.now) rules.now ≡ None) }
    ensures refused { IfErr result (IsRefusedUnder (patched store.now leaving.now) rules.now) }
{
    match first_broken_near(alloc, store, rules, made.slots(), leaving.slots())? {
        None => Ok(()),
        Some(broken) => Err(NotExchanged::Broken(broken)),
    }
}
