//! A group carried out beside the store, and what leads from the store to what came of it.
ghost use Rattle.std.specs.Prelude.{IfErr, IfOk};
ghost use Rattle.sf_together.specs.Outcomes.{IsRefusedAs};
ghost use Rattle.sf_together.specs.Plans.{IsPlan};

use super::members::carry_out_all;
use super::outcome::{Plan, Refusal};
use super::removals::keys_of;
use super::scratch::{is_well_formed, scratch_for};
use super::slots::halves_to;
use sf_groups::Group;
use sf_layers::Store;
use std::alloc::Global;

/// What a group gives, and the halves that lead there: who exchanges them with the store has carried it out. The store is read
/// alone: members are carried out on a scratch store.
///
/// # Errors
///
/// The first member that is refused; out of memory may come in its place, and in the place of success.
pub fn plan(alloc: Global, store: &Store, group: Group) -> Result<Plan, Refusal>
    ensures planned { IfOk result (λ plan. IsPlan store.now group plan.halves plan.ids.items) }
    ensures refused { IfErr result (IsRefusedAs store.now group) }
{
    is_well_formed(store);
    group.brings_grid_points();
    let members = group.into_members();
    let mut scratch = scratch_for(alloc, store, members.as_slice())?;
    is_well_formed(&scratch);
    let keys = keys_of(alloc, store, &scratch)?;
    let ids = carry_out_all(alloc, &mut scratch, members)?;
    let halves = halves_to(alloc, store, scratch, keys.as_slice())?;
    Ok(Plan { ids, halves })
}
