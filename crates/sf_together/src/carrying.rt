ghost use Rattle.std.specs.Prelude.{◌≡◌, IfErr, IfOk, OnErr};
ghost use Rattle.sf_groups.specs.Groups.{AcceptsGroup};
ghost use Rattle.sf_together.specs.Outcomes.{IsRefusedAs};

use super::outcome::{Plan, Refusal, Together};
use super::planning::plan;
use sf_groups::Group;
use sf_layers::Store;
use std::alloc::Global;

/// Carries out a group: all of its members in order, each in what those before it have left, or none.
///
/// # Errors
///
/// The first member that is refused; out of memory may come in its place, and in the place of success. The store
/// is then as it was.
pub fn together(alloc: Global, store: &mut Store, group: Group) -> Result<Together, Refusal>
    ensures accepted { IfOk result (λ done.
        AcceptsGroup store.old group done.halves done.ids.items store.new) }
    ensures refused { IfErr result (IsRefusedAs store.old group) }
    ensures unchanged { OnErr result (store.new ≡ store.old) }
{
    let Plan { ids, mut halves } = plan(alloc, store, group)?;
    halves.exchange(alloc, store)?;
    Ok(Together { ids, halves })
}
