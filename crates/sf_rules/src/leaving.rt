//! The features that are about to be removed.

ghost use Rattle.std.specs.Prelude.{◌≡◌, [], IfOk, OnOk};
ghost use Rattle.sf_rules.specs.Leaving.{HasAlso, HasIds, is_leaving};

use sf_patches::Slot;
use std::alloc::{AllocError, Global};
use std::collections::BTreeSet;
use std::marker::Model;

/// Exchanges that are still to be made, each of which removes a feature, and a set of these features: each is found there without
/// going through the exchanges. Contracts see the exchanges.
#[derive(Drop)]
pub(crate) struct Leaving<'a> {
    slots: &'a [Slot],
    // The place of its layer, and its identifier.
    ids: BTreeSet<(usize, u32)>,
}

impl<'a> Model for Leaving<'a> {
    ghost use Rattle.std.specs.Prelude.{List};
    ghost use Rattle.sf_patches.specs.declared.slot.Slot.{Slot};
    ghost use Rattle.sf_rules.specs.Leaving.{HasIds};

    ghost Value = { List Slot };

    ghost view = { λ a. a.slots.now };

    ghost invariant = { λ a. HasIds a.ids a.slots.now };
}

impl<'a> Leaving<'a> {
    /// No feature is to be removed.
    pub(crate) fn none(alloc: Global) -> Leaving<'a>
        ensures { result ≡ [] }
    {
        Leaving {
            slots: &[],
            ids: BTreeSet::new(alloc),
        }
    }

    /// Those that these exchanges remove.
    ///
    /// # Errors
    ///
    /// Out of memory.
    pub(crate) fn of(alloc: Global, slots: &'a [Slot]) -> Result<Leaving<'a>, AllocError>
        ensures { IfOk result (λ leaving. leaving ≡ slots.now) }
    {
        let ids = ids_of(alloc, slots)?;
        Ok(Leaving { slots, ids })
    }

    /// The exchanges.
    pub(crate) fn slots(&self) -> &[Slot]
        ensures { result.now ≡ self.now }
    {
        self.slots
    }

    /// Whether the feature under an identifier is to be removed from the layer at a place.
    pub(crate) fn has(&self, place: usize, id: u32) -> bool
        ensures { result ≡ is_leaving self.now place id }
    {
        self.ids.contains(&(place, id))
    }
}

/// The features that exchanges are of.
///
/// # Errors
///
/// Out of memory.
fn ids_of(alloc: Global, slots: &[Slot]) -> Result<BTreeSet<(usize, u32)>, AllocError>
    ensures { IfOk result (λ ids. HasIds ids slots.now) }
{
    let mut ids = BTreeSet::new(alloc);
    for slot in slots {
        put_id(&mut ids, slot)?;
    }
    Ok(ids)
}

/// Puts the feature that an exchange is of to the others.
///
/// # Errors
///
/// Out of memory.
fn put_id(ids: &mut BTreeSet<(usize, u32)>, slot: &Slot) -> Result<(), AllocError>
    ensures { OnOk result (HasAlso ids.old slot.now ids.new) }
{
    match slot {
        Slot::State { place, id, .. } => {
            ids.insert((*place, *id))?;
            Ok(())
        }
        Slot::Counter { .. } => Ok(()),
    }
}
