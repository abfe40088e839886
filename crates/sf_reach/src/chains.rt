//! Chains of features, followed breadth first by the layer's index.

ghost use Rattle.std.specs.Prelude.{◌≡◌, ◌↔◌, ℕ, Contains, IfOk, IfSome, IsSome, OnOk};
ghost use Rattle.sf_layers.specs.Content.{feature_of};
ghost use Rattle.sf_layers.specs.WellFormed.{IsLayer};
ghost use Rattle.sf_reach.specs.Added.{AreAdded};
ghost use Rattle.sf_reach.specs.Answers.{is_end};
ghost use Rattle.sf_reach.specs.Chains.{IsReached, IsStep};
ghost use Rattle.sf_reach.specs.Replies.{AreThere};

use super::found::Found;
use super::until::Until;
use sf_features::Feature;
use sf_joins::converse;
use sf_layers::Layer;
use sf_query::{Ask, features_asked};
use std::alloc::{AllocError, Global};

/// Which features are linked: the layer, what is asked of each with the next, and where chains end.
#[derive(Drop)]
pub(crate) struct Chains<'a> {
    pub(crate) layer: &'a Layer,
    pub(crate) ask: Ask,
    pub(crate) until: Option<Until<'a>>,
}

/// The identifiers of the features that chains lead to from the given ones, in the order in which they are found. Each is looked
/// at once.
///
/// # Errors
///
/// Out of memory alone.
pub(crate) fn found_from(
    alloc: Global,
    chains: &Chains<'_>,
    given: &[u32],
) -> Result<Found, AllocError>
    requires layer { IsLayer chains.now.layer.now }
    requires until { IfSome chains.now.until (λ stop. IsLayer stop.layer) }
    requires there { AreThere chains.now.layer.now given.now }
    ensures { IfOk result (λ found. (id : ℕ)
        → (Contains found id ↔ IsReached chains.now.layer.now chains.now.ask chains.now.until given.now id)) }
{
    let mut found = Found::none(alloc);
    add_all(&mut found, given)?;
    let mut looked = 0;
    while looked < found.order().len() {
        let id = found.order()[looked];
        add_next(alloc, chains, &mut found, id)?;
        looked += 1;
    }
    Ok(found)
}

/// Adds the features that a step leads to from one that was found.
///
/// # Errors
///
/// Out of memory alone.
fn add_next(
    alloc: Global,
    chains: &Chains<'_>,
    found: &mut Found,
    id: u32,
) -> Result<(), AllocError>
    requires layer { IsLayer chains.now.layer.now }
    requires until { IfSome chains.now.until (λ stop. IsLayer stop.layer) }
    requires there { IsSome (feature_of chains.now.layer.now id) }
    requires found { Contains found.old id }
    ensures { OnOk result (AreAdded (IsStep chains.now.layer.now chains.now.ask chains.now.until id) found.old found.new) }
{
    let feature = chains.layer.feature(id).unwrap();
    if ends_at(alloc, chains, id, feature)? {
        return Ok(());
    }
    let next = features_asked(alloc, chains.layer, &converse(&chains.ask), feature.valid())?;
    add_all(found, next.ids.as_slice())
}

/// Whether a feature of the layer ends the chains that lead to it.
///
/// # Errors
///
/// Out of memory alone.
fn ends_at(
    alloc: Global,
    chains: &Chains<'_>,
    id: u32,
    feature: &Feature,
) -> Result<bool, AllocError>
    requires { IfSome chains.now.until (λ stop. IsLayer stop.layer) }
    ensures { IfOk result (λ answer. answer ≡ is_end chains.now.until (id, feature.now)) }
{
    match &chains.until {
        None => Ok(false),
        Some(until) => until.is_end(alloc, id, feature),
    }
}

/// Adds the identifiers that are not there yet, behind the others.
///
/// # Errors
///
/// Out of memory alone.
fn add_all(found: &mut Found, ids: &[u32]) -> Result<(), AllocError>
    ensures { OnOk result (AreAdded (Contains ids.now) found.old found.new) }
{
    for id in ids {
        found.add(*id)?;
    }
    Ok(())
}
