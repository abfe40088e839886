//! Where chains end.

ghost use Rattle.std.specs.Prelude.{◌≡◌, IfOk, Some};
ghost use Rattle.std.specs.List.{list_any};
ghost use Rattle.sf_layers.specs.WellFormed.{IsLayer};
ghost use Rattle.sf_joins.specs.Joins.{are_distinct as are_distinct_of};
ghost use Rattle.sf_reach.specs.Answers.{is_end};

use sf_features::Feature;
use sf_joins::converse;
use sf_layers::Layer;
use sf_query::{Ask, features_asked};
use std::alloc::{AllocError, Global};
use std::marker::Model;

/// The layer whose features end chains, and how. Contracts see a `Stop`.
#[derive(Drop)]
pub(crate) struct Until<'a> {
    is_own: bool,
    layer: &'a Layer,
    ask: Ask,
}

impl<'a> Model for Until<'a> {
    ghost use Rattle.sf_reach.specs.Chains.{Stop};

    ghost Value = { Stop };

    ghost view = { λ u. record { is_own = u.is_own; layer = u.layer.now; ask = u.ask } };
}

impl<'a> Until<'a> {
    /// Ends at the features that are as asked with one of the layer, which is the chains' own one where `is_own` says so.
    pub(crate) fn new(layer: &'a Layer, ask: Ask, is_own: bool) -> Until<'a>
        ensures { result ≡ record { is_own = is_own; layer = layer.now; ask = ask } }
    {
        Until { is_own, layer, ask }
    }

    /// Whether a feature of the chains' layer is an end.
    ///
    /// # Errors
    ///
    /// Out of memory alone.
    pub(crate) fn is_end(
        &self,
        alloc: Global,
        id: u32,
        feature: &Feature,
    ) -> Result<bool, AllocError>
        requires { IsLayer self.now.layer }
        ensures { IfOk result (λ answer. answer ≡ is_end (Some self.now) (id, feature.now)) }
    {
        let found = features_asked(alloc, self.layer, &converse(&self.ask), feature.valid())?;
        Ok(has_distinct(found.ids.as_slice(), self.is_own, id))
    }
}

/// Whether one of the identifiers is of a feature distinct from the one under `id`. They are of one layer where `one` says so.
fn has_distinct(ids: &[u32], one: bool, id: u32) -> bool
    ensures { result ≡ list_any (λ other. are_distinct_of one id other) ids.now }
{
    ids.iter().any(|other| are_distinct(one, id, *other))
}

/// Whether two features are distinct, which are of one layer where `one` says so.
fn are_distinct(one: bool, first: u32, second: u32) -> bool
    ensures { result ≡ are_distinct_of one first second }
{
    !(one && first == second)
}
