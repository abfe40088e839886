//! What was found.

ghost use Rattle.std.specs.Prelude.{◌≡◌, [], IfOk, OnOk, nat_eq};
ghost use Rattle.std.specs.List.{IsDistinct};
ghost use Rattle.sf_reach.specs.Added.{AreAdded};
ghost use Rattle.sf_reach.specs.Found.{AreRising};

use std::alloc::{AllocError, Global};
use std::collections::BTreeSet;
use std::marker::Model;

/// Identifiers in the order in which they were found, each once, and a set of them. The set is a tree, so no choice of identifiers
/// makes it slow, as some would a set by hashes. Contracts see the order.
#[derive(Drop)]
pub(crate) struct Found {
    order: Vec<u32>,
    ids: BTreeSet<u32>,
}

impl Model for Found {
    ghost use Rattle.std.specs.Prelude.{ℕ, List};
    ghost use Rattle.sf_reach.specs.Found.{IsSetOf};

    ghost Value = { List ℕ };

    ghost view = { λ f. f.order.items };

    ghost invariant = { λ f. IsSetOf f.ids f.order.items };
}

impl Found {
    /// None yet.
    pub(crate) fn none(alloc: Global) -> Found
        ensures { result ≡ [] }
    {
        Found {
            order: Vec::new(alloc),
            ids: BTreeSet::new(alloc),
        }
    }

    /// The identifiers, in the order in which they were found.
    pub(crate) fn order(&self) -> &[u32]
        ensures value { result.now ≡ self.now }
        ensures once { IsDistinct nat_eq self.now }
    {
        self.order.as_slice()
    }

    /// Adds an identifier behind the others, unless it is there.
    ///
    /// # Errors
    ///
    /// Out of memory alone.
    pub(crate) fn add(&mut self, id: u32) -> Result<(), AllocError>
        ensures { OnOk result (AreAdded (λ other. id ≡ other) self.old self.new) }
    {
        // Room comes first: what the set takes stands in the order too.
        self.order.reserve(1)?;
        if !self.ids.insert(id)? {
            return Ok(());
        }
        self.order.push(id)?;
        Ok(())
    }

    /// The identifiers, rising.
    ///
    /// # Errors
    ///
    /// Out of memory alone.
    pub(crate) fn rising(&self, alloc: Global) -> Result<Vec<u32>, AllocError>
        ensures { IfOk result (λ ids. AreRising self.now ids.items) }
    {
        self.ids.iter().copied().collect(alloc)
    }
}
