//! A range stands behind a box, so that a rule, and with it a step of a history, stays small.

ghost use Rattle.std.specs.Prelude.{◌≡◌, IfOk};

use sf_layers::ValueRange;
use std::alloc::{AllocError, Global};
use std::marker::Model;

/// A range of values behind a box. Contracts see it as the range.
#[derive(Debug, Drop)]
pub struct BoxedRange {
    range: Box<ValueRange>,
}

impl Model for BoxedRange {
    ghost use Rattle.std.specs.Prelude.{box_value};
    ghost use Rattle.sf_layers.specs.declared.value_range.ValueRange.{ValueRange};

    ghost Value = { ValueRange };

    ghost view = { λ a. box_value a.range };
}

impl BoxedRange {
    /// The range behind a box.
    ///
    /// # Errors
    ///
    /// Out of memory alone.
    pub fn new(alloc: Global, range: ValueRange) -> Result<BoxedRange, AllocError>
        ensures { IfOk result (λ boxed. boxed ≡ range) }
    {
        let range = Box::new(alloc, range)?;
        Ok(BoxedRange { range })
    }

    /// The range.
    pub fn range(&self) -> &ValueRange
        ensures { result.now ≡ self.now }
    {
        &self.range
    }
}
