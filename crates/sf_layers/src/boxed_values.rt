ghost use Rattle.std.specs.Prelude.{◌≡◌, [], IfOk};

use super::column_values::ColumnValues;
use std::alloc::{AllocError, Global};
use std::marker::Model;

/// The values of a column behind a box, so that what holds them stays small. Contracts see it as the
/// values.
#[derive(Debug, Drop)]
pub struct BoxedValues {
    values: Box<ColumnValues>,
}

impl Model for BoxedValues {
    ghost use Rattle.std.specs.Prelude.{ℕ, List, box_value};
    ghost use Rattle.sf_features.specs.declared.attr_value.AttrValue.{AttrValue};

    ghost Value = { List (ℕ × AttrValue) };

    ghost view = { λ a. box_value a.values };
}

impl BoxedValues {
    /// Room for values, which has none.
    pub fn new(alloc: Global) -> Result<BoxedValues, AllocError>
        ensures { IfOk result (λ boxed. boxed ≡ []) }
    {
        let values = Box::new(alloc, ColumnValues::new(alloc))?;
        Ok(BoxedValues { values })
    }

    /// The values.
    pub fn values(&self) -> &ColumnValues
        ensures { result.now ≡ self.now }
    {
        &self.values
    }

    /// Puts other values in the place of those that are there, and gives those.
    pub fn replace(&mut self, values: ColumnValues) -> ColumnValues
        ensures given { result ≡ self.old }
        ensures put { self.new ≡ values }
    {
        std::mem::replace(&mut *self.values, values)
    }
}
