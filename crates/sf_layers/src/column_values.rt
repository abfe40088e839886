ghost use Rattle.std.specs.Prelude.{◌≡◌, ◌<◌, ◌^◌, [], length};

use sf_features::AttrValue;
use std::alloc::Global;
use std::marker::Model;

/// The values of one column with the identifiers of their features, rising, moved out of a layer.
///
/// There is room for all its values, so they can be removed and put back without memory.
#[derive(Debug, Drop)]
pub struct ColumnValues {
    pub(crate) ids: Vec<u32>,
    pub(crate) values: Vec<AttrValue>,
}

impl Model for ColumnValues {
    ghost use Rattle.std.specs.Prelude.{◌≡◌, ◌≤◌, ℕ, List, zip, vec_len, vec_capacity};
    ghost use Rattle.std.specs.List.Sorted.{IsStrictlySortedBy};
    ghost use Rattle.std.specs.Ordering.{nat_cmp};
    ghost use Rattle.sf_features.specs.declared.attr_value.AttrValue.{AttrValue};

    ghost Value = { List (ℕ × AttrValue) };

    ghost view = { λ a. zip a.ids.items a.values.items };

    ghost invariant = { λ a.
        (vec_len a.values ≡ vec_len a.ids)
        × (vec_len a.ids ≤ vec_capacity a.values)
        × IsStrictlySortedBy nat_cmp a.ids.items };
}

impl ColumnValues {
    /// No value.
    pub fn new(alloc: Global) -> ColumnValues
        ensures { result ≡ [] }
    {
        ColumnValues {
            ids: Vec::new(alloc),
            values: Vec::new(alloc),
        }
    }

    /// How many values there are.
    pub fn count(&self) -> usize
        ensures count { result ≡ length self.now }
        ensures small { result < 2 ^ 63 }
    {
        self.values.len()
    }
}
