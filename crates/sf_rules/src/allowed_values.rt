ghost use Rattle.std.specs.Prelude.{◌≡◌, ◌&&◌, IfOk, nat_le, nat_lt};
ghost use Rattle.std.specs.List.{list_all};
ghost use Rattle.sf_features.specs.declared.column_type.ColumnType.{ColumnType};
ghost use Rattle.sf_features.specs.Values.{is_of_type};
ghost use Rattle.sf_rules.specs.Rules.{are_allowed, is_one_of, values_max};

use sf_layers::{AttrValue, ColumnType};
use std::alloc::{AllocError, Global};
use std::marker::Model;

/// How many values a rule names at most.
pub const VALUES_MAX: usize = 1000;

/// The values that a rule allows, in the order in which they were named. Contracts see them as their list.
#[derive(Debug, Drop)]
pub struct AllowedValues {
    values: Vec<AttrValue>,
}

impl Model for AllowedValues {
    ghost use Rattle.std.specs.Prelude.{List};
    ghost use Rattle.sf_features.specs.declared.attr_value.AttrValue.{AttrValue};

    ghost Value = { List AttrValue };

    ghost view = { λ a. a.values.items };
}

impl AllowedValues {
    /// These values.
    pub fn new(values: Vec<AttrValue>) -> AllowedValues
        ensures { result ≡ values.items }
    {
        AllowedValues { values }
    }

    /// The values in their order.
    pub fn as_slice(&self) -> &[AttrValue]
        ensures { result.now ≡ self.now }
    {
        self.values.as_slice()
    }

    /// The same, to be owned.
    pub fn into_vec(self) -> Vec<AttrValue>
        ensures { result.items ≡ self }
    {
        self.values
    }

    /// Whether so many values, all of a type, may be named.
    pub(crate) fn are_of_type(&self, column_type: ColumnType) -> bool
        ensures { result ≡ are_allowed column_type self.now }
    {
        are_of_type(column_type, self.as_slice())
    }

    /// Whether a value is one of these.
    pub(crate) fn contain(&self, value: &AttrValue) -> bool
        ensures { result ≡ is_one_of self.now value.now }
    {
        is_among(self.as_slice(), value)
    }

    /// A copy.
    ///
    /// # Errors
    ///
    /// Out of memory alone.
    pub fn copy(&self, alloc: Global) -> Result<AllowedValues, AllocError>
        ensures { IfOk result (λ copy. copy ≡ self.now) }
    {
        let values = copies(alloc, self.as_slice())?;
        Ok(AllowedValues { values })
    }
}

/// Whether a value is one of several.
fn is_among(allowed: &[AttrValue], value: &AttrValue) -> bool
    ensures { result ≡ is_one_of allowed.now value.now }
{
    allowed.iter().any(|other| other.is_same(value))
}

/// Whether so many values, all of a type, may be named.
fn are_of_type(column_type: ColumnType, allowed: &[AttrValue]) -> bool
    ensures { result ≡ are_allowed column_type allowed.now }
{
    is_count(allowed.len()) && are_all_of_type(column_type, allowed)
}

/// Whether a rule may name so many values.
fn is_count(count: usize) -> bool
    ensures { result ≡ nat_lt 0 count && nat_le count values_max }
{
    0 < count && count <= VALUES_MAX
}

/// Whether each value is of a type.
fn are_all_of_type(column_type: ColumnType, values: &[AttrValue]) -> bool
    ensures { result ≡ list_all (is_of_type column_type) values.now }
{
    values.iter().all(|value| value.is_of_type(column_type))
}

/// Copies of values.
fn copies(alloc: Global, values: &[AttrValue]) -> Result<Vec<AttrValue>, AllocError>
    ensures { IfOk result (λ copy. copy.items ≡ values.now) }
{
    let mut copies = Vec::with_capacity(alloc, values.len())?;
    for value in values {
        copies.push(value.copy(alloc)?)?;
    }
    Ok(copies)
}
