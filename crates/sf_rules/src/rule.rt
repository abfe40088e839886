ghost use Rattle.std.specs.Prelude.{◌≡◌, IfOk, option_copied};
ghost use Rattle.sf_features.specs.declared.column_type.ColumnType.{ColumnType};
ghost use Rattle.sf_rules.specs.Rules.{fits_type, is_end as is_end_of, is_range as is_range_of, is_wrong as is_wrong_by};

use super::allowed_values::AllowedValues;
use super::boxed_range::BoxedRange;
use sf_joins::PairAsk;
use sf_layers::{AttrValue, ColumnType, Text, ValueRange};
use std::alloc::{AllocError, Global};

/// A rule by its name.
#[derive(Debug, Drop)]
pub struct Rule {
    pub name: Text,
    pub says: Says,
}

/// What a rule says.
#[derive(Debug, Drop)]
pub enum Says {
    /// Of the features of two layers, or of one.
    OfLayers(LayerRule),
    /// Of the values in a column.
    OfValues(ValueRule),
}

/// Whether a rule between layers forbids, or demands.
#[derive(Clone, Copy, Debug, PartialEq, Eq)]
pub enum Form {
    /// No two distinct features are as asked.
    Never,
    /// For each feature of the first layer another one of the second is as asked with it.
    Each,
}

/// A rule between the features of two layers, or of one.
#[derive(Debug, Drop)]
pub struct LayerRule {
    pub form: Form,
    /// The name of the first layer.
    pub first: Text,
    /// What is asked of a feature of the first layer with one of the second.
    pub ask: PairAsk,
    /// The name of the second layer, which may be the first.
    pub second: Text,
}

/// What a rule demands of the values in a column. But for `Required`, nothing is asked of a feature without a value there.
#[derive(Debug, Drop)]
pub enum Demand {
    /// No two features have the same value.
    Unique,
    /// Each feature has a value.
    Required,
    /// Each value is one of these, 1 to 1,000 values of the column's type.
    OneOf(AllowedValues),
    /// Each value is in this range, whose ends are of the column's type. It has an end, and no first one behind the second.
    InRange(BoxedRange),
}

impl Demand {
    /// Whether a rule may demand this of the values in a column of a type: of that type are the values that it names.
    pub fn fits(&self, column_type: ColumnType) -> bool
        ensures { result ≡ fits_type column_type self.now }
    {
        match self {
            Demand::Unique | Demand::Required => true,
            Demand::OneOf(allowed) => allowed.are_of_type(column_type),
            Demand::InRange(range) => is_range(column_type, range.range()),
        }
    }

    /// Whether what a feature has, a value or none, breaks a rule by itself.
    pub(crate) fn is_wrong(&self, found: Option<&AttrValue>) -> bool
        ensures { result ≡ is_wrong_by self.now (option_copied found.entry) }
    {
        match (self, found) {
            (Demand::Required, None) => true,
            (Demand::OneOf(allowed), Some(value)) => !allowed.contain(value),
            (Demand::InRange(range), Some(value)) => !range.range().contains(value),
            _ => false,
        }
    }

    /// A copy.
    ///
    /// # Errors
    ///
    /// Out of memory alone.
    pub fn copy(&self, alloc: Global) -> Result<Demand, AllocError>
        ensures { IfOk result (λ copy. copy ≡ self.now) }
    {
        Ok(match self {
            Demand::Unique => Demand::Unique,
            Demand::Required => Demand::Required,
            Demand::OneOf(allowed) => Demand::OneOf(allowed.copy(alloc)?),
            Demand::InRange(range) => {
                Demand::InRange(BoxedRange::new(alloc, range_copied(alloc, range.range())?)?)
            }
        })
    }
}

/// A copy of a range.
fn range_copied(alloc: Global, range: &ValueRange) -> Result<ValueRange, AllocError>
    ensures { IfOk result (λ copy. copy ≡ range.now) }
{
    Ok(ValueRange {
        from: copy_of(alloc, &range.from)?,
        to: copy_of(alloc, &range.to)?,
    })
}

/// Whether a range has an end, each is of a type, and the first is not behind the second.
fn is_range(column_type: ColumnType, range: &ValueRange) -> bool
    ensures { result ≡ is_range_of column_type range.now }
{
    (range.from.is_some() || range.to.is_some())
        && is_end(column_type, &range.from)
        && is_end(column_type, &range.to)
        && !range.is_empty()
}

/// Whether an end of a range is of a type, where one is given.
fn is_end(column_type: ColumnType, end: &Option<AttrValue>) -> bool
    ensures { result ≡ is_end_of column_type end.now }
{
    match end {
        Some(value) => value.is_of_type(column_type),
        None => true,
    }
}

/// A copy of a value that may be given.
fn copy_of(alloc: Global, value: &Option<AttrValue>) -> Result<Option<AttrValue>, AllocError>
    ensures { IfOk result (λ copy. copy ≡ value.now) }
{
    match value {
        Some(value) => Ok(Some(value.copy(alloc)?)),
        None => Ok(None),
    }
}

/// A rule on the values in a column of a layer.
#[derive(Debug, Drop)]
pub struct ValueRule {
    pub demand: Demand,
    /// The name of the layer.
    pub layer: Text,
    /// The name of its column.
    pub column: Text,
}
