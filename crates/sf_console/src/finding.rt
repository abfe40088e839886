//! Features by a value in a column.
ghost use Rattle.std.specs.Prelude.{◌≡◌, ◌&&◌, IfOk};
ghost use Rattle.sf_console.specs.Answers.{ids_with as ids_with_of, may_be_end as may_be_end_of, may_be_sought as may_be_sought_of};

use sf_commands::Sought;
use sf_layers::{AttrValue, ColumnType, Layer, ValueRange};
use std::alloc::{AllocError, Global};

/// Whether this may be sought in a column of the type: of that type are the value, and the ends of the range.
pub(crate) fn may_be_sought(column_type: ColumnType, sought: &Sought) -> bool
    ensures { result ≡ may_be_sought_of column_type sought.now }
{
    match sought {
        Sought::Any => true,
        Sought::Value(wanted) => wanted.is_of_type(column_type),
        Sought::Between(range) => may_be_ends(column_type, range.range()),
    }
}

/// Whether the ends of a range are of the type.
fn may_be_ends(column_type: ColumnType, range: &ValueRange) -> bool
    ensures { result ≡ (may_be_end_of column_type range.now.from && may_be_end_of column_type range.now.to) }
{
    may_be_end(column_type, &range.from) && may_be_end(column_type, &range.to)
}

/// Whether the end of a range is of the type, where one is given.
fn may_be_end(column_type: ColumnType, end: &Option<AttrValue>) -> bool
    ensures { result ≡ may_be_end_of column_type end.now }
{
    match end {
        Some(value) => value.is_of_type(column_type),
        None => true,
    }
}

/// The identifiers of the features with a value that is sought in the column of a number, rising: by the column's index, where it
/// has one.
pub(crate) fn ids_with(
    alloc: Global,
    layer: &Layer,
    number: u16,
    sought: &Sought,
) -> Result<Vec<u32>, AllocError>
    ensures { IfOk result (λ ids. ids.items ≡ ids_with_of number sought.now layer.now) }
{
    match sought {
        Sought::Any => layer.ids_between(alloc, number, &None, &None),
        Sought::Value(wanted) => layer.ids_with_value(alloc, number, wanted),
        Sought::Between(range) => {
            let range = range.range();
            layer.ids_between(alloc, number, &range.from, &range.to)
        }
    }
}
