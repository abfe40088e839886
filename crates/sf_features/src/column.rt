ghost use Rattle.std.specs.Prelude.{◌≡◌, IfOk};

use super::column_type::ColumnType;
use super::text::Text;
use std::alloc::{AllocError, Global};

/// A column of a layer. Its number is its own as long as the layer is there; values stand under it.
#[derive(Debug, Drop)]
pub struct Column {
    pub number: u16,
    pub name: Text,
    pub column_type: ColumnType,
}

impl Column {
    /// A copy of the column.
    ///
    /// # Errors
    ///
    /// Out of memory.
    pub fn copy(&self, alloc: Global) -> Result<Column, AllocError>
        ensures { IfOk result (λ copy. copy ≡ self.now) }
    {
        Ok(Column {
            number: self.number,
            name: self.name.copy(alloc)?,
            column_type: self.column_type,
        })
    }
}
