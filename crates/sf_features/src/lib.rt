//! Features with their values, and the columns that these stand in.
#![tactic(auto)]

mod attr_value;
mod column;
mod column_type;
mod columns;
mod feature;
pub mod laws;
mod names;
mod text;

pub use attr_value::AttrValue;
pub use column::Column;
pub use column_type::ColumnType;
pub use columns::Columns;
pub use feature::Feature;
pub use names::is_name;
pub use text::Text;
