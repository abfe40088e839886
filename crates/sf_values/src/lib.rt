//! The values and names that texts spell, the texts of values, and the kinds, types and predicates that words spell.
#![tactic(auto)]

mod form;
pub mod laws;
mod spelling;
mod state;
mod unescaping;
mod value;
mod writing;

pub use spelling::{column_type_of, layer_kind_of, predicate_of, text_of};
pub use value::value_of;
pub use writing::push_value;
