//! Spatial queries over a layer.
#![tactic(auto)]

mod ask;
mod evidence;
mod found;
mod given;
pub mod laws;
mod order;
mod queries;
mod refusal;

pub use ask::Ask;
pub use evidence::shown_by_each;
pub use found::Found;
pub use queries::{features_asked, ids_asked_behind, query, relate_one};
pub use refusal::Refusal;
