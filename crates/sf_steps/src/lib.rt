//! What edits of a store do, and what takes them back: the definitions, with their laws.
#![tactic(auto)]

mod answer;
mod edit;
mod inverse;
pub mod laws;
mod refusal;
mod weight;

pub use answer::Answer;
pub use edit::Edit;
pub use inverse::Inverse;
pub use refusal::Refusal;
