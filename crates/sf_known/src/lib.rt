//! What is known of a DE-9IM matrix and what is asked of one: patterns, the named predicates, and bounds of the entries.
#![tactic(auto)]

mod aim;
mod entries;
mod goal;
mod known;
pub mod laws;
mod letter;
mod matrix;
mod pattern;
mod predicate;
mod refusal;

pub use aim::Aim;
pub use entries::{exceeds, greater, lesser};
pub use goal::Goal;
pub use known::Known;
pub use letter::Letter;
pub use matrix::Matrix;
pub use pattern::Pattern;
pub use predicate::{Predicate, holds};
pub use refusal::Refusal;
